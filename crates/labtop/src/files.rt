// Whole files of a shelf.
ghost use Rattle.std.specs.Prelude.{◌≡◌, ◌≢◌, ◌⊎◌, ◌≤◌, ◌+◌, ◌<◌, ◌^◌, ℕ, true, List, [], Some, IfOk, IfErr, IfSome, OnOk, OnErr, IsErrOf, IsOk, take, length, vec_len};
ghost use Rattle.pcapfile.specs.Head.{head_of};
ghost use Rattle.scap_world.specs.Causes.{HasCause, Rose};
ghost use Rattle.scap_world.specs.Files.{file_of, told_file, told_put, IsThere};
ghost use Rattle.scap_world.specs.Contents.{prefixed};
ghost use Rattle.scap_world.specs.declared.fault.WorldFault.TheVariants.{Failed};
ghost use Rattle.labtop.specs.Causes.{writes_status, reads_status};
ghost use Rattle.labtop.specs.Answers.{IsPart};
ghost use Rattle.labtop.specs.Drill.{asked_of, verdict_of};
ghost use Rattle.labtop.specs.Heads.{IsBehindHead};
ghost use Rattle.labtop.specs.Settings.{is_built};
ghost use Rattle.scapconf.specs.declared.settings.Settings.{Settings};

use crate::limits::MOST_BUILT;
use pcapfile::{FileHead, HEAD_SIZE, READ_SIZE};
use scap_world::{Shelf, Sink, Source, WorldFault, write_whole};
use scapconf::Status;
use std::alloc::{AllocError, Global};

pub(crate) fn status_of_write(fault: WorldFault) -> Status
    ensures { result ≡ writes_status fault }
{
    match fault {
        WorldFault::Memory => Status::Memory,
        WorldFault::Failed => Status::WriteFault,
    }
}

pub(crate) fn status_of_read(fault: WorldFault) -> Status
    ensures { result ≡ reads_status fault }
{
    match fault {
        WorldFault::Memory => Status::Memory,
        WorldFault::Failed => Status::ReadFault,
    }
}

/// Room for one read.
pub(crate) fn buffer(alloc: Global) -> Result<Vec<u8>, AllocError>
    ensures { IfOk result (λ v. vec_len v ≡ READ_SIZE) }
{
    vec![in alloc; 0u8; READ_SIZE]
}

/// Reads once, behind the bytes that were read.
pub(crate) fn read_more<S: Source>(
    source: &mut S,
    piece: &mut [u8],
    bytes: &mut Vec<u8>,
) -> Result<usize, WorldFault>
    requires { 0 < length piece.old }
    ensures same { OnOk result (prefixed bytes.old.items (S.left source.old) ≡ prefixed bytes.new.items (S.left source.new)) }
    ensures bound { IfOk result (λ n. n ≤ length piece.old) }
    ensures grows { IfOk result (λ n. length bytes.new.items ≡ length bytes.old.items + n) }
    ensures end { IfOk result (λ n. n ≡ 0 → IfSome (S.left source.new) (λ rest. rest ≡ [])) }
    ensures taken { IfOk result (λ n. IfSome (S.left source.old) (λ _. S.taken source.new ≡ S.taken source.old + n)) }
    ensures failed { IsErrOf result Failed → S.taken source.new ≡ S.taken source.old }
    ensures cause { HasCause (S.faults source.old) (S.faults source.new) result }
{
    let n = source.read(piece)?;
    bytes.extend_from_slice(&piece[..n])?;
    Ok(n)
}

/// The first bytes of a source: those of a file header, where it has as many.
pub(crate) fn read_head<S: Source>(
    alloc: Global,
    source: &mut S,
    piece: &mut [u8],
) -> Result<Vec<u8>, WorldFault>
    requires { 0 < length piece.old }
    ensures same { IfOk result (λ front. S.left source.old ≡ prefixed front.items (S.left source.new)) }
    ensures whole { IfOk result (λ front. (HEAD_SIZE ≤ length front.items) ⊎ IfSome (S.left source.new) (λ rest. rest ≡ [])) }
    ensures short { IfOk result (λ front. length front.items < HEAD_SIZE + length piece.old) }
    ensures taken { IfOk result (λ front. IfSome (S.left source.old) (λ _. S.taken source.new ≡ S.taken source.old + length front.items)) }
    ensures failed { IsErrOf result Failed → IfSome (S.left source.old) (λ _. S.taken source.new < S.taken source.old + HEAD_SIZE) }
    ensures cause { HasCause (S.faults source.old) (S.faults source.new) result }
{
    let mut front = Vec::new(alloc);
    'bytes: while front.len() < HEAD_SIZE {
        if read_more(source, piece, &mut front)? == 0 {
            return Ok(front);
        }
    }
    Ok(front)
}

/// Reads on, up to one byte past the most that are taken.
fn read_rest<S: Source>(
    source: &mut S,
    piece: &mut [u8],
    bytes: &mut Vec<u8>,
    most: usize,
) -> Result<(), WorldFault>
    requires few { most < 2 ^ 32 }
    requires room { length piece.old ≡ READ_SIZE }
    requires short { length bytes.old.items ≤ most + 1 }
    ensures bytes { OnOk result (IfSome (prefixed bytes.old.items (S.left source.old)) (λ file. bytes.new.items ≡ take (most + 1) file)) }
    ensures short { OnOk result (length bytes.new.items ≤ most + 1) }
    ensures taken { OnOk result (IfSome (S.left source.old) (λ _. S.taken source.new + length bytes.old.items ≡ S.taken source.old + length bytes.new.items)) }
    ensures cause { HasCause (S.faults source.old) (S.faults source.new) result }
{
    'rest: while bytes.len() <= most {
        let room = READ_SIZE.min(most + 1 - bytes.len());
        let n = read_more(source, &mut piece[..room], bytes)?;
        if n == 0 {
            return Ok(());
        }
    }
    Ok(())
}

/// The first bytes of a source, up to one past the most that are taken.
fn read_front<S: Source>(alloc: Global, source: &mut S, most: usize) -> Result<Vec<u8>, WorldFault>
    requires { most < 2 ^ 32 }
    ensures bytes { IfOk result (λ v. IfSome (S.left source.old) (λ bytes. v.items ≡ take (most + 1) bytes)) }
    ensures taken { IfOk result (λ v. IfSome (S.left source.old) (λ _. S.taken source.new ≡ S.taken source.old + length v.items)) }
    ensures short { IfOk result (λ v. length v.items ≤ most + 1) }
    ensures cause { HasCause (S.faults source.old) (S.faults source.new) result }
{
    let mut bytes = Vec::new(alloc);
    let mut piece = buffer(alloc)?;
    read_rest(source, &mut piece, &mut bytes, most)?;
    Ok(bytes)
}

/// The bytes of a file, up to one past the most that are taken.
pub(crate) fn read_file<S: Shelf>(
    alloc: Global,
    shelf: &mut S,
    name: &str,
    most: usize,
) -> Result<Vec<u8>, Status>
    requires { most < 2 ^ 32 }
    ensures front { IfOk result (λ v. IfSome (told_file (S.files shelf.old) name.now) (λ bytes. v.items ≡ take (most + 1) bytes)) }
    ensures there { OnOk result (IsThere (S.files shelf.old) name.now) }
    ensures taken { IfOk result (λ v. IfSome (S.files shelf.old) (λ _. S.taken shelf.new name.now ≡ length v.items)) }
    ensures short { IfOk result (λ v. length v.items ≤ most + 1) }
    ensures few { OnOk result (IfSome (S.files shelf.old) (λ _. S.taken shelf.new name.now ≤ most + 1)) }
    ensures files { S.files shelf.new ≡ S.files shelf.old }
    ensures kinds { IfErr result (λ e. (e ≡ Status.Memory) ⊎ (e ≡ Status.ReadFault)) }
    ensures cause { IsErrOf result Status.ReadFault → Rose (S.read_faults shelf.old name.now) (S.read_faults shelf.new name.now) }
    ensures read_later { (other : List ℕ) → S.read_faults shelf.old other ≤ S.read_faults shelf.new other }
    ensures write_later { (other : List ℕ) → S.write_faults shelf.old other ≤ S.write_faults shelf.new other }
    ensures open_files { S.open_files shelf.new ≡ S.open_files shelf.old }
{
    let mut source = match shelf.open_read(name) {
        Ok(source) => source,
        Err(fault) => return Err(status_of_read(fault)),
    };
    let bytes = read_front(alloc, &mut source, most);
    shelf.end_read(name, source);
    match bytes {
        Ok(bytes) => Ok(bytes),
        Err(fault) => Err(status_of_read(fault)),
    }
}

/// The bytes of a capture, up to one past the most that are taken, and none behind a head that is refused: they ask for what all
/// its bytes ask for.
fn read_records<S: Source>(alloc: Global, source: &mut S) -> Result<Vec<u8>, WorldFault>
    ensures enough { (s : Settings) → IfOk result (λ v. IfSome (S.left source.old) (λ file. verdict_of s file ≡ verdict_of s v.items)) }
    ensures taken { IfOk result (λ v. IfSome (S.left source.old) (λ _. S.taken source.new ≡ S.taken source.old + length v.items)) }
    ensures short { IfOk result (λ v. length v.items ≤ MOST_BUILT + 1) }
    ensures failed { IsErrOf result Failed
        → IfSome (S.left source.old) (λ file. (S.taken source.new < S.taken source.old + HEAD_SIZE) ⊎ IsOk (head_of file)) }
    ensures cause { HasCause (S.faults source.old) (S.faults source.new) result }
{
    let mut piece = buffer(alloc)?;
    let mut bytes = read_head(alloc, source, &mut piece)?;
    match FileHead::read(&bytes) {
        Ok(_) => {}
        Err(_) => return Ok(bytes),
    }
    read_rest(source, &mut piece, &mut bytes, MOST_BUILT)?;
    Ok(bytes)
}

/// The bytes of a capture that tell what it asks for.
pub(crate) fn read_capture<S: Shelf>(
    alloc: Global,
    shelf: &mut S,
    name: &str,
) -> Result<Vec<u8>, Status>
    ensures asked { (s : Settings) → is_built s ≡ true
        → IfOk result (λ v. IfSome (S.files shelf.old) (λ files. asked_of s (file_of files name.now) ≡ verdict_of s v.items)) }
    ensures few { OnOk result (IfSome (S.files shelf.old) (λ _. S.taken shelf.new name.now ≤ MOST_BUILT + 1)) }
    ensures head_first { IsErrOf result Status.ReadFault
        → IfSome (S.files shelf.old) (λ files. IsBehindHead (file_of files name.now) (S.taken shelf.new name.now)) }
    ensures files { S.files shelf.new ≡ S.files shelf.old }
    ensures kinds { IfErr result (λ e. (e ≡ Status.Memory) ⊎ (e ≡ Status.ReadFault)) }
    ensures cause { IsErrOf result Status.ReadFault → Rose (S.read_faults shelf.old name.now) (S.read_faults shelf.new name.now) }
    ensures read_later { (other : List ℕ) → S.read_faults shelf.old other ≤ S.read_faults shelf.new other }
    ensures write_later { (other : List ℕ) → S.write_faults shelf.old other ≤ S.write_faults shelf.new other }
    ensures open_files { S.open_files shelf.new ≡ S.open_files shelf.old }
{
    let mut source = match shelf.open_read(name) {
        Ok(source) => source,
        Err(fault) => return Err(status_of_read(fault)),
    };
    let bytes = read_records(alloc, &mut source);
    shelf.end_read(name, source);
    match bytes {
        Ok(bytes) => Ok(bytes),
        Err(fault) => Err(status_of_read(fault)),
    }
}

/// Makes a file of that text.
pub(crate) fn write_file<S: Shelf>(shelf: &mut S, name: &str, text: &[u8]) -> Result<(), Status>
    ensures ok { OnOk result (S.files shelf.new ≡ told_put name.now text.now (S.files shelf.old)) }
    ensures others { (other : List ℕ) → other ≢ name.now → told_file (S.files shelf.new) other ≡ told_file (S.files shelf.old) other }
    ensures part { IsPart text.now (told_file (S.files shelf.old) name.now) (told_file (S.files shelf.new) name.now) }
    ensures taken { (other : List ℕ) → S.taken shelf.new other ≡ S.taken shelf.old other }
    ensures kinds { IfErr result (λ e. (e ≡ Status.Memory) ⊎ (e ≡ Status.WriteFault)) }
    ensures cause { IsErrOf result Status.WriteFault → Rose (S.write_faults shelf.old name.now) (S.write_faults shelf.new name.now) }
    ensures read_later { (other : List ℕ) → S.read_faults shelf.old other ≤ S.read_faults shelf.new other }
    ensures write_later { (other : List ℕ) → S.write_faults shelf.old other ≤ S.write_faults shelf.new other }
    ensures open_files { S.open_files shelf.new ≡ S.open_files shelf.old }
{
    let mut sink = match shelf.create(name) {
        Ok(sink) => sink,
        Err(fault) => return Err(status_of_write(fault)),
    };
    let written = write_whole(&mut sink, text);
    let finished = shelf.finish(name, sink);
    if let Err(fault) = written {
        return Err(status_of_write(fault));
    }
    match finished {
        Ok(()) => Ok(()),
        Err(_) => Err(Status::WriteFault),
    }
}
