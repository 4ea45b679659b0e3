// The command `make`, behind its words: a capture that is made.
ghost use Rattle.std.specs.Prelude.{◌≡◌, ◌≢◌, ◌⊎◌, ◌≤◌, ℕ, List, IfErr, OnOk, IsErrOf};
ghost use Rattle.scap_world.specs.Causes.{Rose};
ghost use Rattle.scap_world.specs.Files.{told_file, told_put};
ghost use Rattle.pcapgen.specs.Made.{made_file};
ghost use Rattle.labtop.specs.Answers.{IsPart};
ghost use Rattle.labtop.specs.MakeAnswers.{IsOfMake};

use crate::files::status_of_write;
use pcapgen::{MOST_RECORDS, write_made};
use scap_world::Shelf;
use scapconf::Status;
use std::alloc::Global;

/// Makes a file of so many records of a seed.
fn write_capture<S: Shelf>(
    alloc: Global,
    seed: u64,
    count: u32,
    name: &str,
    shelf: &mut S,
) -> Result<(), Status>
    requires { count ≤ MOST_RECORDS }
    ensures ok { OnOk result (S.files shelf.new ≡ told_put name.now (made_file seed count) (S.files shelf.old)) }
    ensures others { (other : List ℕ) → other ≢ name.now → told_file (S.files shelf.new) other ≡ told_file (S.files shelf.old) other }
    ensures part { IsPart (made_file seed count) (told_file (S.files shelf.old) name.now) (told_file (S.files shelf.new) name.now) }
    ensures kinds { IfErr result (λ e. (e ≡ Status.Memory) ⊎ (e ≡ Status.WriteFault)) }
    ensures cause { IsErrOf result Status.WriteFault → Rose (S.write_faults shelf.old name.now) (S.write_faults shelf.new name.now) }
    ensures open_files { S.open_files shelf.new ≡ S.open_files shelf.old }
{
    let mut sink = match shelf.create(name) {
        Ok(sink) => sink,
        Err(fault) => return Err(status_of_write(fault)),
    };
    let written = write_made(alloc, &mut sink, seed, count);
    let finished = shelf.finish(name, sink);
    if let Err(fault) = written {
        return Err(status_of_write(fault));
    }
    match finished {
        Ok(()) => Ok(()),
        Err(_) => Err(Status::WriteFault),
    }
}

/// Writes the capture of so many records of a seed.
pub(crate) fn make_run<S: Shelf>(
    alloc: Global,
    seed: u64,
    count: u32,
    capture: &str,
    shelf: &mut S,
) -> Status
    requires { count ≤ MOST_RECORDS }
    ensures kinds { IsOfMake result }
    ensures written { result ≡ Status.Done → S.files shelf.new ≡ told_put capture.now (made_file seed count) (S.files shelf.old) }
    ensures part { IsPart (made_file seed count) (told_file (S.files shelf.old) capture.now) (told_file (S.files shelf.new) capture.now) }
    ensures others { (other : List ℕ) → other ≢ capture.now → told_file (S.files shelf.new) other ≡ told_file (S.files shelf.old) other }
    ensures write { result ≡ Status.WriteFault → Rose (S.write_faults shelf.old capture.now) (S.write_faults shelf.new capture.now) }
    ensures open_files { S.open_files shelf.new ≡ S.open_files shelf.old }
{
    match write_capture(alloc, seed, count, capture, shelf) {
        Ok(()) => Status::Done,
        Err(status) => status,
    }
}
