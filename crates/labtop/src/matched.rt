// The matches of a capture that is read by pieces.
ghost use Rattle.std.specs.Prelude.{◌≡◌, ◌≤◌, ◌<◌, ◌+◌, ◌-◌, ◌++◌, ◌⊎◌, ℕ, List, [], IfOk, IfErr, IfSome, OnOk, IsErrOf, IsOk, length};
ghost use Rattle.pcapfile.specs.Head.{head_of};
ghost use Rattle.pcapfile.specs.declared.head.FileHead.{FileHead as Head};
ghost use Rattle.pcapfile.specs.Reading.{IsOpen, place_at};
ghost use Rattle.scap_world.specs.Causes.{HasCause, Rose};
ghost use Rattle.scap_world.specs.declared.fault.WorldFault.TheVariants.{Failed};
ghost use Rattle.scap_world.specs.Files.{file_of};
ghost use Rattle.labtop.specs.Drill.{limits};
ghost use Rattle.labtop.specs.Heads.{IsBehindHead};
ghost use Rattle.labtop.specs.Matched.{came, HasAll, HasRead, HasTurned, IsInside, IsMatched};
ghost use Rattle.labtop.specs.Matching.{matched_in, matched_of};

use crate::files::{buffer, read_head, status_of_read};
use crate::matching::{Matches, Matching};
use capfilter::Filter;
use pcapfile::{FileHead, FrameFault, HEAD_SIZE, HeadFault};
use scap_world::{Shelf, Source, WorldFault};
use scapconf::Status;
use std::alloc::Global;

/// What one turn of reading found.
#[derive(Clone, Copy)]
pub(crate) enum Turn {
    /// More bytes.
    Fed,
    /// The end of the file.
    Ended,
    /// That no more records can follow.
    Fault(FrameFault),
}

/// Takes the records that are whole, and reads once more.
fn read_on<S: Source>(
    filter: &Filter,
    source: &mut S,
    piece: &mut [u8],
    matching: &mut Matching,
) -> Result<Turn, WorldFault>
    requires inside { IsInside matching.old }
    requires some { 0 < length piece.old }
    ensures inside { OnOk result (IsInside matching.new) }
    ensures less { IfOk result (λ turn. turn ≡ Turn.Fed → limits.bytes + 1 - came matching.new < limits.bytes + 1 - came matching.old) }
    ensures open { IfOk result (λ turn. turn ≡ Turn.Ended → IsOpen (place_at matching.new.frames)) }
    ensures read { (head : Head) (fed : List ℕ) → HasRead filter.now head fed matching.old
        → IfOk result (λ turn. HasTurned filter.now head fed (S.left source.old) (S.left source.new) turn matching.new) }
    ensures cause { HasCause (S.faults source.old) (S.faults source.new) result }
{
    if let Some(fault) = matching.take_records(filter)? {
        return Ok(Turn::Fault(fault));
    }
    let n = source.read(piece)?;
    if n == 0 {
        return Ok(Turn::Ended);
    }
    matching.feed(&piece[..n])?;
    Ok(Turn::Fed)
}

/// Reads a capture behind its head, up to what ends it.
fn read_through<S: Source>(
    filter: &Filter,
    source: &mut S,
    piece: &mut [u8],
    begun: Matching,
) -> Result<Matches, WorldFault>
    requires inside { IsInside begun }
    requires some { 0 < length piece.old }
    ensures all { (head : Head) (fed : List ℕ) → HasRead filter.now head fed begun
        → IfOk result (λ matches. IfSome (S.left source.old) (λ rest. HasAll filter.now head (fed ++ rest) matches)) }
    ensures cause { HasCause (S.faults source.old) (S.faults source.new) result }
{
    let mut matching = begun;
    'turns: loop {
        match read_on(filter, source, piece, &mut matching)? {
            Turn::Fed => {}
            Turn::Ended => return Ok(matching.finish()),
            Turn::Fault(fault) => return Ok(matching.stop(fault)),
        }
    }
}

/// The matches of a capture, or why it is none.
fn matches_in<S: Source>(
    alloc: Global,
    filter: &Filter,
    source: &mut S,
) -> Result<Result<Matches, HeadFault>, WorldFault>
    ensures matched { IfOk result (λ found. IfSome (S.left source.old) (λ bytes. IsMatched found (matched_in filter.now bytes))) }
    ensures failed { IsErrOf result Failed
        → IfSome (S.left source.old) (λ file. (S.taken source.new < S.taken source.old + HEAD_SIZE) ⊎ IsOk (head_of file)) }
    ensures cause { HasCause (S.faults source.old) (S.faults source.new) result }
{
    let mut piece = buffer(alloc)?;
    let front = read_head(alloc, source, &mut piece)?;
    let head = match FileHead::read(&front) {
        Ok(head) => head,
        Err(kind) => return Ok(Err(kind)),
    };
    let matching = Matching::begin(alloc, head, &front[HEAD_SIZE..])?;
    let matches = read_through(filter, source, &mut piece, matching)?;
    Ok(Ok(matches))
}

/// The matches of a capture, or why it is none. What was opened is ended.
pub(crate) fn read_matches<S: Shelf>(
    alloc: Global,
    filter: &Filter,
    capture: &str,
    shelf: &mut S,
) -> Result<Result<Matches, HeadFault>, Status>
    ensures matched { IfOk result (λ found. IfSome (S.files shelf.old) (λ files. IsMatched found (matched_of filter.now (file_of files capture.now)))) }
    ensures head_first { IsErrOf result Status.ReadFault
        → IfSome (S.files shelf.old) (λ files. IsBehindHead (file_of files capture.now) (S.taken shelf.new capture.now)) }
    ensures files { S.files shelf.new ≡ S.files shelf.old }
    ensures kinds { IfErr result (λ e. (e ≡ Status.Memory) ⊎ (e ≡ Status.ReadFault)) }
    ensures cause { IsErrOf result Status.ReadFault → Rose (S.read_faults shelf.old capture.now) (S.read_faults shelf.new capture.now) }
    ensures read_later { (other : List ℕ) → S.read_faults shelf.old other ≤ S.read_faults shelf.new other }
    ensures write_later { (other : List ℕ) → S.write_faults shelf.old other ≤ S.write_faults shelf.new other }
    ensures open_files { S.open_files shelf.new ≡ S.open_files shelf.old }
{
    let mut source = match shelf.open_read(capture) {
        Ok(source) => source,
        Err(fault) => return Err(status_of_read(fault)),
    };
    let found = matches_in(alloc, filter, &mut source);
    shelf.end_read(capture, source);
    match found {
        Ok(found) => Ok(found),
        Err(fault) => Err(status_of_read(fault)),
    }
}
