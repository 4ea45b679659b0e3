// From a capture and a filter to the numbers of the packets that match.
ghost use Rattle.std.specs.Prelude.{◌≡◌, ◌≢◌, ◌⊎◌, ◌≤◌, ℕ, List, IfErr, IfSome, OnOk, IsErrOf};
ghost use Rattle.scap_world.specs.Causes.{Rose};
ghost use Rattle.scap_world.specs.Files.{file_of, told_file, told_put};
ghost use Rattle.labtop.specs.Answers.{IsBefore, IsPart};
ghost use Rattle.labtop.specs.Heads.{IsBehindHead};
ghost use Rattle.labtop.specs.Matched.{end_of};
ghost use Rattle.labtop.specs.Matching.{matched_of, status_of_end, AllowsMatch, CompletesMatch, IsEnd, IsForeign, LeavesMatch, WritesMatch};
ghost use Rattle.labtop.specs.Names.{match_name};

use crate::files::write_file;
use crate::matched::read_matches;
use crate::names::name_of_match;
use capfilter::Filter;
use pcapfile::{FrameFault, Tail};
use scap_world::Shelf;
use scapconf::Status;
use std::alloc::Global;

fn status_at(end: Result<Tail, FrameFault>) -> Status
    ensures { result ≡ status_of_end (end_of end) }
{
    match end {
        Ok(Tail::Whole) => Status::Done,
        Ok(Tail::Cut { bytes }) => Status::CutShort { bytes },
        Err(FrameFault::TooBig { at, len }) => Status::BadRecord { at, len },
        Err(FrameFault::TooLong) => Status::TooLong,
    }
}

/// Writes the file of a match.
fn write_matches<S: Shelf>(
    alloc: Global,
    out: &str,
    text: &[u8],
    shelf: &mut S,
) -> Result<(), Status>
    ensures ok { OnOk result (S.files shelf.new ≡ told_put (match_name out.now) text.now (S.files shelf.old)) }
    ensures others { (other : List ℕ) → other ≢ match_name out.now → told_file (S.files shelf.new) other ≡ told_file (S.files shelf.old) other }
    ensures part { IsPart text.now (told_file (S.files shelf.old) (match_name out.now)) (told_file (S.files shelf.new) (match_name out.now)) }
    ensures kinds { IfErr result (λ e. (e ≡ Status.Memory) ⊎ (e ≡ Status.WriteFault)) }
    ensures cause { IsErrOf result Status.WriteFault → Rose (S.write_faults shelf.old (match_name out.now)) (S.write_faults shelf.new (match_name out.now)) }
    ensures read_later { (other : List ℕ) → S.read_faults shelf.old other ≤ S.read_faults shelf.new other }
    ensures open_files { S.open_files shelf.new ≡ S.open_files shelf.old }
{
    let name = name_of_match(alloc, out)?;
    write_file(shelf, name.as_str(), text)
}

/// Writes the numbers of the packets of a capture that a filter takes.
pub(crate) fn match_run<S: Shelf>(
    alloc: Global,
    filter: &Filter,
    capture: &str,
    out: &str,
    shelf: &mut S,
) -> Status
    // What the capture's bytes ask for is answered, or a fault of the outside.
    ensures answer { IfSome (S.files shelf.old) (λ files. AllowsMatch (matched_of filter.now (file_of files capture.now)) result) }
    ensures never { IsForeign result → ⊥ }

    // At the capture's end the file is whole.
    ensures written { IsEnd result → IfSome (S.files shelf.old)
        (λ files. WritesMatch (matched_of filter.now (file_of files capture.now)) out.now (S.files shelf.old) (S.files shelf.new)) }

    // Whatever the status, the file is as it was or holds a front of its text, and no other file is touched.
    ensures parts { IfSome (S.files shelf.old)
        (λ files. LeavesMatch (matched_of filter.now (file_of files capture.now)) out.now (S.files shelf.old) (S.files shelf.new)) }
    ensures before { IsBefore result → S.files shelf.new ≡ S.files shelf.old }
    ensures others { (other : List ℕ) → other ≢ match_name out.now → told_file (S.files shelf.new) other ≡ told_file (S.files shelf.old) other }

    // A fault was counted where it is answered, one of reading where the head isn't refused.
    ensures read { result ≡ Status.ReadFault → Rose (S.read_faults shelf.old capture.now) (S.read_faults shelf.new capture.now)
        × IfSome (S.files shelf.old) (λ files. IsBehindHead (file_of files capture.now) (S.taken shelf.new capture.now)) }
    ensures write { result ≡ Status.WriteFault
        → Rose (S.write_faults shelf.old (match_name out.now)) (S.write_faults shelf.new (match_name out.now)) }

    // Where no fault was counted, the capture's own status is the answer, or there was no memory.
    ensures complete { (Rose (S.read_faults shelf.old capture.now) (S.read_faults shelf.new capture.now) → ⊥)
        → (Rose (S.write_faults shelf.old (match_name out.now)) (S.write_faults shelf.new (match_name out.now)) → ⊥)
        → IfSome (S.files shelf.old) (λ files. CompletesMatch (matched_of filter.now (file_of files capture.now)) result) }

    // What was opened is ended, and what was created is finished.
    ensures open_files { S.open_files shelf.new ≡ S.open_files shelf.old }
{
    let matches = match read_matches(alloc, filter, capture, shelf) {
        Ok(Ok(matches)) => matches,
        Ok(Err(kind)) => return Status::NotPcap { kind },
        Err(status) => return status,
    };
    match write_matches(alloc, out, &matches.text, shelf) {
        Ok(()) => status_at(matches.end),
        Err(status) => status,
    }
}
