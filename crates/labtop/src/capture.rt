// What a capture's bytes ask for.
ghost use Rattle.std.specs.Prelude.{◌≡◌, ◌≤◌, ℕ, suc, List, length, drop, vec_len, Ok, IfOk, IfSome, option_map};
ghost use Rattle.std.specs.List.{sum_by};
ghost use Rattle.pcapfile.specs.Capture.{records_from};
ghost use Rattle.pcapfile.specs.Head.{head_of};
ghost use Rattle.labtop.specs.Drill.{limits, whole_of};

use crate::memory::Memory;
use pcapfile::{FileHead, Frame, Frames, MOST_BYTES, MOST_RECORDS, Next, Tail};
use std::alloc::Global;

/// The records of a capture whose end is whole, by the bytes behind its head.
#[tactic(auto, using(crate::proofs::FramesLemmas::passed_rest, std::proofs::lemmas::List::Sums::sum_by_push))]
pub(crate) fn whole_frames(
    alloc: Global,
    head: FileHead,
    rest: &[u8],
) -> Result<Option<Vec<Frame>>, Memory>
    ensures frames { (file : List ℕ) → head_of file ≡ Ok head → rest.now ≡ drop 24 file
        → IfOk result (λ found. option_map (λ v. v.items) found ≡ whole_of (records_from (suc (suc (length file))) head limits 24 0 rest.now)) }
    ensures fits { IfOk result (λ found. IfSome found (λ v. sum_by (λ f. length f.bytes) v.items ≤ length rest.now)) }
    ensures few { IfOk result (λ found. IfSome found (λ v. vec_len v ≤ length rest.now)) }
{
    let mut frames = Frames::new(alloc, head, MOST_RECORDS, MOST_BYTES);
    frames.feed(rest)?;
    let mut found = Vec::new(alloc);
    'records: loop {
        match frames.next()? {
            Next::Whole(frame) => found.push(frame)?,
            Next::More => break,
            Next::Fault(_) => return Ok(None),
        }
    }
    match frames.finish() {
        Tail::Whole => Ok(Some(found)),
        Tail::Cut { .. } => Ok(None),
    }
}
