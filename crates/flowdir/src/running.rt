// A segment whose runs are asked for, one after another.
ghost use Rattle.std.specs.Prelude.{◌≡◌, ℕ, ◌+◌, ◌-◌, ◌<◌, ◌≤◌, ◌^◌, true, [], ◌∷◌, length, max, Option, IfOk, OnOk};
ghost use Rattle.streamdefs.specs.Terms.{Terms};
ghost use Rattle.streamdefs.specs.Ranges.{cut_at};
ghost use Rattle.streamdefs.specs.Reorder.{Charge as Owed};
ghost use Rattle.streamdefs.specs.Direction.{Direction, Kind, Segment, start_of};
ghost use Rattle.reorder.specs.Frags.{weight_in, Ascends, EndBy};
ghost use Rattle.flowdir.specs.Asking.{Asking};
ghost use Rattle.flowdir.specs.Classes.{at_of, counts_with};
ghost use Rattle.flowdir.specs.Counting.{classes_of};
ghost use Rattle.flowdir.specs.Waits.{waits_of, AreFresh};
ghost use Rattle.flowdir.specs.Meeting.{Meets, IsFor};

use crate::cutting::{CutUp, cut_up};
use crate::passed::Passed;
use crate::sorting::sort_inner;
use crate::waiting::Waiting;
use crate::{Counts, Memory};
use overpolicy::Policy;
use prio_budget::Charge;
use reorder::Store;
use std::alloc::Global;
use std::collections::VecDeque;

/// The runs of a segment that are still to be asked for, and the counts of its bytes.
#[derive(Drop)]
pub(crate) struct Running {
    pub start: i64,
    pub waits: VecDeque<Waiting>,
    pub counts: Counts,
}

/// The counts of a segment as it comes, so many of whose bytes are wanted.
fn count<C: Charge>(passed: &Passed<C>, cut: &CutUp<'_>, wanted: u64) -> Counts
    requires few { (cut.now.len ≤ 262144) × (cut.now.below ≤ 262144) × (length cut.now.inner.now ≤ 262144) }
    requires at { cut.now.at ≤ 2 ^ 63 }
    ensures taken { result.taken ≡ 0 }
    ensures counts { (cutoff : Option ℕ) → cut.entry.now.low ≡ max passed.now.lane.front cut.entry.now.at → cut.entry.now.high ≡ cut_at cutoff (cut.entry.now.at + cut.entry.now.len)
        → classes_of result ≡ counts_with passed.now.lane.front passed.now.lane.gaps cutoff cut.entry.now.at cut.entry.now.len cut.entry.now.below (length cut.entry.now.inner.now) wanted }
{
    let to = cut.at + cut.len;
    let upper = to.min(passed.front());
    let lost = passed.lost(cut.at, upper);
    Counts {
        duplicate: upper.saturating_sub(cut.at).saturating_sub(lost)
            + (cut.inner.len() as u64).saturating_sub(wanted),
        late: cut.below + lost,
        cut: to.saturating_sub(cut.low.max(cut.high)),
        taken: 0,
        shed: wanted,
    }
}

/// A live segment comes: its runs, with what it covers settled.
#[tactic(auto, using(crate::proofs::FreshRuns::fresh_wider))]
pub(crate) fn start_runs<C: Charge>(
    alloc: Global,
    passed: &Passed<C>,
    store: &mut Store<C>,
    policy: Policy,
    start: i64,
    payload: &[u8],
    cutoff: Option<u64>,
) -> Result<Running, Memory>
    requires few { length payload.now ≤ 262144 }
    requires near { at_of start ≤ 2 ^ 63 }
    requires ascends { Ascends passed.now.lane.front store.old.frags }
    ensures asking { IfOk result (λ r. (paid : C → Owed) (t : Terms) (kind : Kind) (d : Direction) (s : Segment) → t.policy ≡ policy → s.live ≡ true → IsFor s payload.now cutoff → start ≡ start_of kind d s
        → Meets paid passed.now.lane store.old.frags d → Asking paid t kind d s [] start store.new.frags (waits_of r.waits.items) (classes_of r.counts)) }
    ensures fresh { IfOk result (λ r. AreFresh (max passed.now.lane.front (at_of start)) (max passed.now.lane.front (at_of start) + 262144) store.new.frags (waits_of r.waits.items)) }
    ensures runs { IfOk result (λ r. length (waits_of r.waits.items) ≤ length payload.now) }
    ensures parts { OnOk result (length store.new.frags ≡ length store.old.frags) }
    ensures taken { IfOk result (λ r. r.counts.taken ≡ 0) }
    ensures ascends { Ascends passed.now.lane.front store.new.frags }
    ensures ends { (most : ℕ) → EndBy most store.old.frags → EndBy most store.new.frags }
    ensures start { IfOk result (λ r. r.start ≡ start) }
    ensures weight { (w : C → ℕ) → weight_in w store.new.frags ≡ weight_in w store.old.frags }
{
    let cut = cut_up(passed.front(), start, payload, cutoff);
    let sorted = sort_inner(alloc, store, policy, start, cut.low, cut.inner)?;
    let counts = count(passed, &cut, sorted.wanted);
    Ok(Running {
        start,
        waits: sorted.waits,
        counts,
    })
}
