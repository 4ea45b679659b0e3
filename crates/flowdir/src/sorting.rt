// Sorting a segment's bytes as it comes.
ghost use Rattle.std.specs.Prelude.{◌≡◌, ℕ, ◌+◌, ◌-◌, ◌<◌, ◌≤◌, ◌^◌, ℤ, List, [], ◌∷◌, map, length, min, max, Option, IfOk, OnOk, OnErr};
ghost use Rattle.prio_budget.specs.Share.{Share};
ghost use Rattle.streamdefs.specs.Terms.{Terms};
ghost use Rattle.streamdefs.specs.Ranges.{Range};
ghost use Rattle.streamdefs.specs.View.{Gap};
ghost use Rattle.reorder.specs.Frags.{Ascends, EndBy, free, overlaid, range_for, weight_in};
ghost use Rattle.flowdir.specs.Classes.{lost, at_of, bytes_at, inner_of, counts_with, sum_of_runs};
ghost use Rattle.flowdir.specs.Counting.{classes_of};
ghost use Rattle.flowdir.specs.Waits.{waits_of, wait_in, bytes_waiting, AreFresh};

use crate::cutting::{CutUp, cut_up};
use crate::waiting::{Waiting, wait_all};
use crate::{Counts, Memory};
use overpolicy::Policy;
use prio_budget::Charge;
use reorder::{Run, Store};
use std::alloc::Global;
use std::collections::VecDeque;

/// The number of positions of runs.
fn positions(runs: &[Run]) -> u64
    requires { sum_of_runs (map range_for runs.now) < 2 ^ 64 }
    ensures { result ≡ sum_of_runs (map range_for runs.now) }
{
    let mut sum = 0;
    for run in runs {
        sum += u64::from(run.len);
    }
    sum
}

/// The runs of a segment, and how many bytes they have.
#[derive(Drop)]
pub(crate) struct Sorted {
    pub waits: VecDeque<Waiting>,
    pub wanted: u64,
}

/// The runs of a segment's part between the front and the cutoff, and what it covers settled.
#[tactic(auto, using(crate::proofs::RunSums::free_few, crate::proofs::FreshRuns::fresh, crate::proofs::FreshRuns::runs_few, crate::proofs::FreshRuns::parts_same))]
pub(crate) fn sort_inner<C: Charge>(
    alloc: Global,
    store: &mut Store<C>,
    policy: Policy,
    start: i64,
    low: u64,
    inner: &[u8],
) -> Result<Sorted, Memory>
    requires few { length inner.now ≤ 262144 }
    requires near { low ≤ 2 ^ 63 }
    ensures waits { IfOk result (λ sorted. waits_of sorted.waits.items ≡ map (wait_in low inner.now) (free low (low + length inner.now) store.old.frags)) }
    ensures fresh { IfOk result (λ sorted. (front : ℕ) → Ascends front store.old.frags → AreFresh low (low + length inner.now) store.new.frags (waits_of sorted.waits.items)) }
    ensures wanted { IfOk result (λ sorted. sorted.wanted ≡ sum_of_runs (free low (low + length inner.now) store.old.frags)) }
    ensures frags { OnOk result (store.new.frags ≡ overlaid policy start low inner.now store.old.frags) }
    ensures runs { IfOk result (λ sorted. length (waits_of sorted.waits.items) ≤ length inner.now) }
    ensures parts { OnOk result (length store.new.frags ≡ length store.old.frags) }
    ensures ascends { (front : ℕ) → Ascends front store.old.frags → Ascends front store.new.frags }
    ensures ends { (most : ℕ) → EndBy most store.old.frags → EndBy most store.new.frags }
    ensures weight { (w : C → ℕ) → weight_in w store.new.frags ≡ weight_in w store.old.frags }
{
    let runs = store.uncovered(alloc, low, low + inner.len() as u64)?;
    let waits = wait_all(alloc, low, inner, runs.as_slice())?;
    let wanted = positions(runs.as_slice());
    store.overlay(alloc, start, low, inner, policy)?;
    Ok(Sorted { waits, wanted })
}
