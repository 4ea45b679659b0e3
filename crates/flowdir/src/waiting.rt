// The runs of a segment that wait for their grants.
ghost use Rattle.std.specs.Prelude.{◌≡◌, ℕ, ◌+◌, ◌-◌, ◌<◌, ◌≤◌, ◌^◌, map, length, IfOk};
ghost use Rattle.flowdir.specs.Waits.{wait_for, wait_in, waits_of, FirstFits, TakesRun};
ghost use Rattle.reorder.specs.Frags.{range_for};

use crate::Memory;
use crate::cutting::{behind, first};
use prio_budget::{Charge, Part, PartBytes};
use reorder::{Run, Store};
use std::alloc::Global;
use std::collections::VecDeque;

/// A run that waits for its grant: where it begins, and its bytes.
#[derive(Drop)]
pub(crate) struct Waiting {
    pub at: u64,
    pub bytes: PartBytes,
}

/// The run of a range, whose bytes are among those that stand from a position on.
fn wait(alloc: Global, low: u64, inner: &[u8], run: Run) -> Result<Waiting, Memory>
    ensures { IfOk result (λ w. wait_for w ≡ wait_in low inner.now (range_for run)) }
{
    let bytes = first(
        behind(inner, run.at.saturating_sub(low)),
        u64::from(run.len),
    );
    Ok(Waiting {
        at: run.at,
        bytes: PartBytes::of(Vec::from_slice(alloc, bytes)?),
    })
}

/// The runs of ranges.
pub(crate) fn wait_all(
    alloc: Global,
    low: u64,
    inner: &[u8],
    runs: &[Run],
) -> Result<VecDeque<Waiting>, Memory>
    ensures { IfOk result (λ ws. waits_of ws.items ≡ map (wait_in low inner.now) (map range_for runs.now)) }
{
    let mut waits = VecDeque::new(alloc);
    for run in runs {
        let next = wait(alloc, low, inner, *run)?;
        waits.reserve(1)?;
        waits.push_back_reserved(next);
    }
    Ok(waits)
}

/// Puts the first run that waits into a store, with its charge. Tells how many bytes it has.
pub(crate) fn take_run<C: Charge>(
    store: &mut Store<C>,
    start: i64,
    waits: &mut VecDeque<Waiting>,
    charge: C,
) -> u64
    requires first { FirstFits (C.amount charge) store.old.frags (waits_of waits.old.items) }
    requires room { 0 < store.old.room }
    ensures takes { TakesRun start charge (waits_of waits.old.items) store.old.frags (waits_of waits.new.items) store.new.frags result }
{
    let Some(wait) = waits.pop_front() else {
        return 0;
    };
    let bytes = wait.bytes.as_slice().len() as u64;
    let Waiting { at, bytes: run } = wait;
    store.put(at, start, Part::new(run, charge));
    bytes
}
