//! A later segment's bytes over the bytes of one part.
ghost use Rattle.std.specs.Prelude.{◌≡◌, ◌+◌, ◌-◌, ◌≤◌, ◌^◌, ◌∷◌, ◌++◌, length, drop, OnOk, IfOk};
ghost use Rattle.reorder.specs.Starts.{run_bytes, run_with, runs_with, bytes_with, written, first_taken, end_taken};

use crate::over::Over;
use crate::start_run::{StartRun, put_run};
use chunkpart::Memory;
use prio_budget::{Charge, Part};
use std::alloc::Global;

/// Puts a run behind others, in up to three pieces: what is before, within and behind the bytes that the segment takes.
fn put_settled(runs: &mut Vec<StartRun>, over: Over, at: u64, run: StartRun) -> Result<(), Memory>
    requires { over.from ≤ over.to }
    ensures { OnOk result (runs.new.items ≡ runs.old.items ++ run_with over at run) }
{
    let taken = over.taken(at, run);
    put_run(runs, taken.low, run.start)?;
    put_run(runs, taken.high - taken.low, over.start)?;
    put_run(runs, run.len - taken.high, run.start)
}

/// The runs of a part that stands from a position on, once the segment has taken what it wins.
pub(crate) fn settled_runs(
    alloc: Global,
    over: Over,
    at: u64,
    first: StartRun,
    more: &[StartRun],
) -> Result<Vec<StartRun>, Memory>
    requires ordered { over.from ≤ over.to }
    requires within { at + run_bytes (first ∷ more.now) ≤ 2 ^ 62 }
    ensures { IfOk result (λ made. made.items ≡ runs_with over at (first ∷ more.now)) }
{
    let mut made = Vec::new(alloc);
    put_settled(&mut made, over, at, first)?;
    let mut next = at + first.len;
    for run in more {
        put_settled(&mut made, over, next, *run)?;
        next += run.len;
    }
    Ok(made)
}

/// Writes the bytes that the segment takes of one run, which stands from a position and in its part from a place on.
fn write_run<C: Charge>(
    part: &mut Part<C>,
    over: Over,
    bytes: &[u8],
    at: u64,
    place: u64,
    run: StartRun,
)
    requires ordered { over.to ≡ over.from + length bytes.now }
    requires within { place + run.len ≤ length part.old.0 }
    requires near { at + run.len ≤ 2 ^ 62 }
    requires short { place + run.len ≤ 2 ^ 62 }
    ensures charge { part.new.1 ≡ part.old.1 }
    ensures bytes { part.new.0 ≡ written part.old.0 (place + first_taken over at run) (drop (at + first_taken over at run - over.from) bytes.now) (end_taken over at run - first_taken over at run) }
{
    let taken = over.taken(at, run);
    for i in taken.low..taken.high {
        let byte = bytes[(at + i - over.from) as usize];
        part.set((place + i) as usize, byte);
    }
}

/// Writes the bytes that the segment takes of a part, which stands from a position on.
pub(crate) fn write_runs<C: Charge>(
    part: &mut Part<C>,
    over: Over,
    bytes: &[u8],
    at: u64,
    first: StartRun,
    more: &[StartRun],
)
    requires ordered { over.to ≡ over.from + length bytes.now }
    requires whole { run_bytes (first ∷ more.now) ≡ length part.old.0 }
    requires within { at + run_bytes (first ∷ more.now) ≤ 2 ^ 62 }
    ensures charge { part.new.1 ≡ part.old.1 }
    ensures bytes { part.new.0 ≡ bytes_with over bytes.now at (first ∷ more.now) part.old.0 }
{
    write_run(part, over, bytes, at, 0, first);
    let mut place = first.len;
    for run in more {
        write_run(part, over, bytes, at + place, place, *run);
        place += run.len;
    }
}
