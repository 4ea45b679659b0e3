//! What no part covers.
ghost use Rattle.std.specs.Prelude.{◌≡◌, ◌+◌, ◌<◌, ◌^◌, ◌++◌, map, take, OnOk, IfOk};
ghost use Rattle.streamdefs.specs.Ranges.{between};
ghost use Rattle.reorder.specs.Frags.{range_for, free, EndBy};

use crate::Run;
use crate::held::Held;
use crate::search::below;
use chunkpart::Memory;
use prio_budget::Charge;
use std::alloc::Global;
use std::collections::VecDeque;

/// Puts the run from one position up to another behind others, where it isn't empty.
fn put_between(runs: &mut Vec<Run>, from: u64, to: u64) -> Result<(), Memory>
    requires { to < from + 2 ^ 32 }
    ensures { OnOk result (map range_for runs.new.items ≡ map range_for runs.old.items ++ between from to) }
{
    if from < to {
        let len = (to - from) as u32;
        if runs.push(Run { at: from, len }).is_err() {
            return Err(Memory);
        }
    }
    Ok(())
}

/// The longest runs within a range that no part covers, where the parts before a place end before the range.
pub(crate) fn free_runs<C: Charge>(
    alloc: Global,
    parts: &VecDeque<Held<C>>,
    first: usize,
    from: u64,
    to: u64,
) -> Result<Vec<Run>, Memory>
    requires few { to < from + 2 ^ 32 }
    requires before { EndBy from (take first parts.now.items) }
    ensures { IfOk result (λ runs. map range_for runs.items ≡ free from to parts.now.items) }
{
    let mut runs = Vec::new(alloc);
    let mut next = from;
    let mut place = first;
    while let Some(held) = below(parts, place, to) {
        put_between(&mut runs, next, held.at())?;
        next = next.max(held.end());
        place += 1;
    }
    put_between(&mut runs, next, to)?;
    Ok(runs)
}
