ghost use Rattle.std.specs.Prelude.{◌≢◌, IfOk, IfErr};
ghost use Rattle.tally.specs.Replay.{IsOneReplay, IsPeak, IsFirstMismatch, IsOutcome, OnDisagree};

use crate::shown::{earlier_of, least_shown};
use crate::sorted::sorted;
use crate::walk::Walk;
use crate::{LookList, Memory, Mismatch, Move, MoveList, Peak, ReplayError};
use histbook::LookEntry;
use std::alloc::Global;

/// What moves and looks come to, in any order.
fn outcome(
    alloc: Global,
    moves: &[Move],
    looks: &[LookEntry],
    limit: u32,
) -> Result<Result<Peak, Mismatch>, Memory>
    ensures { IfOk result (IsOutcome limit moves.now looks.now) }
{
    let sorted = sorted(alloc, moves)?;
    let count = sorted.len() as u64;
    let mut walk = Walk::new(alloc, limit, count);
    let stopped = walk.over(&sorted)?;
    let shown = least_shown(walk.before(), count, looks);
    match earlier_of(shown, stopped) {
        Some(first) => Ok(Err(first)),
        None => Ok(Ok(walk.peak())),
    }
}

/// Checks that moves and looks are one history of a budget with a limit, and sums it up.
/// The moves may stand in any order; their stamps tell in which one they were made.
pub fn budget_replay(
    alloc: Global,
    moves: &MoveList,
    looks: &LookList,
    limit: u32,
) -> Result<Peak, ReplayError>
    ensures one { IfOk result (λ _. IsOneReplay limit moves.now looks.now) }
    ensures peak { IfOk result (IsPeak moves.now) }
    ensures first { IfErr result (λ error. OnDisagree error (IsFirstMismatch limit moves.now looks.now)) }
    ensures refused { IfErr result (λ error. OnDisagree error (λ _. ¬ IsOneReplay limit moves.now looks.now)) }
    ensures differ { IfErr result (λ error. OnDisagree error (λ m. m.kept ≢ m.summed)) }
{
    match outcome(alloc, moves.as_slice(), looks.as_slice(), limit)? {
        Ok(peak) => Ok(peak),
        Err(first) => Err(ReplayError::Disagree {
            stamp: first.stamp,
            kept: first.kept,
            summed: first.summed,
        }),
    }
}
