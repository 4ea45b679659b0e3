ghost use Rattle.std.specs.Prelude.{◌≡◌, IfOk};
ghost use Rattle.tally.specs.Moves.{by_stamp};

use crate::{Memory, Move};
use std::alloc::Global;

/// The moves by ascending stamp, equal ones as they stand.
pub(crate) fn sorted(alloc: Global, moves: &[Move]) -> Result<Vec<Move>, Memory>
    ensures { IfOk result (λ sorted. sorted.items ≡ by_stamp moves.now) }
{
    let mut sorted = Vec::from_slice(alloc, moves)?;
    sorted.sort_by_key(|next| next.stamp())?;
    Ok(sorted)
}
