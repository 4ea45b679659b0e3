ghost use Rattle.std.specs.Prelude.{◌≡◌};
ghost use Rattle.overpolicy.specs.Winner.{winner_of};

use crate::Policy;

/// Whose byte stands where a later segment brings a position that is held: the held one's, or the new one's.
#[derive(Clone, Copy, Debug, PartialEq, Eq)]
pub enum Side {
    Old,
    New,
}

/// Which byte stays, by the positions at which the two segments start; the new segment is the one that arrived later.
pub fn winner(policy: Policy, old_start: i64, new_start: i64) -> Side
    ensures { result ≡ winner_of policy old_start new_start }
{
    let is_new = match policy {
        Policy::First => false,
        Policy::Last => true,
        Policy::Bsd => new_start < old_start,
        Policy::Linux => new_start <= old_start,
    };
    if is_new { Side::New } else { Side::Old }
}
