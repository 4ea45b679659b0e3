ghost use Rattle.std.specs.Prelude.{◌≡◌, ◌≤◌};
ghost use Rattle.reorder.specs.Starts.{first_taken, end_taken};

use crate::start_run::StartRun;
use overpolicy::{Policy, Side, winner};

/// A later segment that lies over held bytes: the positions from which and up to which it brings bytes, its start, and the
/// policy that decides.
#[derive(Clone, Copy)]
pub(crate) struct Over {
    pub(crate) policy: Policy,
    pub(crate) start: i64,
    pub(crate) from: u64,
    pub(crate) to: u64,
}

/// Bytes of a run, by their places in it.
#[derive(Clone, Copy)]
pub(crate) struct Taken {
    pub(crate) low: u64,
    pub(crate) high: u64,
}

impl Over {
    /// Those bytes of a run, which stands from a position on, that this segment's bytes take the place of.
    pub(crate) fn taken(self, at: u64, run: StartRun) -> Taken
        requires { self.from ≤ self.to }
        ensures low { result.low ≡ first_taken self at run }
        ensures high { result.high ≡ end_taken self at run }
        ensures ordered { result.low ≤ result.high }
        ensures within { result.high ≤ run.len }
    {
        match winner(self.policy, run.start, self.start) {
            Side::Old => Taken { low: 0, high: 0 },
            Side::New => Taken {
                low: self.from.saturating_sub(at).min(run.len),
                high: self.to.saturating_sub(at).min(run.len),
            },
        }
    }
}
