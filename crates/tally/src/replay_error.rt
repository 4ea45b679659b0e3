ghost use Rattle.std.specs.Prelude.{◌≡◌};
ghost use Rattle.tally.specs.declared.replay_error.ReplayError.TheVariants.{Memory as OutOfMemory};

use crate::Memory;

/// Why moves and looks were not summed up.
#[derive(Clone, Copy, Debug, PartialEq, Eq)]
pub enum ReplayError {
    /// Want of memory.
    Memory,
    /// They are no history of a budget with that limit: the least stamp that shows it, what was kept there, and what the
    /// moves come to.
    Disagree { stamp: u32, kept: u64, summed: u64 },
}

impl From<Memory> for ReplayError {
    ghost from_gives = { λ _ error. error ≡ OutOfMemory };

    fn from(_: Memory) -> Self {
        ReplayError::Memory
    }
}
