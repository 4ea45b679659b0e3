ghost use Rattle.std.specs.Prelude.{◌≡◌};
ghost use Rattle.scap_world.specs.declared.fault.WorldFault.TheVariants.{Memory};

use std::alloc::{AllocError, AllocFailed};

/// There was no memory for it.
#[derive(Clone, Copy, Debug, PartialEq, Eq)]
pub struct Memory;

/// The outside failed.
#[derive(Clone, Copy, Debug, PartialEq, Eq)]
pub struct Failed;

/// Why a call on the outside did not do its work.
#[derive(Clone, Copy, Debug, PartialEq, Eq)]
pub enum WorldFault {
    Memory,
    Failed,
}

impl From<AllocError> for Memory {
    fn from(_: AllocError) -> Self {
        Memory
    }
}

impl<T: Drop> From<AllocFailed<T>> for Memory {
    fn from(_: AllocFailed<T>) -> Self {
        Memory
    }
}

impl From<AllocError> for WorldFault {
    ghost from_gives = { λ _ e. e ≡ Memory };

    fn from(_: AllocError) -> Self {
        WorldFault::Memory
    }
}

impl<T: Drop> From<AllocFailed<T>> for WorldFault {
    ghost from_gives = { λ _ e. e ≡ Memory };

    fn from(_: AllocFailed<T>) -> Self {
        WorldFault::Memory
    }
}
