ghost use Rattle.std.specs.Prelude.{◌≡◌};
ghost use Rattle.scapconf.specs.declared.status.Status.TheVariants.{Memory as OutOfMemory};
ghost use Rattle.scap_world.specs.declared.fault.WorldFault.TheVariants.{Memory as OutsideMemory};

use scap_world::WorldFault;
use scapconf::Status;
use std::alloc::{AllocError, AllocFailed};

/// Want of memory.
#[derive(Clone, Copy, Debug, PartialEq, Eq)]
pub(crate) struct Memory;

impl From<AllocError> for Memory {
    fn from(_: AllocError) -> Self {
        Memory
    }
}

impl<T: Drop> From<AllocFailed<T>> for Memory {
    fn from(_: AllocFailed<T>) -> Self {
        Memory
    }
}

impl From<pcapfile::Memory> for Memory {
    fn from(_: pcapfile::Memory) -> Self {
        Memory
    }
}

impl From<textout::Memory> for Memory {
    fn from(_: textout::Memory) -> Self {
        Memory
    }
}

impl From<Memory> for WorldFault {
    ghost from_gives = { λ _ fault. fault ≡ OutsideMemory };

    fn from(_: Memory) -> Self {
        WorldFault::Memory
    }
}

impl From<Memory> for Status {
    ghost from_gives = { λ _ status. status ≡ OutOfMemory };

    fn from(_: Memory) -> Self {
        Status::Memory
    }
}
