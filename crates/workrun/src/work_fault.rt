ghost use Rattle.std.specs.Prelude.{◌≡◌};
ghost use Rattle.workrun.specs.declared.work_fault.WorkFault.TheVariants.{Memory};
ghost use Rattle.workrun.specs.Telling.{fault_of};

use scap_world::WorldFault;
use std::alloc::AllocError;

/// Why a worker came into drain mode.
#[derive(Clone, Copy, Debug, PartialEq, Eq)]
pub enum WorkFault {
    /// There was no memory.
    Memory,
    /// Its sink failed.
    Write,
}

impl From<AllocError> for WorkFault {
    ghost from_gives = { λ _ e. e ≡ Memory };

    fn from(_: AllocError) -> Self {
        WorkFault::Memory
    }
}

impl From<textout::Memory> for WorkFault {
    ghost from_gives = { λ _ e. e ≡ Memory };

    fn from(_: textout::Memory) -> Self {
        WorkFault::Memory
    }
}

impl From<chunkpart::Memory> for WorkFault {
    ghost from_gives = { λ _ e. e ≡ Memory };

    fn from(_: chunkpart::Memory) -> Self {
        WorkFault::Memory
    }
}

impl From<WorldFault> for WorkFault {
    ghost from_gives = { λ w e. e ≡ fault_of w };

    fn from(fault: WorldFault) -> Self {
        match fault {
            WorldFault::Memory => WorkFault::Memory,
            WorldFault::Failed => WorkFault::Write,
        }
    }
}
