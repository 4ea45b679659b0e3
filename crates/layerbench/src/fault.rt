use std::alloc::{AllocError, AllocFailed};
use std::io;

/// Why nothing was measured.
#[derive(Clone, Copy, Debug)]
pub enum Fault {
    Memory,
    /// The words ask for nothing that is measured.
    Words,
    /// The clock, the words or the output failed.
    Outside,
}

impl Fault {
    /// The exit status.
    pub fn number(self) -> u8 {
        match self {
            Fault::Memory => 1,
            Fault::Words => 2,
            Fault::Outside => 3,
        }
    }
}

impl From<AllocError> for Fault {
    fn from(_: AllocError) -> Self {
        Fault::Memory
    }
}

impl<T: Drop> From<AllocFailed<T>> for Fault {
    fn from(_: AllocFailed<T>) -> Self {
        Fault::Memory
    }
}

impl From<pcapfile::Memory> for Fault {
    fn from(_: pcapfile::Memory) -> Self {
        Fault::Memory
    }
}

impl From<evring::Memory> for Fault {
    fn from(_: evring::Memory) -> Self {
        Fault::Memory
    }
}

impl From<prio_budget::Memory> for Fault {
    fn from(_: prio_budget::Memory) -> Self {
        Fault::Memory
    }
}

impl From<flowdir::Memory> for Fault {
    fn from(_: flowdir::Memory) -> Self {
        Fault::Memory
    }
}

impl From<deadlines::Memory> for Fault {
    fn from(_: deadlines::Memory) -> Self {
        Fault::Memory
    }
}

impl From<io::Error> for Fault {
    fn from(_: io::Error) -> Self {
        Fault::Outside
    }
}
