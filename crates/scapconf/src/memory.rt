use std::alloc::{AllocError, AllocFailed};

/// Want of memory.
#[derive(Clone, Copy, Debug, PartialEq, Eq)]
pub struct Memory;

impl From<AllocError> for Memory {
    fn from(_: AllocError) -> Self {
        Memory
    }
}

impl<T: Drop> From<AllocFailed<T>> for Memory {
    fn from(_: AllocFailed<T>) -> Self {
        Memory
    }
}

impl From<capfilter::Memory> for Memory {
    fn from(_: capfilter::Memory) -> Self {
        Memory
    }
}

impl From<cutclass::Memory> for Memory {
    fn from(_: cutclass::Memory) -> Self {
        Memory
    }
}

impl From<convo::Memory> for Memory {
    fn from(_: convo::Memory) -> Self {
        Memory
    }
}
