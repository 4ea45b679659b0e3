use std::alloc::AllocFailed;

/// Want of memory.
#[derive(Clone, Copy, Debug, PartialEq, Eq)]
pub struct Memory;

impl<T: Drop> From<AllocFailed<T>> for Memory {
    fn from(_: AllocFailed<T>) -> Self {
        Memory
    }
}

impl From<deadlines::Memory> for Memory {
    fn from(_: deadlines::Memory) -> Self {
        Memory
    }
}
