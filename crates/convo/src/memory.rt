/// Want of memory.
#[derive(Clone, Copy, Debug, PartialEq, Eq)]
pub struct Memory;

impl From<cutclass::Memory> for Memory {
    fn from(_: cutclass::Memory) -> Self {
        Memory
    }
}

impl From<flowdir::Memory> for Memory {
    fn from(_: flowdir::Memory) -> Self {
        Memory
    }
}
