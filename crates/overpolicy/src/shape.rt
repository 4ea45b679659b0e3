use crate::{Mode, Policy};

/// How streams are put together. Sizes are in bytes, times in nanoseconds.
#[derive(Clone, Copy, Debug, PartialEq, Eq)]
pub struct Shape {
    pub mode: Mode,
    pub policy: Policy,
    /// The fewest fresh bytes of a chunk that is handed over while its stream goes on.
    pub chunk: u32,
    /// How many bytes of a chunk its successor repeats.
    pub overlap: u32,
    /// How long fresh bytes wait for more; 0 where they wait for good.
    pub flush: u64,
    /// How long a gap is waited for.
    pub hole: u64,
    /// How far beyond a gap bytes are held before the gap is passed.
    pub reorder: u32,
    /// How long a conversation without packets lasts.
    pub idle: u64,
}
