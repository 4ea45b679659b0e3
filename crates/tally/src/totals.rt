use crate::{DirTotals, Peak, Skips};

/// What a run came to.
#[derive(Debug, Drop)]
pub struct Totals {
    /// The number of all records, and of those that were accepted.
    pub frames: u64,
    pub accepted: u64,
    pub skips: Skips,
    /// All directions, by ascending number of their conversations, fore before back.
    pub dirs: DirTotals,
    pub peak: Peak,
    /// The number of refused looks.
    pub refused: u64,
}
