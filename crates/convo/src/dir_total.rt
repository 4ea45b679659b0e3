use evring::Way;
use flowdir::Counts;

/// What became of the bytes of one direction of a conversation.
#[derive(Clone, Copy, Debug, PartialEq, Eq)]
pub struct DirTotal {
    pub conv: u32,
    pub way: Way,
    pub counts: Counts,
    pub gaps: u64,
    pub gap_bytes: u64,
}
