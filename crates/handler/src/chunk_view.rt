use evring::Way;
use streamkey::Key;

/// What a handler is shown of a chunk: its conversation and direction, the position of its first fresh byte, the length of
/// the gap before it, how many of the bytes shown are a copy of last bytes of the chunk before, the bytes of the kept chunks
/// that ride along, joined, and its own bytes, copy and fresh ones.
#[derive(Clone, Copy, Debug)]
pub struct ChunkView<'a> {
    pub conv: u32,
    pub way: Way,
    pub key: &'a Key,
    pub start: u64,
    pub gap: u64,
    pub over: u64,
    pub kept: &'a [u8],
    pub shown: &'a [u8],
}
