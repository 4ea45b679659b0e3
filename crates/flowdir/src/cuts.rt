/// When the open chunk is handed over, and how many of its last bytes are asked for again: from so many bytes on, or where
/// its bytes have waited for so long at a moment; a flush of 0 is never.
#[derive(Clone, Copy)]
pub(crate) struct Cuts {
    pub chunk: u32,
    pub overlap: u32,
    pub flush: u64,
    pub at: u64,
}
