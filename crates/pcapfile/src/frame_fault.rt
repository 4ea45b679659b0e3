/// Why no record can follow, however many bytes come.
#[derive(Clone, Copy, Debug, PartialEq, Eq)]
pub enum FrameFault {
    /// The record whose header stands at this offset of the file has a captured length above 262,144 bytes.
    TooBig { at: u64, len: u32 },
    /// The capture has more records, or more bytes, than are read.
    TooLong,
}
