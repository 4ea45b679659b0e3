use crate::FrameBytes;

/// A record of a capture.
#[derive(Drop)]
pub struct Frame {
    /// The offset of its header in the file, in bytes.
    pub at: u64,
    /// Its moment in nanoseconds since 1970.
    pub moment: u64,
    /// The captured bytes.
    pub bytes: FrameBytes,
}
