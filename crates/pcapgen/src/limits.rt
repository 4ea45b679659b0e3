//! The sizes of a capture that is made.

/// The most records that one generator puts.
pub const MOST_RECORDS: u32 = 1_000_000;

/// The most bytes of a record: those of its header, and of its frame.
pub const LONGEST_MADE: usize = 270;

/// The most bytes that wait to be written.
pub const BUFFER_SIZE: usize = 65_536;
