//! The sizes of a capture file and the most that is read of one.

/// The bytes of the file header.
pub const HEAD_SIZE: usize = 24;

/// The bytes of the header of a record.
pub const HEADER_SIZE: usize = 16;

/// The longest captured length of a record that is read, in bytes.
pub const LONGEST_RECORD: u32 = 262_144;

/// The most records of a capture that are read.
pub const MOST_RECORDS: u32 = 4_194_304;

/// The most bytes of a capture that are read.
pub const MOST_BYTES: u64 = 4_294_967_296;

/// The most bytes that are asked of a file at once.
pub const READ_SIZE: usize = 65_536;
