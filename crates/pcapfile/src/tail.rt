/// How a stream without a fault ends.
#[derive(Clone, Copy, Debug, PartialEq, Eq)]
pub enum Tail {
    /// Behind its last record.
    Whole,
    /// Inside a record, of which so many bytes are there.
    Cut { bytes: u64 },
}
