/// Why no marks are made of three numbers.
#[derive(Clone, Copy, Debug, PartialEq, Eq)]
pub enum MarkFault {
    /// The limit is below 4,096 or above 2^31 - 1 bytes.
    Limit,
    /// The base is above the limit.
    Base,
    /// The number of priorities is 0 or above 16.
    Count,
}
