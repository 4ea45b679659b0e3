/// What stood in a budget word at its end.
#[derive(Clone, Copy, Debug, PartialEq, Eq)]
pub struct Closed {
    pub stamp: u32,
    /// Bytes in use.
    pub used: u32,
}
