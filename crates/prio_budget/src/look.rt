/// What an ask found: the stamp and the used number that stood together.
#[derive(Clone, Copy, Debug, PartialEq, Eq)]
pub struct Look {
    pub stamp: u32,
    /// Bytes in use.
    pub found: u32,
}
