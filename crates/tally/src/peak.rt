/// What a budget's history came to.
#[derive(Clone, Copy, Debug, PartialEq, Eq)]
pub struct Peak {
    /// The number of grants and releases.
    pub stamps: u32,
    /// The most bytes in use behind any of them.
    pub peak: u32,
}
