use evring::Reason;

/// An End that the core's next entry has to be.
#[derive(Clone, Copy, Debug, PartialEq, Eq)]
pub struct Owed {
    pub place: usize,
    pub reason: Reason,
    pub at: u64,
}
