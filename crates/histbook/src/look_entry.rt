use prio_budget::Look;

/// An ask for bytes of the budget, with the look that decided it.
#[derive(Clone, Copy, Debug, PartialEq, Eq)]
pub struct LookEntry {
    /// Bytes.
    pub asked: u32,
    pub granted: bool,
    pub look: Look,
}
