/// A stamp at which moves and looks are no history of a budget, with what was kept there and what the moves come to.
#[derive(Clone, Copy, Debug, PartialEq, Eq)]
pub struct Mismatch {
    pub stamp: u32,
    pub kept: u64,
    pub summed: u64,
}
