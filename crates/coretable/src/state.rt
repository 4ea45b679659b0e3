use crate::{Hand, Stage};
use prio_budget::Charge;

/// Whether a table works, or is in drain mode.
#[derive(Drop)]
pub enum State<C: Charge, T: Drop> {
    /// It works: how far the entry under way is.
    Works(Stage<C, T>),
    /// It gives all charges out: what was in hand, and the bytes and the stamp of the charge whose release it is to hear of.
    Drains {
        hand: Hand<C>,
        freeing: Option<(u32, u32)>,
    },
}
