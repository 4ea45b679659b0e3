use crate::{BudgetMove, Look};
use std::collections::LinkedList;

/// What a seat at the budget word knows. No value of it is made.
pub struct WordView {
    /// A stamp that the word has reached.
    pub seen: u64,
    /// (n, e) stands for n parts of 2^e.
    pub share: (u64, u64),
    /// Its part among the homes alone; a charge and a note have none.
    pub part: (u64, u64),
    /// Bytes of a charge.
    pub held: u64,
    /// 1 for a note, and else 0.
    pub note: u64,
    /// How many notes it handed out.
    pub given: u64,
    /// How many notes it met.
    pub met: u64,
    pub moves: LinkedList<BudgetMove>,
    pub looks: LinkedList<Look>,
}
