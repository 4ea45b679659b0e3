//! The memory budget: marks of priorities, the budgets of one thread and of many, charges for granted bytes, and parts that carry their charge.
//! The bytes in use are the sum of all charges that are out, never above the limit; an ask is refused exactly above its mark or once the stamps are spent.
//! Stands on atomic_table.
#![tactic(auto)]

mod answered;
mod budget_move;
mod charge;
mod closed;
mod free;
mod home;
pub mod laws;
mod look;
mod mark_fault;
mod marks;
mod memory;
mod named;
mod new_budget;
mod note;
mod part;
mod part_bytes;
mod plain_budget;
mod plain_charge;
pub mod rows;
#[cfg(test)]
mod tests;
mod word_budget;
mod word_charge;
mod word_rule;
mod word_terms;
#[cfg(test)]
mod word_tests;
mod word_view;

pub use answered::{Answered, SPENT_STAMP};
pub use budget_move::BudgetMove;
pub use charge::Charge;
pub use closed::Closed;
pub use free::Free;
pub use home::Home;
pub use look::Look;
pub use mark_fault::MarkFault;
pub use marks::{GREATEST_LIMIT, LEAST_LIMIT, MOST_PRIORITIES, Marks};
pub use memory::Memory;
pub use named::Named;
pub use new_budget::NewBudget;
pub use note::Note;
pub use part::Part;
pub use part_bytes::PartBytes;
pub use plain_budget::PlainBudget;
pub use plain_charge::PlainCharge;
pub use word_budget::{ONE_STAMP, WordBudget};
pub use word_charge::WordCharge;
