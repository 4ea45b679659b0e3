//! The journal of a run: each entry of each core with its looks and releases, and the cores that each worker served.
//! Its text is the defined one; the budget's history is stated over plain lists of its moves, by sums.
//! Stands on evring (reasons, advice, releases), prio_budget (looks) and textout (its text).
#![tactic(auto)]

mod advice;
mod books;
mod core_entry;
mod entry;
mod entry_list;
mod journal;
pub mod laws;
mod lines;
mod look_entry;
mod looks;
pub mod rows;
mod served;
mod text;
mod work_list;

pub use books::Books;
pub use core_entry::CoreEntry;
pub use entry::Entry;
pub use entry_list::EntryList;
pub use journal::Journal;
pub use look_entry::LookEntry;
pub use looks::Looks;
pub use served::Served;
pub use text::put_journal;
pub use textout::Memory;
pub use work_list::WorkList;

#[cfg(test)]
mod tests;
