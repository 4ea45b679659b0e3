//! Sums over the journal: the budget's history checked and summed up, and the report's lines on a whole run.
//! A replay is Ok exactly where moves and looks are one history of a budget with that limit, and else names the least stamp
//! at which they are not. Each `put` appends the defined text.
//! Stands on histbook (looks, and what a budget's history is), convo (the totals of a direction), streamdefs (the report's
//! lines) and textout.
#![tactic(auto)]

mod dir_totals;
mod journal;
pub mod laws;
mod lines;
mod look_list;
mod merge;
mod mismatch;
mod move_list;
mod moves;
mod peak;
mod replay;
mod replay_error;
mod report;
pub mod rows;
mod shown;
mod skips;
mod sorted;
mod sums;
#[cfg(test)]
mod tests;
mod totals;
mod walk;

pub use dir_totals::DirTotals;
pub use journal::{looks_of, moves_of, refused_in, replay_journal};
pub use look_list::LookList;
pub use merge::all_dirs;
pub use mismatch::Mismatch;
pub use move_list::MoveList;
pub use moves::Move;
pub use peak::Peak;
pub use replay::budget_replay;
pub use replay_error::ReplayError;
pub use report::{put_opening, put_totals};
pub use skips::Skips;
pub use textout::Memory;
pub use totals::Totals;
