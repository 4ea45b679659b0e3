//! What is held of one direction until the front comes to it: parts at positions, each with its charge.
//! A store stands for the ascending list of its parts; each call's contract is what it does to that list, and says nothing of how it is kept.
//! Stands on prio_budget (parts and charges), overpolicy, chunkpart (want of memory) and the definitions of streamdefs.
#![tactic(auto)]

mod covered;
mod gaps;
mod held;
pub mod laws;
mod new_starts;
mod over;
mod run;
mod runs;
mod search;
mod settlement;
mod start_run;
mod store;
#[cfg(test)]
mod tests;

pub use run::Run;
pub use runs::Runs;
pub use store::Store;
