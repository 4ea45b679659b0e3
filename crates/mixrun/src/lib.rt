//! The machine over schedules: the moments of a whole run, the steps that cores and workers take between them, and what
//! holds at every moment, whatever the order of the steps.
//! So far definitions and laws alone. Stands on coretable (one core's course), workrun (the order of a worker's round), streamdefs, histbook,
//! evring and prio_budget.
#![tactic(auto)]

mod actor;
pub mod drills;
pub mod laws;
pub mod rows;
pub mod schedule_rows;
pub mod schedules;

pub use actor::Actor;
