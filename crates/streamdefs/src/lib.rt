//! The definitions of streams: what a journal makes of the packets of a capture, and when a journal is lawful.
//! Each law in `laws` is proved of all of them, and each row in `rows` is what they compute on a small journal.
//! Stands on histbook, evring, prio_budget, streamkey and hex.
#![tactic(auto)]

pub mod laws;
pub mod rows_movement;
pub mod rows_refused;
pub mod rows_runs;
pub mod rows_so_far;
pub mod rows_wants;
