//! One worker: it tells the events of its cores to a handler, writes their lines to a sink, releases their charges and answers.
//! In order: each line is the event's, each release and each answer is what the handler's advice makes due, and the answer comes
//! last. After a fault it writes nothing, calls no handler, takes no memory, and still gives every charge out.
//! Stands on handler, histbook, evring, chunkpart, prio_budget, scap_world and streamkey.
#![tactic(auto)]

mod calls;
mod circle;
pub mod laws;
mod outgoing;
mod release;
mod scribe;
mod serving;
mod work;
mod work_fault;
mod work_turn;
mod worker;

pub use work_fault::WorkFault;
pub use work_turn::WorkTurn;
pub use worker::Worker;
