//! What a core and its workers tell one another: events and answers, with the ways, reasons, advice and releases in them;
//! and the rings through which it goes.
//! An event and an answer carry chunks with their charges, in order, and each can be taken out again. What was taken out of
//! a ring followed by what waits in it is what was given, in order.
//! Stands on prio_budget, chunkpart, streamkey and rtrb.
#![tactic(auto)]

mod advice;
mod answer;
#[cfg(test)]
mod charge_tests;
mod event;
mod frees;
mod giver;
mod kept;
mod memory;
mod reason;
mod ring_ends;
#[cfg(test)]
mod ring_tests;
mod taker;
#[cfg(test)]
mod tests;
mod way;

pub use advice::Advice;
pub use answer::Answer;
pub use event::Event;
pub use frees::Frees;
pub use giver::Giver;
pub use kept::Kept;
pub use memory::Memory;
pub use reason::Reason;
pub use ring_ends::{ring, settle};
pub use taker::Taker;
pub use way::Way;
