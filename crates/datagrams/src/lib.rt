//! Datagrams on one core: what is reserved, kept, handed over and released, what is counted, and what is told to a handler.
//! Each call does what the definition of a stream does at an entry; entries, answers and ends make a lawful journal.
//! Stands on chunkpart, prio_budget, evring, histbook, streamkey and the definitions of streamdefs.
#![tactic(auto)]

mod asked;
mod closing;
mod conversation;
mod conversations;
mod counting;
mod course;
mod datagram;
mod end_half;
mod enter_half;
mod entered;
mod event;
mod half_stream;
mod holding;
pub mod laws;
mod lines;
mod made;
mod release;
mod replay;
mod running_sums;
mod served;
mod untold;
mod whole;
mod whole_replay;

pub use conversation::Conversation;
pub use conversations::Conversations;
pub use datagram::Datagram;
pub use entered::Entered;
pub use event::Event;
pub use half_stream::HalfStream;
pub use made::Made;
pub use release::release_chunk;
pub use replay::Replay;
pub use running_sums::RunningSums;
pub use served::Served;
pub use textout::Memory;
pub use untold::Untold;
pub use whole::replay_all;
pub use whole_replay::WholeReplay;

#[cfg(test)]
mod half_stream_tests;
#[cfg(test)]
mod replay_tests;
#[cfg(test)]
mod served_tests;
#[cfg(test)]
mod table_tests;
