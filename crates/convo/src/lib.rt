//! Conversations: what is set for all of them, and each one: what it asks for, hands over and gives back at each entry.
//! What each call answers, and what a conversation stands for behind it, is what the definition of a conversation says
//! of the entry under way. Stands on flowdir (one direction), evring, chunkpart, cutclass, prio_budget, seqspace,
//! streamkey and the definitions of streamdefs.
#![tactic(auto)]

mod answer;
mod answered_event;
mod calls;
mod convo_set;
mod dir_total;
mod direction;
mod directions;
mod drain;
mod end_entry;
mod flags;
mod going;
mod half;
mod laws;
mod memory;
mod moment;
mod origin;
mod queries;
mod rules;
mod segment_entry;
mod stage;
mod start;
mod talk;
mod time_entry;
mod want;

pub use answered_event::AnsweredEvent;
pub use convo_set::ConvoSet;
pub use dir_total::DirTotal;
pub use drain::{drain_chunk, drain_chunks};
pub use laws::sums_are_those_of_the_history;
pub use memory::Memory;
pub use talk::Convo;
pub use want::Want;
