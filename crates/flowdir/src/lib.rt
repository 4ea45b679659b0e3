//! One direction of a conversation: where its bytes stand, what is asked for, held, passed, handed over and given back.
//! Each call does what the definition of a direction does at an entry, one want at a time.
//! Stands on reorder, chunkpart, prio_budget, seqspace and the definitions of streamdefs.
#![tactic(auto)]

mod advance;
mod aim;
mod counts;
mod cuts;
mod cutting;
mod dir;
mod dir_answers;
mod dir_cuts;
mod dir_mode;
mod dir_segments;
mod dir_times;
#[cfg(test)]
mod drawn_tests;
mod head;
mod heading;
mod losses;
mod passed;
mod passing;
#[cfg(test)]
mod pool;
mod rule;
mod running;
mod seg;
#[cfg(test)]
mod serving;
#[cfg(test)]
mod slow;
mod sorting;
mod span;
mod step;
#[cfg(test)]
mod tests;
mod under;
mod waiting;
mod work;

pub use chunkpart::Memory;
pub use counts::Counts;
pub use dir::Dir;
pub use dir_mode::DirMode;
pub use seg::Seg;
pub use step::Step;
