//! Captures that are made: segments and datagrams of 64 flows, drawn from a seed, to try and to measure with.
//! The records that a generator puts, one after the other, are those that the definition gives for its seed, and so is the file that is written.
//! Stands on pcapfile (the form of a capture that is written), scap_world (the sink) and byteorder (numbers as bytes).
#![tactic(auto)]

mod draws;
mod flow;
mod generator;
mod headers;
mod limits;
pub mod rows;
#[cfg(test)]
mod tests;
mod writer;

pub use draws::Drawn;
pub use generator::Generator;
pub use limits::{BUFFER_SIZE, LONGEST_MADE, MOST_RECORDS};
pub use pcapfile::Memory;
pub use writer::write_made;
