//! Sequence numbers of TCP (RFC 9293, section 3.4): sums modulo 2^32, and positions in a stream.
//! A position is the one number of its class modulo 2^32 that lies within 2^31 of the front; no memory is taken.
//! Stands on streamdefs, which has the definition of a position.
#![tactic(auto)]

pub mod laws;
pub mod rows;
mod seq;
#[cfg(test)]
mod tests;

pub use seq::{Seq, after, place};
