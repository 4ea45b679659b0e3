//! The headers of TCP and UDP: the key, the way and the payload of what a frame carries, or why it is skipped.
//! `transport` answers what the definition in specs/ gives for every packet; it lends the payload from the frame, copies nothing of it and takes no memory.
//! Stands on linkip (what a frame carries), streamkey (keys), byteorder, and in its definitions on pcapfile (the links).
#![tactic(auto)]

mod bodies;
mod ends;
pub mod laws;
pub mod rows;
mod seen;
mod skip;
mod tcp;
#[cfg(test)]
mod tests;
mod udp;

pub use bodies::transport;
pub use seen::Seen;
pub use skip::Skip;
