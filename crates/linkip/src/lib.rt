//! The headers of a link and of the internet protocol: what a captured frame carries, or which kind of skip it is.
//! `network` answers what the definition in specs/ gives for every link and every frame; it lends the body from the frame, copies nothing of it and takes no memory.
//! Stands on pcapfile (the links), streamkey (addresses) and byteorder.
#![tactic(auto)]

mod fields;
mod frames;
mod ipv4;
mod ipv6;
pub mod laws;
mod net;
pub mod rows;
#[cfg(test)]
mod tests;

pub use frames::network;
pub use net::Net;
