//! Keys of conversations: addresses, ends, and the protocol with two ends whichever way a packet goes; and packets.
//! A key and a way give back the source and the target that they were made of, both ways give one key, one hash and
//! one core, and a packet keeps what is true of each packet of a capture.
//! Stands on std alone.
#![tactic(auto)]

mod addr;
mod cores;
mod end;
mod hash;
mod input;
mod key;
pub mod laws;
mod memory;
mod packet;
mod pay_bytes;
mod proto;
pub mod rows;
#[cfg(test)]
mod tests;
mod toward;

pub use addr::Addr;
pub use cores::core_of;
pub use end::End;
pub use hash::toeplitz;
pub use input::Input;
pub use key::Key;
pub use memory::Memory;
pub use packet::Packet;
pub use pay_bytes::PayBytes;
pub use proto::Proto;
pub use toward::Toward;
