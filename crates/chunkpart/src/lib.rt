//! A chunk of one direction of a stream: contiguous bytes, each part of them with the charge that pays for it.
//! The bytes shown are the copy and the fresh bytes, and every part is given back once, in order, with its charge.
//! Stands on prio_budget (parts and charges).
#![tactic(auto)]

mod chunk;
pub mod laws;
mod memory;

pub use chunk::Chunk;
pub use memory::Memory;

#[cfg(test)]
mod tests;
