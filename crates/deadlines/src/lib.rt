//! Moments at which something is due, each under an id.
//! An id has one moment at most, the last that was set, and the first due is the least moment up to now, of equal ones
//! that of the least id.
//! Stands on std alone.
#![tactic(auto)]

mod due;
mod memory;
#[cfg(test)]
mod tests;

pub use due::Due;
pub use memory::Memory;
