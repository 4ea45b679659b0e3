//! How a stream is put together: which bytes win where segments overlap, whether gaps are waited for, and the sizes and times of it.
//! The winner of an overlap is that of the policy's rule for every pair of starts; no memory is taken.
//! Stands on nothing.
#![tactic(auto)]

mod mode;
mod policy;
pub mod rows;
mod shape;
mod side;
#[cfg(test)]
mod tests;

pub use mode::Mode;
pub use policy::Policy;
pub use shape::Shape;
pub use side::{Side, winner};
