//! Cutoffs: after how many bytes a stream is no longer kept, by default, by direction, by class and for one stream.
//! In force is the first that is set. Classes are kept in the order in which they were added, at most 32, what is
//! refused is handed back, and a packet's class is the first whose filter holds.
//! Stands on capfilter (the filters of classes) and streamkey.
#![tactic(auto)]

mod class_error;
mod class_rule;
mod classes;
mod cut;
mod cutoffs;
mod memory;
pub mod rows;
#[cfg(test)]
mod tests;

pub use class_error::ClassError;
pub use class_rule::ClassRule;
pub use classes::{Classes, MOST_CLASSES};
pub use cut::{Cut, in_force};
pub use cutoffs::Cutoffs;
pub use memory::Memory;
