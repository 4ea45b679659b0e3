//! Filters of packets: a small language of addresses, nets, ports and protocols with `and`, `or` and `not`.
//! What is parsed is in the grammar with that tree, all else is refused with its first fault, and `matches` is the truth.
//! Stands on streamkey (keys of packets) and textout (texts and numbers).
#![tactic(auto)]

mod address;
mod end_test;
mod filter;
mod filter_error;
pub mod laws;
mod limits;
mod node;
mod parser;
mod parts;
mod prim;
mod printer;
pub mod rows;
#[cfg(test)]
mod tests;
mod text;
mod token;
mod token_reader;
mod word;

pub use filter::Filter;
pub use filter_error::{FilterError, FilterFault, FilterKind};
pub use limits::{MOST_LEVELS, MOST_TOKENS};
pub use textout::Memory;
