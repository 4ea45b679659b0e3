//! What a handler is shown of streams and what it advises; the line of an event in a delivery file; and rules, whose first that
//! fits an event decides.
//! A handler's advice is a stated function of what it is shown and of its own value, a line is the definition's, and exactly
//! the lines of the grammar are rules.
//! Stands on streamdefs (the definitions), evring, chunkpart and streamkey (events), linewords, textout and hex (texts).
#![tactic(auto)]

mod chunk_view;
mod condition;
mod front;
mod handler;
#[cfg(test)]
mod handler_tests;
pub mod laws;
mod line;
#[cfg(test)]
mod line_tests;
mod part;
pub mod rows;
mod rule;
mod rule_error;
mod rule_handler;
mod rule_list;
mod rule_reader;
#[cfg(test)]
mod rule_tests;
mod value;

pub use chunk_view::ChunkView;
pub use condition::{Condition, DataTest, NewTest};
pub use front::Front;
pub use handler::Handler;
pub use line::{put_chunk, put_created, put_ended};
pub use part::Part;
pub use rule::Rule;
pub use rule_error::RuleError;
pub use rule_handler::RuleHandler;
pub use rule_list::RuleList;
pub use textout::Memory;
