//! The words of a line: what stands between its spaces and tabs.
//! The first word and what follows it, a word by its place, and how many there are: each is that of the definition.
//! Stands on std alone.
#![tactic(auto)]

pub mod rows;
#[cfg(test)]
mod tests;
mod words;

pub use words::{count_words, next_word, skip_words, word};
