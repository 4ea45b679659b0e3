//! Texts that are appended to a buffer: words, numbers, hexadecimal digits, addresses; and numbers read from a text.
//! Ok: the buffer holds what it held and then the text; want of memory: it still begins with what it held.
//! Stands on itoa and on the definitions of hex.
#![tactic(auto)]

mod address;
mod digits;
mod memory;
mod number_reader;
mod numbers;
pub mod rows;
#[cfg(test)]
mod tests;

pub use address::{put_dotted, put_groups};
pub use digits::put_hex;
pub use memory::Memory;
pub use number_reader::read_number;
pub use numbers::{put_count, put_number, put_numbers, put_text};
