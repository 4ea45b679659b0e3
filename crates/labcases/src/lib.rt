//! Captures and files in memory for the tests of commands, told as data.
//! Promises nothing but that its calls are safe.
//! Stands on pcapfile (captures that are written) and scap_world (files in memory).
#![tactic(auto)]

mod captures;
pub mod places;
mod records;
mod shelves;
mod texts;

pub use captures::{BIG, Capture, ONE, bytes_of, opened};
pub use records::{ACK, COOKED, COOKED_2, ETHERNET, PACKET, Record, STATIONS, SYN, put_records};
pub use shelves::{Left, World, has_left, is_left, shelf_of};
pub use texts::{DELIVERY, REPORT, REPORT_OF_NANOSECONDS};
