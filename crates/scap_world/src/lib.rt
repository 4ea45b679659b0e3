//! The outside as the layers above see it: sources of bytes, sinks for bytes, and a shelf of named files.
//! Each fault that is answered was counted where it happened, and no call touches another file.
//! Stands on std alone: files in memory tell all that they hold, real files are the trusted edge and tell nothing.
#![tactic(auto)]

mod fault;
mod in_memory;
mod on_disk;
mod shelf;
mod sink;
mod source;
mod whole;

pub use fault::{Failed, Memory, WorldFault};
pub use in_memory::{FailCall, MemShelf, MemSink, MemSource};
pub use on_disk::{FileShelf, FileSink, FileSource};
pub use shelf::Shelf;
pub use sink::Sink;
pub use source::Source;
pub use whole::write_whole;
