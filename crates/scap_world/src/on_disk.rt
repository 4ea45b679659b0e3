//! Real files: a thin adapter that tells nothing and counts what fails. The system behind it is trusted.
mod shelf;
mod sink;
mod source;

pub use shelf::FileShelf;
pub use sink::FileSink;
pub use source::FileSource;
