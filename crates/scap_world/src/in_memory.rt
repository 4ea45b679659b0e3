//! Files in memory, which tell all that they hold and fail where they are told to.
mod bytes;
mod calls;
mod counts;
mod fail_call;
mod plans;
mod shelf;
mod sink;
mod source;
mod table;

pub use fail_call::FailCall;
pub use shelf::MemShelf;
pub use sink::MemSink;
pub use source::MemSource;
