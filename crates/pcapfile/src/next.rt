use crate::{Frame, FrameFault};

/// What stands next in the stream.
#[derive(Drop)]
pub enum Next {
    /// A record, whole.
    Whole(Frame),
    /// No whole record and no fault: the stream ends here, or more bytes have to come.
    More,
    /// A fault, which stays.
    Fault(FrameFault),
}
