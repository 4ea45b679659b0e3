/// Which of two segments' bytes stand where both bring the same position: those of the first one, of the last one, or those
/// that the named system would take.
#[derive(Clone, Copy, Debug, PartialEq, Eq)]
pub enum Policy {
    First,
    Last,
    Bsd,
    Linux,
}
