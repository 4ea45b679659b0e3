use evring::Way;

/// Which event an answer is to.
#[derive(Clone, Copy, Debug, PartialEq, Eq)]
pub enum AnsweredEvent {
    New,
    Chunk(Way),
    Ended,
}
