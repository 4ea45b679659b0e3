use convo::AnsweredEvent;

/// An event that is unanswered: the place of its conversation, and which event it is.
#[derive(Clone, Copy, Debug, PartialEq, Eq)]
pub struct Unanswered {
    pub place: usize,
    pub of: AnsweredEvent,
}
