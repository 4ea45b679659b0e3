use evring::Answer;
use prio_budget::Charge;

/// What a worker wants done next.
#[derive(Drop)]
pub enum WorkTurn<C: Charge> {
    /// A charge is to be released.
    Free(C),
    /// An event is done: this goes to its core.
    Answer { core: u16, answer: Answer<C> },
    /// Nothing is in hand.
    Ready,
}
