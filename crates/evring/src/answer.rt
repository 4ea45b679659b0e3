use crate::{Advice, Frees, Kept};
use prio_budget::Charge;

/// What a worker tells its core of an event.
#[derive(Drop)]
pub struct Answer<C: Charge> {
    /// What the handler wants.
    pub advice: Advice,
    /// The releases that the worker did for the event.
    pub frees: Frees,
    /// The chunks that come back, those that rode with the event before its own.
    pub kept: Kept<C>,
    /// The worker is in drain mode.
    pub drained: bool,
}
