use crate::Looks;
use evring::{Advice, Frees, Reason};

/// What happened to a conversation. Looks and releases stand in the order in which they were done.
#[derive(Debug, Drop)]
pub enum Entry {
    /// A packet came: its number and its clock, in nanoseconds.
    Seg {
        packet: u32,
        now: u64,
        looks: Looks,
        frees: Frees,
    },
    /// The answer to an event came back: the event's number from 1 on, what was advised, and the releases of the worker
    /// and then of the core.
    Answer {
        event: u64,
        advice: Advice,
        frees: Frees,
    },
    /// Something fell due at a moment, in nanoseconds.
    Time {
        at: u64,
        looks: Looks,
        frees: Frees,
    },
    /// The conversation ended at a moment, in nanoseconds.
    End {
        at: u64,
        reason: Reason,
        looks: Looks,
        frees: Frees,
    },
}
