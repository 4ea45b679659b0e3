use crate::moment::Moment;
use evring::{Reason, Way};

/// How far an entry has come: none is under way; a direction works at a segment, at a moment that is due, or at the
/// end; what was kept in a direction and isn't handed over goes back; what came back with an answer goes back; events
/// go out.
#[derive(Clone, Copy)]
pub enum Stage {
    Resting,
    Segment {
        way: Way,
        now: u64,
        reset: bool,
    },
    Time {
        at: Moment,
        way: Way,
    },
    End {
        at: Moment,
        reason: Reason,
        way: Way,
    },
    Unshown {
        at: Moment,
        reason: Reason,
        way: Way,
    },
    Answered,
    Events,
}
