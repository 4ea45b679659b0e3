use evring::{Advice, Reason};

/// What an entry is, aside from its looks and releases.
#[derive(Clone, Copy, Debug, PartialEq, Eq)]
pub enum EntryKind {
    Seg { packet: u32, now: u64 },
    Answer { event: u64, advice: Advice },
    Time { at: u64 },
    End { at: u64, reason: Reason },
}
