// What stories are written in.
use cutclass::Cut;
use evring::{Reason, Way};
use flowdir::Counts;
use overpolicy::Mode;

pub(crate) const SECOND: u64 = 1_000_000_000;

/// So many bytes of a text that is written over and over.
pub(crate) type Bytes<'a> = (&'a str, usize);

pub(crate) const NOTHING: Bytes<'static> = ("", 0);

/// What comes to a conversation, or what is asked of it.
#[derive(Clone, Copy)]
pub(crate) enum Entry<'a> {
    /// A packet of the first packet's sender, and one of the other end: its clock, sequence number, flags (S: SYN, F:
    /// FIN, R: RST) and payload.
    Fore(u64, u32, &'a str, Bytes<'a>),
    Back(u64, u32, &'a str, Bytes<'a>),
    /// The next event is answered by this advice, and a worker gives these charges back: bytes and stamp of each.
    Answer(Said, &'a [(u32, u32)]),
    Time(u64),
    End(u64, Reason),
    /// When it falls due, and whether for its End of `idle`.
    Due(u64, bool),
    /// The End that is due.
    Ends(Reason, u64),
    /// Whether it has ended.
    Ended(bool),
    /// Whether a packet with SYN of its first sender, of this sequence number, begins another conversation.
    Replaced(u32, bool),
    /// What became of the bytes of a direction so far, and its gaps and their bytes.
    Totals(Way, Counts, u64, u64),
}

pub(crate) const NO_BYTES: Counts = Counts {
    duplicate: 0,
    late: 0,
    cut: 0,
    taken: 0,
    shed: 0,
};

/// Advice on an event.
#[derive(Clone, Copy)]
pub(crate) enum Said {
    Nothing,
    Keep,
    CutAt(u64),
    Discard,
}

/// What a conversation then wants.
#[derive(Clone, Copy)]
pub(crate) enum Line<'a> {
    /// A grant: the bytes, and the stamp and the used number that it found. A refusal.
    Granted(u32, u32, u32),
    Refused(u32, u32, u32),
    /// Bytes that are given back at a stamp.
    Freed(u32, u32),
    New,
    /// Start, gap, the kept bytes that are shown again, and bytes.
    ForeData(u64, u64, Bytes<'a>, Bytes<'a>),
    BackData(u64, u64, Bytes<'a>, Bytes<'a>),
    Over(Reason),
}

/// An entry with what it wants.
pub(crate) type Turn<'a> = (Entry<'a>, &'a [Line<'a>]);

/// Settings of a story: the mode, the fewest bytes of a chunk, the cutoff of all streams, the idle time, and the
/// budget.
#[derive(Clone, Copy)]
pub(crate) struct Terms {
    pub(crate) mode: Mode,
    pub(crate) udp: bool,
    pub(crate) chunk: u32,
    pub(crate) cutoff: Cut,
    pub(crate) idle: u64,
    pub(crate) limit: u32,
    pub(crate) base: u32,
    pub(crate) priorities: u8,
}

pub(crate) const PLAIN: Terms = Terms {
    mode: Mode::Strict,
    udp: false,
    chunk: 16384,
    cutoff: Cut::Unset,
    idle: 300_000_000_000,
    limit: 1_000_000,
    base: 1_000_000,
    priorities: 1,
};
