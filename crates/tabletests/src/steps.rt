// What stories are written in.
use streamkey::Proto;

pub(crate) const SECOND: u64 = 1_000_000_000;

/// So many bytes of a text that is written over and over.
pub(crate) type Bytes<'a> = (&'a str, usize);

pub(crate) const NOTHING: Bytes<'static> = ("", 0);

/// A key: the protocol, the port of 10.0.0.1 and the port of 10.0.0.2.
pub(crate) type Ends = (Proto, u16, u16);

pub(crate) const WEB: Ends = (Proto::Tcp, 40_000, 80);

pub(crate) const NAMES: Ends = (Proto::Udp, 5_000, 53);

pub(crate) const DATA: Ends = (Proto::Udp, 40_000, 80);

pub(crate) const MORE: Ends = (Proto::Udp, 40_000, 53);

/// What a core's machine does.
#[derive(Clone, Copy)]
pub(crate) enum Step<'a> {
    /// A packet from 10.0.0.1 to 10.0.0.2 is loaded, or one the other way: its clock, sequence number, flags (S: SYN, F: FIN,
    /// R: RST) and payload. The machine goes on until nothing moves.
    Up(Ends, u64, u32, &'a str, Bytes<'a>),
    Down(Ends, u64, u32, &'a str, Bytes<'a>),
    /// The end of the capture is loaded, at this clock.
    Finish(u64),
    /// So many events are answered, where they aren't answered at once.
    Answers(u32),
    /// So many datagrams without payload come, each of a key of its own.
    Flood(u16),
    /// Of the turns between these only the number of events is written that are unanswered at their end.
    Quiet,
    Loud,
    /// The next ask or release goes another way.
    Next(How),
    GivesUp,
}

/// How an ask is answered, or a release.
#[derive(Clone, Copy, PartialEq, Eq)]
pub(crate) enum How {
    Plainly,
    /// The budget was found to have moved, once.
    Moved,
    /// The table gives up in place of the answer.
    AskIsVoid,
    /// The table gives up before it hears of its release.
    GivesUpBefore,
}

/// What is advised on an event.
#[derive(Clone, Copy)]
pub(crate) enum Said {
    Keep,
    Discard,
    CutAt(u64),
    Priority(u8),
}

/// A story: its name, the text of its settings, the budget's first stamp, whether events are answered at once, what is advised on
/// which of them, what the machine does, the lines of its turns, and the book's text where one is told.
#[derive(Clone, Copy)]
pub(crate) struct Story<'a> {
    pub(crate) name: &'a str,
    pub(crate) settings: &'a str,
    pub(crate) first_stamp: u32,
    pub(crate) at_once: bool,
    pub(crate) says: &'a [(u64, Said)],
    pub(crate) steps: &'a [Step<'a>],
    pub(crate) turns: &'a str,
    pub(crate) book: Option<&'a str>,
}

pub(crate) const PLAIN: Story<'static> = Story {
    name: "",
    settings: "",
    first_stamp: 0,
    at_once: true,
    says: &[],
    steps: &[],
    turns: "",
    book: None,
};
