// Worked stories of one conversation.
use crate::lines::{Entry, Line, NO_BYTES, NOTHING, PLAIN, SECOND, Said, Terms, Turn};
use crate::player::play;
use cutclass::Cut;
use evring::{Reason, Way};
use flowdir::Counts;
use overpolicy::Mode;
use std::alloc::Global;
use std::test::Fail;

/// A story: its settings, what it is, and the bytes that are in use behind it, once what the conversation still has was
/// drained.
type Story<'a> = (&'a str, Terms, &'a [Turn<'a>], u32);

const CUT_AT_TEN: Terms = Terms {
    cutoff: Cut::At(10),
    ..PLAIN
};

const CUT_AT_ONCE: Terms = Terms {
    cutoff: Cut::At(0),
    ..PLAIN
};

const SMALL_CHUNKS: Terms = Terms {
    udp: true,
    chunk: 4,
    ..PLAIN
};

const STRICT_CHUNKS: Terms = Terms { chunk: 4, ..PLAIN };

const FAST: Terms = Terms {
    mode: Mode::Fast,
    ..PLAIN
};

const QUICK: Terms = Terms {
    idle: SECOND,
    ..PLAIN
};

const FIRST_OF_THREE: Terms = Terms {
    udp: true,
    limit: 10_000,
    base: 4_000,
    priorities: 3,
    ..PLAIN
};

const DATAGRAMS: Terms = Terms { udp: true, ..PLAIN };

/// Nobody advises anything, and nothing is given back.
const SEEN: Turn<'static> = (Entry::Answer(Said::Nothing, &[]), &[]);

const AN_ORDINARY_CONNECTION: &[Turn<'static>] = &[
    (
        Entry::Fore(100_001_000_000, 1000, "S", NOTHING),
        &[Line::New],
    ),
    SEEN,
    (Entry::Back(100_002_000_000, 5000, "S", NOTHING), &[]),
    (Entry::Fore(100_003_000_000, 1001, "", NOTHING), &[]),
    (
        Entry::Fore(100_004_000_000, 1001, "", ("a", 78)),
        &[Line::Granted(78, 0, 0)],
    ),
    (
        Entry::Back(100_005_000_000, 5001, "", ("b", 1460)),
        &[Line::Granted(1460, 1, 78)],
    ),
    (
        Entry::Back(100_006_000_000, 6461, "", ("b", 300)),
        &[Line::Granted(300, 2, 1538)],
    ),
    (Entry::Back(100_007_000_000, 6761, "F", NOTHING), &[]),
    (Entry::Fore(100_008_000_000, 1079, "F", NOTHING), &[]),
    (Entry::Ends(Reason::Closed, 100_008_000_000), &[]),
    (
        Entry::End(100_008_000_000, Reason::Closed),
        &[
            Line::ForeData(0, 0, NOTHING, ("a", 78)),
            Line::BackData(0, 0, NOTHING, ("b", 1760)),
            Line::Over(Reason::Closed),
        ],
    ),
    (Entry::Answer(Said::Nothing, &[(78, 3)]), &[]),
    (Entry::Answer(Said::Nothing, &[(1460, 4), (300, 5)]), &[]),
    SEEN,
    (Entry::Back(100_009_000_000, 6762, "", NOTHING), &[]),
    (
        Entry::Totals(
            Way::Fore,
            Counts {
                taken: 78,
                ..NO_BYTES
            },
            0,
            0,
        ),
        &[],
    ),
    (
        Entry::Totals(
            Way::Back,
            Counts {
                taken: 1760,
                ..NO_BYTES
            },
            0,
            0,
        ),
        &[],
    ),
];

const BYTES_COME_TWICE: &[Turn<'static>] = &[
    (Entry::Fore(0, 999, "S", NOTHING), &[Line::New]),
    SEEN,
    (
        Entry::Fore(1, 1000, "", ("a", 8)),
        &[Line::Granted(8, 0, 0)],
    ),
    (Entry::Fore(2, 1002, "", ("a", 4)), &[]),
    (
        Entry::Totals(
            Way::Fore,
            Counts {
                duplicate: 4,
                taken: 8,
                ..NO_BYTES
            },
            0,
            0,
        ),
        &[],
    ),
    (Entry::Totals(Way::Back, NO_BYTES, 0, 0), &[]),
];

const BYTES_ARE_CUT: &[Turn<'static>] = &[
    (Entry::Fore(0, 999, "S", NOTHING), &[Line::New]),
    SEEN,
    (
        Entry::Fore(1, 1000, "", ("a", 8)),
        &[Line::Granted(8, 0, 0)],
    ),
    (
        Entry::Fore(2, 1008, "", ("a", 6)),
        &[Line::Granted(2, 1, 8)],
    ),
    (
        Entry::Totals(
            Way::Fore,
            Counts {
                cut: 4,
                taken: 10,
                ..NO_BYTES
            },
            0,
            0,
        ),
        &[],
    ),
    (
        Entry::End(2, Reason::Finish),
        &[
            Line::ForeData(0, 0, NOTHING, ("a", 10)),
            Line::Over(Reason::Finish),
        ],
    ),
    (Entry::Answer(Said::Nothing, &[(8, 2), (2, 3)]), &[]),
    SEEN,
];

const ALL_BYTES_ARE_CUT: &[Turn<'static>] = &[
    (Entry::Fore(0, 999, "S", NOTHING), &[Line::New]),
    SEEN,
    (Entry::Fore(1, 1000, "", ("a", 8)), &[]),
    (Entry::End(1, Reason::Finish), &[Line::Over(Reason::Finish)]),
    SEEN,
];

const A_CHUNK_IS_KEPT: &[Turn<'static>] = &[
    (
        Entry::Fore(0, 0, "", ("abcd", 4)),
        &[
            Line::Granted(4, 0, 0),
            Line::New,
            Line::ForeData(0, 0, NOTHING, ("abcd", 4)),
        ],
    ),
    SEEN,
    (Entry::Answer(Said::Keep, &[]), &[]),
    (
        Entry::Fore(1, 0, "", ("efgh", 4)),
        &[
            Line::Granted(4, 1, 4),
            Line::ForeData(4, 0, ("abcd", 4), ("efgh", 4)),
        ],
    ),
    (Entry::Answer(Said::Nothing, &[(4, 2), (4, 3)]), &[]),
    (Entry::End(1, Reason::Finish), &[Line::Over(Reason::Finish)]),
    SEEN,
];

const A_CHUNK_COMES_BACK_AFTER_THE_END: &[Turn<'static>] = &[
    (
        Entry::Fore(0, 0, "", ("abcd", 4)),
        &[
            Line::Granted(4, 0, 0),
            Line::New,
            Line::ForeData(0, 0, NOTHING, ("abcd", 4)),
        ],
    ),
    SEEN,
    (Entry::End(0, Reason::Finish), &[Line::Over(Reason::Finish)]),
    (Entry::Answer(Said::Keep, &[]), &[Line::Freed(4, 1)]),
    SEEN,
];

const A_KEPT_CHUNK_IS_NOT_SHOWN_AGAIN: &[Turn<'static>] = &[
    (
        Entry::Fore(0, 0, "", ("abcd", 4)),
        &[
            Line::Granted(4, 0, 0),
            Line::New,
            Line::ForeData(0, 0, NOTHING, ("abcd", 4)),
        ],
    ),
    SEEN,
    (Entry::Answer(Said::Keep, &[]), &[]),
    (
        Entry::End(0, Reason::Finish),
        &[Line::Freed(4, 1), Line::Over(Reason::Finish)],
    ),
    SEEN,
];

const A_RESET: &[Turn<'static>] = &[
    (Entry::Fore(0, 1000, "S", NOTHING), &[Line::New]),
    SEEN,
    (
        Entry::Fore(1, 1001, "", ("a", 10)),
        &[Line::Granted(10, 0, 0)],
    ),
    (Entry::Back(2, 0, "R", NOTHING), &[]),
    (Entry::Ends(Reason::Reset, 2), &[]),
    (Entry::Ended(false), &[]),
    (
        Entry::End(2, Reason::Reset),
        &[
            Line::ForeData(0, 0, NOTHING, ("a", 10)),
            Line::Over(Reason::Reset),
        ],
    ),
    (Entry::Ended(true), &[]),
    (Entry::Fore(3, 1011, "", ("a", 5)), &[]),
    (Entry::Replaced(9000, true), &[]),
    (Entry::Replaced(1000, false), &[]),
    (Entry::Answer(Said::Nothing, &[(10, 1)]), &[]),
    SEEN,
];

const A_HOLE_FALLS_DUE: &[Turn<'static>] = &[
    (Entry::Fore(0, 99, "S", NOTHING), &[Line::New]),
    SEEN,
    (
        Entry::Fore(SECOND, 105, "", ("b", 5)),
        &[Line::Granted(5, 0, 0)],
    ),
    (Entry::Due(2_000_000_000, false), &[]),
    (Entry::Time(2_000_000_000), &[]),
    (Entry::Due(301_000_000_000, true), &[]),
    (Entry::Fore(3_000_000_000, 100, "", ("a", 5)), &[]),
    (
        Entry::Totals(
            Way::Fore,
            Counts {
                late: 5,
                taken: 5,
                ..NO_BYTES
            },
            0,
            0,
        ),
        &[],
    ),
    (
        Entry::End(3_000_000_000, Reason::Finish),
        &[
            Line::ForeData(5, 5, NOTHING, ("b", 5)),
            Line::Over(Reason::Finish),
        ],
    ),
    (
        Entry::Totals(
            Way::Fore,
            Counts {
                late: 5,
                taken: 5,
                ..NO_BYTES
            },
            1,
            5,
        ),
        &[],
    ),
    (Entry::Answer(Said::Nothing, &[(5, 1)]), &[]),
    SEEN,
];

const A_TIME_COMES_BEFORE_IDLE: &[Turn<'static>] = &[
    (Entry::Fore(0, 99, "S", NOTHING), &[Line::New]),
    SEEN,
    (Entry::Due(SECOND, true), &[]),
    (
        Entry::Fore(SECOND, 105, "", ("b", 5)),
        &[Line::Granted(5, 0, 0)],
    ),
    (Entry::Due(2_000_000_000, false), &[]),
    (Entry::Time(2_000_000_000), &[]),
    (Entry::Due(2_000_000_000, true), &[]),
    (
        Entry::End(2_000_000_000, Reason::Idle),
        &[
            Line::ForeData(5, 5, NOTHING, ("b", 5)),
            Line::Over(Reason::Idle),
        ],
    ),
    (Entry::Answer(Said::Nothing, &[(5, 1)]), &[]),
    SEEN,
];

const A_MARK_IS_PASSED: &[Turn<'static>] = &[
    (
        Entry::Fore(0, 0, "", ("a", 1000)),
        &[Line::Granted(1000, 0, 0), Line::New],
    ),
    SEEN,
    (
        Entry::Fore(1, 0, "", ("a", 1000)),
        &[Line::Granted(1000, 1, 1000)],
    ),
    (
        Entry::Fore(2, 0, "", ("a", 1000)),
        &[Line::Granted(1000, 2, 2000)],
    ),
    (
        Entry::Fore(3, 0, "", ("a", 1000)),
        &[Line::Granted(1000, 3, 3000)],
    ),
    (
        Entry::Fore(4, 0, "", ("a", 1000)),
        &[Line::Granted(1000, 4, 4000)],
    ),
    (
        Entry::Fore(5, 0, "", ("a", 1000)),
        &[Line::Granted(1000, 5, 5000)],
    ),
    (
        Entry::Fore(6, 0, "", ("a", 1000)),
        &[Line::Refused(1000, 6, 6000)],
    ),
    (
        Entry::End(6, Reason::Finish),
        &[
            Line::ForeData(0, 0, NOTHING, ("a", 6000)),
            Line::Over(Reason::Finish),
        ],
    ),
    (
        Entry::Totals(
            Way::Fore,
            Counts {
                taken: 6000,
                shed: 1000,
                ..NO_BYTES
            },
            0,
            0,
        ),
        &[],
    ),
];

const ANOTHER_BEGINS: &[Turn<'static>] = &[
    (Entry::Fore(0, 1000, "S", NOTHING), &[Line::New]),
    SEEN,
    (Entry::Replaced(5000, true), &[]),
    (
        Entry::End(0, Reason::Replaced),
        &[Line::Over(Reason::Replaced)],
    ),
    SEEN,
];

const A_HANDLER_CUTS: &[Turn<'static>] = &[
    (
        Entry::Fore(0, 1000, "", ("GET /", 5)),
        &[
            Line::Granted(5, 0, 0),
            Line::New,
            Line::ForeData(0, 0, NOTHING, ("GET /", 5)),
        ],
    ),
    SEEN,
    (Entry::Answer(Said::CutAt(6), &[(5, 1)]), &[]),
    (
        Entry::Fore(1, 1005, "", ("abcd", 4)),
        &[Line::Granted(1, 2, 0)],
    ),
    (
        Entry::End(1, Reason::Finish),
        &[
            Line::ForeData(5, 0, NOTHING, ("a", 1)),
            Line::Over(Reason::Finish),
        ],
    ),
    (Entry::Answer(Said::Nothing, &[(1, 3)]), &[]),
    SEEN,
];

const IT_IS_IDLE: &[Turn<'static>] = &[
    (
        Entry::Fore(0, 0, "", ("a", 1)),
        &[Line::Granted(1, 0, 0), Line::New],
    ),
    SEEN,
    (Entry::Due(300_000_000_000, true), &[]),
    (
        Entry::End(300_000_000_000, Reason::Idle),
        &[
            Line::ForeData(0, 0, NOTHING, ("a", 1)),
            Line::Over(Reason::Idle),
        ],
    ),
    (Entry::Answer(Said::Nothing, &[(1, 1)]), &[]),
    SEEN,
];

const STORIES: &[Story<'static>] = &[
    ("an ordinary connection", PLAIN, AN_ORDINARY_CONNECTION, 0),
    ("bytes come twice", PLAIN, BYTES_COME_TWICE, 0),
    ("bytes are cut", CUT_AT_TEN, BYTES_ARE_CUT, 0),
    ("all bytes are cut", CUT_AT_ONCE, ALL_BYTES_ARE_CUT, 0),
    ("a chunk is kept", SMALL_CHUNKS, A_CHUNK_IS_KEPT, 0),
    (
        "a chunk comes back after the end",
        SMALL_CHUNKS,
        A_CHUNK_COMES_BACK_AFTER_THE_END,
        0,
    ),
    (
        "a kept chunk is not shown again",
        SMALL_CHUNKS,
        A_KEPT_CHUNK_IS_NOT_SHOWN_AGAIN,
        0,
    ),
    ("a reset", PLAIN, A_RESET, 0),
    ("a hole falls due", PLAIN, A_HOLE_FALLS_DUE, 0),
    (
        "a time comes before idle",
        QUICK,
        A_TIME_COMES_BEFORE_IDLE,
        0,
    ),
    ("a mark is passed", FIRST_OF_THREE, A_MARK_IS_PASSED, 6000),
    ("another begins", FAST, ANOTHER_BEGINS, 0),
    ("a handler cuts", STRICT_CHUNKS, A_HANDLER_CUTS, 0),
    ("it is idle", DATAGRAMS, IT_IS_IDLE, 0),
];

/// The bytes in use behind a story; what fails says which story it is.
fn told(alloc: Global, story: &Story<'_>) -> Result<u32, Fail> {
    let (_, terms, turns, _) = story;
    play(alloc, terms, turns)
}

#[test]
fn stories_go_as_they_are_written(rt: HostRuntime) -> Result<(), Fail> {
    for story in STORIES {
        let used = told(rt.alloc(), story)?;
        assert_eq!(rt; (story.0, used), (story.0, story.3));
    }
    Ok(())
}
