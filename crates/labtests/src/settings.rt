use crate::runs::{DRILL_BY, expect_drills_by, expect_settings, expect_words, outcome};
use labcases::{Capture, DELIVERY, Left, ONE, REPORT, Record, World};
use scapconf::{SettingsKind, Status};
use std::test::Fail;

const OF_ONE: Left = Left::Text(DELIVERY);

const DONE: Left = Left::Text(REPORT);

// They say nothing, or what the defaults are.
const DEFAULTS: [(&str, Left, Left); 5] = [
    ("", OF_ONE, DONE),
    ("# nothing\n\n", OF_ONE, DONE),
    (
        "chunk 16384\nidle 300000\nbudget 67108864 33554432 1\n",
        OF_ONE,
        DONE,
    ),
    ("overlap 0\r\nflush 0\r\n", OF_ONE, DONE),
    ("mode fast\npolicy linux\nhole 1\nreorder 0", OF_ONE, DONE),
];

#[test]
fn settings_that_say_nothing_are_the_defaults(rt: HostRuntime) -> Result<(), Fail> {
    expect_drills_by(&rt, rt.alloc(), Capture::Changed(&ONE, &[]), &DEFAULTS)
}

const OF_THREE: [Record; 3] = [
    Record::Datagram(0, (1, 5000), (2, 53), b"abc"),
    Record::Datagram(0, (1, 5000), (2, 53), b"def"),
    Record::Datagram(0, (1, 5000), (2, 53), b"ghi"),
];

// The second datagram fills the chunk, which is never cut.
const CHUNKS: [(&str, Left, Left); 1] = [(
    "chunk 4\n",
    Left::Text(
        "new 1 udp 10.0.0.1 5000 10.0.0.2 53\n\
        data 1 > 0 0 0 0 616263646566\n\
        data 1 > 6 0 0 0 676869\n\
        end 1 finish\n",
    ),
    Left::Part("bytes payload 9 delivered 9 duplicate 0 late 0 cut 0 shed 0\n"),
)];

#[test]
fn a_chunk_has_the_size_that_is_set(rt: HostRuntime) -> Result<(), Fail> {
    expect_drills_by(&rt, rt.alloc(), Capture::Records(1, &OF_THREE), &CHUNKS)
}

const OF_FIVE: [Record; 5] = [Record::Datagram(0, (1, 5000), (2, 53), &[b'a'; 1000]); 5];

// Priority 0 may fill 4,096 + (4,296 - 4,096) / 2 = 4,196 bytes.
const BUDGET: &str = "budget 4296 4096 2\n";

const BUDGETS: [(&str, Left, Left); 2] = [
    (
        BUDGET,
        Left::Part("end 1 finish\n"),
        Left::Part("seg 1 5 0 -1000@4:4000\n"),
    ),
    (
        BUDGET,
        Left::Part("end 1 finish\n"),
        Left::Part("dir 1 > 5000 4000 0 0 0 1000 0 0\n"),
    ),
];

#[test]
fn a_budget_that_is_set_sheds(rt: HostRuntime) -> Result<(), Fail> {
    expect_drills_by(&rt, rt.alloc(), Capture::Records(1, &OF_FIVE), &BUDGETS)
}

const ON_PORTS: [Record; 3] = [
    Record::Datagram(1, (1, 5000), (2, 53), b"ab"),
    Record::Datagram(2, (2, 53), (1, 5000), b"cd"),
    Record::Datagram(3, (1, 5000), (2, 80), b"ef"),
];

// The filter sees each packet by its own way: the second record has port 53 as its source.
const FILTERS: [(&str, Left, Left); 4] = [
    (
        "filter dst port 53\n",
        Left::Part("data 1 > 0 0 0 0 6162\n"),
        Left::Part("records 3 accepted 1 filtered 2 other 0 fragment 0 short 0\n"),
    ),
    (
        "filter port 53\n",
        Left::Part("data 1 < 0 0 0 0 6364\n"),
        Left::Part("records 3 accepted 2 filtered 1 other 0 fragment 0 short 0\n"),
    ),
    (
        "filter tcp\n",
        Left::Text(""),
        Left::Part("records 3 accepted 0 filtered 3 other 0 fragment 0 short 0\n"),
    ),
    (
        "filter udp\n",
        Left::Part("data 3 > 0 0 0 0 6566\n"),
        Left::Part("records 3 accepted 3 filtered 0 other 0 fragment 0 short 0\n"),
    ),
];

#[test]
fn what_the_filter_refuses_is_counted_and_not_delivered(rt: HostRuntime) -> Result<(), Fail> {
    expect_drills_by(&rt, rt.alloc(), Capture::Records(1, &ON_PORTS), &FILTERS)
}

const REFUSED: [(&str, Status); 13] = [
    // Not built yet.
    ("overlap 1\n", Status::Unbuilt),
    ("flush 1\n", Status::Unbuilt),
    ("cutoff default none\n", Status::Unbuilt),
    ("cutoff fore 7\n", Status::Unbuilt),
    ("cutoff back 0\n", Status::Unbuilt),
    ("class 0 - udp\n", Status::Unbuilt),
    ("rule data any keep\n", Status::Unbuilt),
    ("chunk 4\nrule new port 80 discard\n", Status::Unbuilt),
    // A fault comes before what is not built behind it, and before the capture.
    (
        "mode strict\n\nmoed fast\n",
        Status::Settings {
            line: 3,
            kind: SettingsKind::Word,
        },
    ),
    (
        "rule any keep\n",
        Status::Settings {
            line: 1,
            kind: SettingsKind::Rule,
        },
    ),
    (
        "rule new any discard\nchunk 0\n",
        Status::Settings {
            line: 2,
            kind: SettingsKind::Number,
        },
    ),
    (
        "overlap 9\nfilter port x\n",
        Status::Settings {
            line: 2,
            kind: SettingsKind::Filter,
        },
    ),
    (
        "budget 4095 0 1",
        Status::Settings {
            line: 1,
            kind: SettingsKind::Budget,
        },
    ),
];

#[test]
fn settings_are_refused_before_the_capture_is_opened(rt: HostRuntime) -> Result<(), Fail> {
    expect_settings(&rt, rt.alloc(), &REFUSED)
}

#[test]
fn a_text_of_the_most_bytes_is_taken_and_no_longer_one(rt: HostRuntime) -> Result<(), Fail> {
    let mut text = Vec::from_slice(rt.alloc(), b"#")?;
    for _ in 1..65_536 {
        text.push(b'x')?;
    }
    let long = Status::Settings {
        line: 0,
        kind: SettingsKind::Long,
    };
    for status in [Status::Done, long] {
        let files: [(&str, &[u8]); 2] = [("set", &text), ("cap", &ONE)];
        let found = outcome(rt.alloc(), &DRILL_BY, World::of(&files), &[])?;
        assert_eq!(rt; found.0, status);
        text.push(b'\n')?;
    }
    Ok(())
}

const WORDS: [(&[&str], Status); 9] = [
    (&["scaplab", "drill", "--settings"], Status::Usage),
    (&["scaplab", "drill", "--settings", "set"], Status::Usage),
    (
        &["scaplab", "drill", "--settings", "set", "cap"],
        Status::Usage,
    ),
    (
        &["scaplab", "drill", "cap", "--settings", "set", "out"],
        Status::Usage,
    ),
    (
        &[
            "scaplab",
            "drill",
            "--settings",
            "a",
            "--settings",
            "a",
            "cap",
            "out",
        ],
        Status::Usage,
    ),
    (
        &["scaplab", "drill", "--settings", "out.report", "cap", "out"],
        Status::Usage,
    ),
    (
        &["scaplab", "drill", "--settings", "--cores", "cap", "out"],
        Status::Unbuilt,
    ),
    // An option's value may be any word, and there are no such settings.
    (
        &["scaplab", "drill", "--settings", "-x", "cap", "out"],
        Status::ReadFault,
    ),
    (
        &["scaplab", "drill", "--settings", "set", "cap", "out"],
        Status::ReadFault,
    ),
];

#[test]
fn words_with_settings_are_taken_as_they_are_said(rt: HostRuntime) -> Result<(), Fail> {
    expect_words(&rt, rt.alloc(), &WORDS)
}
