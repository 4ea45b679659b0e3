use crate::runs::{
    Command, Fault, Rest, expect_faults, expect_matches, expect_refused, expect_words, outcome,
};
use labcases::places::LINK;
use labcases::{ACK, Capture, Left, ONE, Record, World, bytes_of};
use pcapfile::HeadFault;
use scap_world::FailCall;
use scapconf::{SettingsKind, Status};
use std::test::Fail;

// A segment between 10.0.0.1 port 40000 and 10.0.0.2 port 80, from the first and from the second.
const FROM_FIRST: Record = Record::Segment(100, (1, 40_000), (2, 80), ACK, b"ab");

const FROM_SECOND: Record = Record::Segment(100, (2, 80), (1, 40_000), ACK, b"ab");

// The second, the fifth, the sixth, the seventh and the ninth come from port 80.
const EXCHANGE: [Record; 9] = [
    FROM_FIRST,
    FROM_SECOND,
    FROM_FIRST,
    FROM_FIRST,
    FROM_SECOND,
    FROM_SECOND,
    FROM_SECOND,
    FROM_FIRST,
    FROM_SECOND,
];

const FILTERS: [(&str, &str); 4] = [
    ("src port 80", "2\n5\n6\n7\n9\n"),
    ("dst port 80", "1\n3\n4\n8\n"),
    ("host 10.0.0.1 and tcp", "1\n2\n3\n4\n5\n6\n7\n8\n9\n"),
    ("udp", ""),
];

#[test]
fn the_numbers_of_matching_records_are_written(rt: HostRuntime) -> Result<(), Fail> {
    let capture = bytes_of(rt.alloc(), &Capture::Records(1, &EXCHANGE))?;
    for piece in [1, 16, 65_536] {
        expect_matches(&rt, rt.alloc(), piece, &capture, &FILTERS)?;
    }
    Ok(())
}

const AMONG_OTHERS: [Record; 4] = [
    Record::Frame((1, 0), b"x", &[]),
    Record::Datagram(2, (1, 5000), (2, 53), b"ab"),
    Record::Segment(100, (2, 80), (1, 40_000), ACK, b"cd"),
    Record::Datagram(3, (2, 53), (1, 5000), b""),
];

#[test]
fn skipped_records_have_numbers(rt: HostRuntime) -> Result<(), Fail> {
    let capture = bytes_of(rt.alloc(), &Capture::Records(1, &AMONG_OTHERS))?;
    expect_matches(&rt, rt.alloc(), 0, &capture, &[("port 53", "2\n4\n")])
}

#[test]
fn a_text_that_is_no_filter_opens_nothing(rt: HostRuntime) -> Result<(), Fail> {
    let status = Status::Settings {
        line: 0,
        kind: SettingsKind::Filter,
    };
    for filter in ["port x", "port", "tcp udp", "  ", "tcp and"] {
        let world = World {
            files: &[],
            piece: 0,
            faults: &[("cap", FailCall::Open, 1)],
        };
        let words = ["scaplab", "match", filter, "cap", "out"];
        let found = outcome(rt.alloc(), &words, world, &[("out.match", Left::Absent)])?;
        assert_eq!(rt; found, (status, 0, true), "of {filter}");
    }
    Ok(())
}

// The capture of one record, and 26 bytes of one more of 44.
const CUT: [&[u8]; 2] = [
    &ONE,
    &[
        1, 0, 0, 0, 5, 0, 0, 0, 0x2c, 0, 0, 0, 0x2c, 0, 0, 0, 2, 0, 0, 0, 0, 2, 2, 0, 0, 0,
    ],
];

// The capture of one record, the head of one of 262,145 bytes, and of its bytes 60.
const LONG: [&[u8]; 3] = [
    &ONE,
    &[0, 0, 0, 0, 0, 0, 0, 0, 1, 0, 4, 0, 1, 0, 4, 0],
    &[0; 60],
];

// A fault of writing comes before what ended the capture.
const OF_CREATE: [Fault; 1] = [(
    "out.match",
    FailCall::Create,
    1,
    Status::WriteFault,
    &[Rest::Absent],
)];

#[test]
fn a_capture_that_ends_badly_has_its_matches(rt: HostRuntime) -> Result<(), Fail> {
    let cases: [(&[&[u8]], Status); 2] = [
        (&CUT, Status::CutShort { bytes: 26 }),
        (
            &LONG,
            Status::BadRecord {
                at: 84,
                len: 262_145,
            },
        ),
    ];
    for (parts, status) in cases {
        let capture = bytes_of(rt.alloc(), &Capture::Joined(parts))?;
        let command = Command {
            words: &["scaplab", "match", "udp", "cap", "out"],
            files: &[("cap", &capture)],
            piece: 65_536,
            status,
            outputs: &[("out.match", b"1\n")],
        };
        expect_faults(&rt, rt.alloc(), &command, &OF_CREATE)?;
    }
    Ok(())
}

// One byte less than a head has.
const SHORT: [u8; 23] = [
    0xd4, 0xc3, 0xb2, 0xa1, 2, 0, 4, 0, 0, 0, 0, 0, 0, 0, 0, 0, 0, 0, 4, 0, 1, 0, 0,
];

const NO_CAPTURES: [(Capture, Status); 2] = [
    (
        Capture::Joined(&[&SHORT]),
        Status::NotPcap {
            kind: HeadFault::Short,
        },
    ),
    (
        Capture::Changed(&ONE, &[(LINK, 9)]),
        Status::NotPcap {
            kind: HeadFault::Link,
        },
    ),
];

#[test]
fn no_capture_creates_no_file_of_matches(rt: HostRuntime) -> Result<(), Fail> {
    let words = ["scaplab", "match", "udp", "cap", "out"];
    expect_refused(&rt, rt.alloc(), &words, &NO_CAPTURES)
}

const WORDS: [(&[&str], Status); 10] = [
    (&["scaplab", "match"], Status::Usage),
    (&["scaplab", "match", "udp"], Status::Usage),
    (&["scaplab", "match", "udp", "cap"], Status::Usage),
    (
        &["scaplab", "match", "udp", "cap", "out", "more"],
        Status::Usage,
    ),
    (&["scaplab", "match", "", "cap", "out"], Status::Usage),
    (&["scaplab", "match", "-udp", "cap", "out"], Status::Usage),
    (&["scaplab", "match", "udp", "cap", "-out"], Status::Usage),
    (
        &["scaplab", "match", "udp", "out.match", "out"],
        Status::Usage,
    ),
    (&["scaplab", "match", "udp", "cap", "cap"], Status::Done),
    // No such capture.
    (
        &["scaplab", "match", "udp", "none", "out"],
        Status::ReadFault,
    ),
];

#[test]
fn words_of_a_match_are_taken_as_they_are_said(rt: HostRuntime) -> Result<(), Fail> {
    expect_words(&rt, rt.alloc(), &WORDS)
}
