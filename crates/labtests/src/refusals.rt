use crate::runs::{DRILL, expect_drills, expect_refused, expect_words};
use labcases::places::{CAPTURED, CAPTURED_THIRD, LINK, MAGIC, MAJOR};
use labcases::{Capture, ETHERNET, Left, ONE, PACKET, Record, SYN};
use pcapfile::HeadFault;
use scapconf::Status;
use std::test::Fail;

const TALK: Record = Record::Datagram(1, (2, 50), (3, 53), b"ab");

const LATER: Record = Record::Datagram(2, (2, 50), (3, 53), b"cd");

// The second record, or the first one, has one byte.
const BEHIND_301: [Record; 2] = [TALK, Record::Frame((301, 0), b"x", &[])];

const BEHIND_300: [Record; 2] = [TALK, Record::Frame((300, 0), b"x", &[])];

const BEFORE_301: [Record; 2] = [
    Record::Frame((1, 0), b"x", &[]),
    Record::Datagram(301, (2, 50), (3, 53), b"ab"),
];

const BEFORE_300: [Record; 2] = [
    Record::Frame((1, 0), b"x", &[]),
    Record::Datagram(300, (2, 50), (3, 53), b"ab"),
];

// The clock doesn't go back.
const OVER_301: [Record; 3] = [TALK, Record::Frame((301, 0), &ETHERNET, &PACKET), LATER];

const OVER_300: [Record; 3] = [
    TALK,
    Record::Frame((300, 999_999), &ETHERNET, &PACKET),
    LATER,
];

const SEGMENT: Record = Record::Segment(1, (1, 5000), (2, 80), SYN, b"");

const BEFORE_SEGMENT: [Record; 2] = [TALK, SEGMENT];

const BEHIND_SEGMENT: [Record; 2] = [SEGMENT, TALK];

const UNBUILT: [(Capture, Status); 8] = [
    // A conversation could end before the capture: 300 seconds lie between the first clock and the last one.
    (Capture::Records(1, &BEHIND_301), Status::Unbuilt),
    (Capture::Records(1, &BEFORE_301), Status::Unbuilt),
    (Capture::Records(1, &OVER_301), Status::Unbuilt),
    // One segment is enough.
    (Capture::Records(1, &BEFORE_SEGMENT), Status::Unbuilt),
    (Capture::Records(1, &BEHIND_SEGMENT), Status::Unbuilt),
    // The end is not whole: a captured length of 43, 45 and 262,145 bytes.
    (Capture::Changed(&ONE, &[(CAPTURED, 43)]), Status::Unbuilt),
    (Capture::Changed(&ONE, &[(CAPTURED, 45)]), Status::Unbuilt),
    (
        Capture::Changed(&ONE, &[(CAPTURED, 1), (CAPTURED_THIRD, 4)]),
        Status::Unbuilt,
    ),
];

#[test]
fn what_is_not_built_of_a_capture_is_answered(rt: HostRuntime) -> Result<(), Fail> {
    expect_refused(&rt, rt.alloc(), &DRILL, &UNBUILT)
}

const IS_DONE: Left = Left::Part("status 0\n");

const BUILT: [(Capture, Left, Left); 3] = [
    // A second less, or a microsecond.
    (
        Capture::Records(1, &BEHIND_300),
        Left::Part("data 1 > 0 0 0 0 6162\n"),
        IS_DONE,
    ),
    (
        Capture::Records(1, &BEFORE_300),
        Left::Part("data 2 > 0 0 0 0 6162\n"),
        IS_DONE,
    ),
    (
        Capture::Records(1, &OVER_300),
        Left::Part("data 1 > 0 0 0 0 61626364\n"),
        IS_DONE,
    ),
];

#[test]
fn a_conversation_that_ends_with_the_capture_is_delivered(rt: HostRuntime) -> Result<(), Fail> {
    expect_drills(&rt, rt.alloc(), &BUILT)
}

// Ten bytes of a head.
const SHORT: [u8; 10] = [0xd4, 0xc3, 0xb2, 0xa1, 2, 0, 4, 0, 0, 0];

// The magic number of the newer format.
const NEWER: [(usize, u8); 4] = [(MAGIC, 0x0a), (1, 0x0d), (2, 0x0d), (3, 0x0a)];

const NO_CAPTURES: [(Capture, Status); 5] = [
    (
        Capture::Joined(&[&SHORT]),
        Status::NotPcap {
            kind: HeadFault::Short,
        },
    ),
    (
        Capture::Changed(&ONE, &NEWER),
        Status::NotPcap {
            kind: HeadFault::PcapNg,
        },
    ),
    (
        Capture::Changed(&ONE, &[(MAGIC, 0xd5)]),
        Status::NotPcap {
            kind: HeadFault::Magic,
        },
    ),
    (
        Capture::Changed(&ONE, &[(MAJOR, 1)]),
        Status::NotPcap {
            kind: HeadFault::Major,
        },
    ),
    (
        Capture::Changed(&ONE, &[(LINK, 9)]),
        Status::NotPcap {
            kind: HeadFault::Link,
        },
    ),
];

#[test]
fn no_capture_creates_no_file(rt: HostRuntime) -> Result<(), Fail> {
    expect_refused(&rt, rt.alloc(), &DRILL, &NO_CAPTURES)
}

const WORDS: [(&[&str], Status); 17] = [
    (&[], Status::Usage),
    (&["scaplab"], Status::Usage),
    (&["scaplab", "drill"], Status::Usage),
    (&["scaplab", "drill", "cap"], Status::Usage),
    (&["scaplab", "drill", "cap", "out", "more"], Status::Usage),
    (&["scaplab", "Drill", "cap", "out"], Status::Usage),
    (&["scaplab", "drill", "", "out"], Status::Usage),
    (&["scaplab", "drill", "cap", ""], Status::Usage),
    (&["scaplab", "drill", "-cap", "out"], Status::Usage),
    (&["scaplab", "drill", "cap", "-out"], Status::Usage),
    (&["scaplab", "drill", "out.0", "out"], Status::Usage),
    (&["scaplab", "drill", "out.report", "out"], Status::Usage),
    (&["scaplab", "audit"], Status::Unbuilt),
    (&["scaplab", "audit", "cap", "out"], Status::Unbuilt),
    (
        &["scaplab", "drill", "cap", "out", "--seed"],
        Status::Unbuilt,
    ),
    (&["scaplab", "drill", "--cores"], Status::Unbuilt),
    // No such capture.
    (&["scaplab", "drill", "none", "out"], Status::ReadFault),
];

#[test]
fn words_are_taken_as_they_are_said(rt: HostRuntime) -> Result<(), Fail> {
    expect_words(&rt, rt.alloc(), &WORDS)
}
