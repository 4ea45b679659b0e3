use crate::runs::{Command, DRILL, DRILL_BY, Fault, Rest, expect_faults};
use labcases::{DELIVERY, ONE, REPORT};
use scap_world::FailCall;
use scapconf::{SettingsKind, Status};
use std::test::Fail;

const OF_NONE: [Rest; 2] = [Rest::Absent, Rest::Absent];

// Read and written 16 bytes at a time: six reads take the capture's 84 bytes, and a seventh tells that there are no
// more. The delivery file has 71 bytes, so it is written in 5 pieces; the report has 351, so it is written in 22. Of
// what is not finished the first half stays; behind a delivery file that failed no report is created.
const OF_DRILL: [Fault; 8] = [
    ("cap", FailCall::Open, 1, Status::ReadFault, &OF_NONE),
    ("cap", FailCall::Read, 7, Status::ReadFault, &OF_NONE),
    ("out.0", FailCall::Create, 1, Status::WriteFault, &OF_NONE),
    (
        "out.0",
        FailCall::Write,
        5,
        Status::WriteFault,
        &[Rest::Pieces, Rest::Absent],
    ),
    (
        "out.0",
        FailCall::Finish,
        1,
        Status::WriteFault,
        &[Rest::Half, Rest::Absent],
    ),
    (
        "out.report",
        FailCall::Create,
        1,
        Status::WriteFault,
        &[Rest::Whole, Rest::Absent],
    ),
    (
        "out.report",
        FailCall::Write,
        22,
        Status::WriteFault,
        &[Rest::Whole, Rest::Pieces],
    ),
    (
        "out.report",
        FailCall::Finish,
        1,
        Status::WriteFault,
        &[Rest::Whole, Rest::Half],
    ),
];

// The settings of ten bytes take one read, and a second tells that there are no more.
const OF_SETTINGS: [Fault; 2] = [
    ("set", FailCall::Open, 1, Status::ReadFault, &OF_NONE),
    ("set", FailCall::Read, 2, Status::ReadFault, &OF_NONE),
];

#[test]
fn each_call_of_a_drill_can_fail(rt: HostRuntime) -> Result<(), Fail> {
    let command = Command {
        words: &DRILL,
        files: &[("cap", &ONE)],
        piece: 16,
        status: Status::Done,
        outputs: &[
            ("out.0", DELIVERY.as_bytes()),
            ("out.report", REPORT.as_bytes()),
        ],
    };
    expect_faults(&rt, rt.alloc(), &command, &OF_DRILL)
}

#[test]
fn each_call_of_a_drill_by_settings_can_fail(rt: HostRuntime) -> Result<(), Fail> {
    let command = Command {
        words: &DRILL_BY,
        files: &[("set", b"filter udp"), ("cap", &ONE)],
        piece: 16,
        status: Status::Done,
        outputs: &[
            ("out.0", DELIVERY.as_bytes()),
            ("out.report", REPORT.as_bytes()),
        ],
    };
    expect_faults(&rt, rt.alloc(), &command, &OF_SETTINGS)?;
    expect_faults(&rt, rt.alloc(), &command, &OF_DRILL)
}

#[test]
fn settings_that_cannot_be_read_come_before_their_fault(rt: HostRuntime) -> Result<(), Fail> {
    let command = Command {
        words: &DRILL_BY,
        files: &[("set", b"chunk 0"), ("cap", &ONE)],
        piece: 65_536,
        status: Status::Settings {
            line: 1,
            kind: SettingsKind::Number,
        },
        outputs: &[],
    };
    expect_faults(&rt, rt.alloc(), &command, &OF_SETTINGS)
}

const OF_MATCH: [Rest; 1] = [Rest::Absent];

#[test]
fn each_call_of_a_match_can_fail(rt: HostRuntime) -> Result<(), Fail> {
    let reads: [Fault; 2] = [
        ("cap", FailCall::Open, 1, Status::ReadFault, &OF_MATCH),
        ("cap", FailCall::Read, 7, Status::ReadFault, &OF_MATCH),
    ];
    let writes: [Fault; 3] = [
        (
            "out.match",
            FailCall::Create,
            1,
            Status::WriteFault,
            &OF_MATCH,
        ),
        (
            "out.match",
            FailCall::Write,
            2,
            Status::WriteFault,
            &[Rest::Pieces],
        ),
        (
            "out.match",
            FailCall::Finish,
            1,
            Status::WriteFault,
            &[Rest::Half],
        ),
    ];
    let mut command = Command {
        words: &["scaplab", "match", "udp", "cap", "out"],
        files: &[("cap", &ONE)],
        piece: 16,
        status: Status::Done,
        outputs: &[("out.match", b"1\n")],
    };
    expect_faults(&rt, rt.alloc(), &command, &reads)?;
    // Written a byte at a time.
    command.piece = 1;
    expect_faults(&rt, rt.alloc(), &command, &writes)
}
