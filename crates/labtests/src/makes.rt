// Captures that are made, and read again.
use crate::runs::{
    Command, Fault, Rest, expect_faults, expect_files, expect_matches, expect_words,
};
use labcases::{Left, ONE, World, shelf_of};
use labtop::lab_top;
use scap_world::FailCall;
use scapconf::Status;
use std::alloc::Global;
use std::test::Fail;

// One record of seed 0, of 129 bytes: flow 62 of TCP, from 10.1.0.1 port 443 to 10.0.0.63 port 40062. It leaves as many bytes
// out as it has, so that its payload begins at position 75.
const MADE: [u8; 169] = [
    // The file's header, and the record's.
    0xd4, 0xc3, 0xb2, 0xa1, 2, 0, 4, 0, 0, 0, 0, 0, 0, 0, 0, 0, 0, 0, 4, 0, 1, 0, 0, 0, //
    0, 0, 0, 0, 0, 0, 0, 0, 129, 0, 0, 0, 129, 0, 0, 0, //
    // Ethernet, IPv4, TCP.
    2, 0, 0, 0, 0, 2, 2, 0, 0, 0, 0, 1, 8, 0, //
    0x45, 0, 0, 115, 0, 0, 0, 0, 64, 6, 0, 0, 10, 1, 0, 1, 10, 0, 0, 63, //
    0x01, 0xbb, 0x9c, 0x7e, 0xff, 0xff, 0xfc, 0x04, 0, 0, 0, 0, 0x50, 0x18, 0xff, 0xff, 0, 0, 0, 0,
    // The byte at position 75 is 75 + 7 * 62 + 13 modulo 251.
    20, 21, 22, 23, 24, 25, 26, 27, 28, 29, 30, 31, 32, 33, 34, 35, 36, 37, 38, 39, 40, 41, 42, 43,
    44, 45, 46, 47, 48, 49, 50, 51, 52, 53, 54, 55, 56, 57, 58, 59, 60, 61, 62, 63, 64, 65, 66, 67,
    68, 69, 70, 71, 72, 73, 74, 75, 76, 77, 78, 79, 80, 81, 82, 83, 84, 85, 86, 87, 88, 89, 90, 91,
    92, 93, 94,
];

// Zeros may lead, and a file of that name is replaced.
#[test]
fn the_first_record_is_as_worked_out(rt: HostRuntime) -> Result<(), Fail> {
    let words = ["scaplab", "make", "000", "00000000000000000001", "big"];
    let world = World::of(&[("big", &ONE), ("cap", &ONE)]);
    let left = [("big", Left::Bytes(&MADE)), ("cap", Left::Bytes(&ONE))];
    expect_files(&rt, rt.alloc(), &words, world, 0, &left)
}

// Written 16 bytes at a time, in 11 pieces.
const OF_MAKE: [Fault; 3] = [
    (
        "big",
        FailCall::Create,
        1,
        Status::WriteFault,
        &[Rest::Absent],
    ),
    (
        "big",
        FailCall::Write,
        11,
        Status::WriteFault,
        &[Rest::Pieces],
    ),
    (
        "big",
        FailCall::Finish,
        1,
        Status::WriteFault,
        &[Rest::Half],
    ),
];

#[test]
fn each_call_of_a_make_can_fail(rt: HostRuntime) -> Result<(), Fail> {
    let command = Command {
        words: &["scaplab", "make", "0", "1", "big"],
        files: &[],
        piece: 16,
        status: Status::Done,
        outputs: &[("big", &MADE)],
    };
    expect_faults(&rt, rt.alloc(), &command, &OF_MAKE)
}

/// A capture of 2,000 records, which is written in six pieces.
fn made(alloc: Global) -> Result<Vec<u8>, Fail> {
    let mut shelf = shelf_of(alloc, World::of(&[]))?;
    let words = ["scaplab", "make", "7", "2000", "big"];
    let done = lab_top(alloc, &words, &mut shelf);
    let bytes = match shelf.file("big") {
        Some(bytes) if done.status == Status::Done => bytes,
        _ => &[],
    };
    Ok(Vec::from_slice(alloc, bytes)?)
}

/// The numbers from 1 on, a line each.
fn numbers(alloc: Global, count: u16) -> Result<String, Fail> {
    let mut text = String::new(alloc);
    for i in 0..count {
        text.push_str(&format!(in alloc; "{}\n", i + 1)?)?;
    }
    Ok(text)
}

#[test]
fn what_is_made_is_read(rt: HostRuntime) -> Result<(), Fail> {
    let capture = made(rt.alloc())?;
    assert_eq!(rt; capture.len(), 331_444);
    let all = numbers(rt.alloc(), 2_000)?;
    // The second text was worked out by another program from the format's words.
    let cases = [
        ("tcp or udp", all.as_str()),
        (
            "src port 443 and dst port 40062",
            "300\n311\n714\n824\n982\n1036\n1147\n1516\n1544\n1682\n1712\n1716\n",
        ),
    ];
    expect_matches(&rt, rt.alloc(), 0, &capture, &cases)
}

const WORDS: [(&[&str], Status); 18] = [
    (&["scaplab", "make"], Status::Usage),
    (&["scaplab", "make", "1"], Status::Usage),
    (&["scaplab", "make", "1", "1"], Status::Usage),
    (
        &["scaplab", "make", "1", "1", "out.0", "more"],
        Status::Usage,
    ),
    (&["scaplab", "Make", "1", "1", "out.0"], Status::Usage),
    // No records, or one more than a million.
    (&["scaplab", "make", "1", "0", "out.0"], Status::Usage),
    (&["scaplab", "make", "1", "1000001", "out.0"], Status::Usage),
    // A seed has 64 bits, and a number at most twenty digits.
    (
        &["scaplab", "make", "18446744073709551616", "1", "out.0"],
        Status::Usage,
    ),
    (
        &["scaplab", "make", "18446744073709551615", "1", "big"],
        Status::Done,
    ),
    (
        &["scaplab", "make", "000000000000000000001", "1", "out.0"],
        Status::Usage,
    ),
    (
        &["scaplab", "make", "1", "000000000000000000001", "out.0"],
        Status::Usage,
    ),
    (&["scaplab", "make", "", "1", "out.0"], Status::Usage),
    (&["scaplab", "make", "-1", "1", "out.0"], Status::Usage),
    (&["scaplab", "make", "1", "+1", "out.0"], Status::Usage),
    (&["scaplab", "make", "0x1", "1", "out.0"], Status::Usage),
    (&["scaplab", "make", "1", "1", ""], Status::Usage),
    (&["scaplab", "make", "1", "1", "-out.0"], Status::Usage),
    (&["scaplab", "make", "1", "1", "a-"], Status::Done),
];

#[test]
fn words_of_a_make_are_taken_as_they_are_said(rt: HostRuntime) -> Result<(), Fail> {
    expect_words(&rt, rt.alloc(), &WORDS)
}
