// Runs at large numbers: a body that gives up for want of memory there is told by them alone.
use crate::runs::{DRILL, expect_files, expect_matches, outcome};
use labcases::{Left, ONE, Record, World, opened, put_records};
use scapconf::{SettingsKind, Status};
use std::alloc::Global;
use std::test::Fail;

/// How many conversations there are, each from a port of its own, and how many datagrams of one byte go over them in
/// turn.
const CONVERSATIONS: u16 = 2_000;

const RECORDS: u16 = 5_000;

fn capture_of(alloc: Global) -> Result<Vec<u8>, Fail> {
    let mut capture = opened(alloc, 1)?;
    for i in 0..RECORDS {
        let port = 1 + i % CONVERSATIONS;
        put_records(
            &mut capture,
            alloc,
            &[Record::Datagram(0, (1, port), (2, 53), b"x")],
        )?;
    }
    Ok(capture)
}

/// Each conversation begins with its first record, in order; as the capture ends each is delivered whole, in order.
fn delivery_of(alloc: Global) -> Result<String, Fail> {
    let mut text = String::new(alloc);
    for i in 1..CONVERSATIONS + 1 {
        text.push_str(&format!(in alloc; "new {i} udp 10.0.0.1 {i} 10.0.0.2 53\n")?)?;
    }
    for i in 1..CONVERSATIONS + 1 {
        // The last 1,000 records go over the first 1,000 conversations once more.
        let bytes = if i <= 1_000 { "787878" } else { "7878" };
        text.push_str(&format!(in alloc; "data {i} > 0 0 0 0 {bytes}\nend {i} finish\n")?)?;
    }
    Ok(text)
}

const SUMS: &str = "dir 2000 > 2 2 0 0 0 0 0 0\n\
    dir 2000 < 0 0 0 0 0 0 0 0\n\
    records 5000 accepted 5000 filtered 0 other 0 fragment 0 short 0\n\
    bytes payload 5000 delivered 5000 duplicate 0 late 0 cut 0 shed 0\n\
    budget stamps 10000 peak 5000 refused 0\n\
    status 0\n";

#[test]
fn thousands_of_records_and_conversations_are_delivered(rt: HostRuntime) -> Result<(), Fail> {
    let capture = capture_of(rt.alloc())?;
    let delivery = delivery_of(rt.alloc())?;
    let left = [
        ("out.0", Left::Text(&delivery)),
        ("out.report", Left::Part(SUMS)),
    ];
    expect_files(
        &rt,
        rt.alloc(),
        &DRILL,
        World::of(&[("cap", &capture)]),
        1,
        &left,
    )
}

#[test]
fn thousands_of_records_are_matched(rt: HostRuntime) -> Result<(), Fail> {
    let capture = capture_of(rt.alloc())?;
    let cases = [("src port 1000", "1000\n3000\n5000\n"), ("port 2001", "")];
    expect_matches(&rt, rt.alloc(), 0, &capture, &cases)
}

/// So many times a long address, and `udp`: four tokens for each of them, and one more.
fn filter_of(alloc: Global, count: usize) -> Result<String, Fail> {
    let mut text = String::new(alloc);
    for _ in 0..count {
        text.push_str("src host 2001:0db8:1111:2222:3333:4444:5555:6666 or ")?;
    }
    text.push_str("udp")?;
    Ok(text)
}

/// The outcome of a match of the capture of one record, which writes its number or nothing.
fn matched(alloc: Global, filter: &str, left: Left) -> Result<(Status, usize, bool), Fail> {
    let words = ["scaplab", "match", filter, "cap", "out"];
    outcome(
        alloc,
        &words,
        World::of(&[("cap", &ONE)]),
        &[("out.match", left)],
    )
}

#[test]
fn long_filters_are_read(rt: HostRuntime) -> Result<(), Fail> {
    let refused = Status::Settings {
        line: 0,
        kind: SettingsKind::Filter,
    };
    // Of 512 tokens, which are the most, 509; then 513.
    let filter = filter_of(rt.alloc(), 127)?;
    let found = matched(rt.alloc(), &filter, Left::Text("1\n"))?;
    assert_eq!(rt; found, (Status::Done, 0, true));
    let filter = filter_of(rt.alloc(), 128)?;
    let found = matched(rt.alloc(), &filter, Left::Absent)?;
    assert_eq!(rt; found, (refused, 0, true));
    // One token that is much longer than any word.
    let mut filter = String::from_str(rt.alloc(), "host ")?;
    for _ in 0..5_000 {
        filter.push_str("2001:0db8:")?;
    }
    let found = matched(rt.alloc(), &filter, Left::Absent)?;
    assert_eq!(rt; found, (refused, 0, true));
    Ok(())
}
