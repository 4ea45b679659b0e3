use crate::runs::{DRILL, expect_files};
use labcases::{Capture, Left, Record, World, bytes_of, has_left, opened, put_records, shelf_of};
use labtop::drill_run;
use prio_budget::Marks;
use scapconf::{Settings, Status};
use std::alloc::Global;
use std::test::Fail;

const BYTES: [u8; 1400] = [b'a'; 1400];

const FULL: Record = Record::Datagram(0, (1, 5000), (2, 53), &BYTES);

const LESS: Record = Record::Datagram(0, (1, 5000), (2, 53), &[b'a'; 1200]);

const REPORT_OF_SHED: &str = "scap report 1\n\
    cores 1 workers 1\n\
    core 0\n\
    seg 1 1 0 +1400@0:0\n\
    ans 1 1 .\n\
    seg 1 2 0 +1400@1:1400\n\
    seg 1 3 0 -1400@2:2800\n\
    seg 1 4 0 +1200@2:2800\n\
    ans 1 2 . ~1400@3 ~1400@4\n\
    end 1 0 finish\n\
    ans 1 3 . ~1200@5\n\
    ans 1 4 .\n\
    worker 0\n\
    from 0 4\n\
    dir 1 > 5400 4000 0 0 0 1400 1 1400\n\
    dir 1 < 0 0 0 0 0 0 0 0\n\
    records 4 accepted 4 filtered 0 other 0 fragment 0 short 0\n\
    bytes payload 5400 delivered 4000 duplicate 0 late 0 cut 0 shed 1400\n\
    budget stamps 6 peak 4000 refused 1\n\
    status 0\n";

/// A delivery file of one conversation: each line's front, and how many bytes `a` stand behind it.
fn delivery_of(alloc: Global, lines: &[(&str, usize)]) -> Result<Vec<u8>, Fail> {
    let mut text = Vec::from_slice(alloc, b"new 1 udp 10.0.0.1 5000 10.0.0.2 53\n")?;
    for (front, count) in lines {
        text.extend_from_slice(front.as_bytes())?;
        put_bytes(&mut text, *count)?;
    }
    text.extend_from_slice(b"end 1 finish\n")?;
    Ok(text)
}

fn put_bytes(text: &mut Vec<u8>, count: usize) -> Result<(), Fail> {
    for _ in 0..count {
        text.extend_from_slice(b"61")?;
    }
    text.push(b'\n')?;
    Ok(())
}

#[test]
fn a_small_budget_sheds_a_datagram(rt: HostRuntime) -> Result<(), Fail> {
    let alloc = rt.alloc();
    let capture = bytes_of(alloc, &Capture::Records(1, &[FULL, FULL, FULL, LESS]))?;
    let mut shelf = shelf_of(alloc, World::of(&[("cap", &capture)]))?;
    let mut settings = Settings::defaults(alloc)?;
    settings.set.marks = Marks::new(4096, 4096, 1)?;
    let done = drill_run(alloc, settings, "cap", "out", &mut shelf);
    let lines = [
        ("data 1 > 0 0 0 0 ", 2800),
        ("data 1 > 4200 1400 0 0 ", 1200),
    ];
    let delivery = delivery_of(alloc, &lines)?;
    let left = [
        ("out.0", Left::Bytes(&delivery)),
        ("out.report", Left::Text(REPORT_OF_SHED)),
    ];
    assert_eq!(rt;
        (done.status, has_left(&shelf, &left)),
        (Status::Done, true)
    );
    Ok(())
}

#[test]
fn a_chunk_is_handed_over_once_it_is_full(rt: HostRuntime) -> Result<(), Fail> {
    let alloc = rt.alloc();
    // Twelve datagrams of 1,400 bytes make the first 16,384 of a chunk, which is never cut.
    let capture = bytes_of(alloc, &Capture::Records(1, &[FULL; 13]))?;
    let lines = [
        ("data 1 > 0 0 0 0 ", 16_800),
        ("data 1 > 16800 0 0 0 ", 1400),
    ];
    let delivery = delivery_of(alloc, &lines)?;
    let left = [("out.0", Left::Bytes(&delivery))];
    expect_files(
        &rt,
        alloc,
        &DRILL,
        World::of(&[("cap", &capture)]),
        1,
        &left,
    )
}

// The first 128 ends leave 256 events, so one is answered before the next end, and then two before each.
const ENDS: &str = "end 127 0 finish\n\
    end 128 0 finish\n\
    ans 1 201 . ~1@200\n\
    end 129 0 finish\n\
    ans 1 202 .\n\
    ans 2 203 . ~1@201\n\
    end 130 0 finish\n";

#[test]
fn fewer_than_256_events_wait_as_a_conversation_ends(rt: HostRuntime) -> Result<(), Fail> {
    let alloc = rt.alloc();
    let mut capture = opened(alloc, 1)?;
    for port in 1..201u16 {
        put_records(
            &mut capture,
            alloc,
            &[Record::Datagram(0, (1, port), (2, 53), b"x")],
        )?;
    }
    let left = [
        ("out.report", Left::Part(ENDS)),
        (
            "out.report",
            Left::Part("budget stamps 400 peak 200 refused 0\n"),
        ),
    ];
    expect_files(
        &rt,
        alloc,
        &DRILL,
        World::of(&[("cap", &capture)]),
        1,
        &left,
    )
}
