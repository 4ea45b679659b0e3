use pcapfile::HeadFault;
use scapconf::SettingsKind::{
    Budget, Count, Filter, Long, Many, Number, Repeated, Rule, Text, Word,
};
use scapconf::{SettingsError, Status};
use std::process::Abort;
use std::test::Fail;

const BAD_RECORD: Status = Status::BadRecord {
    at: 24,
    len: 262_145,
};

/// Statuses, or the errors that become them, with their numbers and texts.
const STATUSES: [(Result<Status, SettingsError>, u8, &str); 25] = [
    (Ok(Status::Done), 0, "done"),
    (Ok(Status::Memory), 1, "out of memory"),
    (Err(SettingsError::Memory), 1, "out of memory"),
    (Ok(Status::Usage), 2, "usage: scaplab WORDS"),
    (
        Err(SettingsError::Fault {
            line: 0,
            kind: Long,
        }),
        3,
        "settings: line 0: long",
    ),
    (
        Err(SettingsError::Fault {
            line: 1,
            kind: Text,
        }),
        3,
        "settings: line 1: text",
    ),
    (
        Err(SettingsError::Fault {
            line: 2,
            kind: Word,
        }),
        3,
        "settings: line 2: word",
    ),
    (
        Err(SettingsError::Fault {
            line: 3,
            kind: Repeated,
        }),
        3,
        "settings: line 3: repeated",
    ),
    (
        Err(SettingsError::Fault {
            line: 4,
            kind: Count,
        }),
        3,
        "settings: line 4: count",
    ),
    (
        Err(SettingsError::Fault {
            line: 5,
            kind: Number,
        }),
        3,
        "settings: line 5: number",
    ),
    (
        Err(SettingsError::Fault {
            line: 6,
            kind: Filter,
        }),
        3,
        "settings: line 6: filter",
    ),
    (
        Err(SettingsError::Fault {
            line: 7,
            kind: Budget,
        }),
        3,
        "settings: line 7: budget",
    ),
    (
        Err(SettingsError::Fault {
            line: 8,
            kind: Rule,
        }),
        3,
        "settings: line 8: rule",
    ),
    (
        Err(SettingsError::Fault {
            line: 4_294_967_295,
            kind: Many,
        }),
        3,
        "settings: line 4294967295: many",
    ),
    (Ok(Status::ReadFault), 4, "read fault"),
    (Ok(Status::WriteFault), 5, "write fault"),
    (
        Ok(Status::NotPcap {
            kind: HeadFault::Short,
        }),
        6,
        "not a pcap file: short",
    ),
    (
        Ok(Status::NotPcap {
            kind: HeadFault::PcapNg,
        }),
        6,
        "not a pcap file: pcapng",
    ),
    (
        Ok(Status::NotPcap {
            kind: HeadFault::Magic,
        }),
        6,
        "not a pcap file: magic",
    ),
    (
        Ok(Status::NotPcap {
            kind: HeadFault::Major,
        }),
        6,
        "not a pcap file: major",
    ),
    (
        Ok(Status::NotPcap {
            kind: HeadFault::Link,
        }),
        6,
        "not a pcap file: link",
    ),
    (
        Ok(BAD_RECORD),
        7,
        "bad record at 24: captured length 262145",
    ),
    (
        Ok(Status::CutShort { bytes: 15 }),
        8,
        "capture ends inside a record: 15 bytes",
    ),
    (Ok(Status::TooLong), 9, "too long"),
    (Ok(Status::Unbuilt), 13, "not built yet"),
];

fn status_of(found: Result<Status, SettingsError>) -> Status {
    match found {
        Ok(status) => status,
        Err(error) => Status::from(error),
    }
}

/// Appends the text of a status, and compares it and the number.
fn expect_status(
    rt: &impl Abort,
    status: Status,
    number: u8,
    text: &str,
    out: &mut Vec<u8>,
) -> Result<(), Fail> {
    assert_eq!(rt; status.number(), number, "of {status:?}");
    let before = out.len();
    status.put("usage: scaplab WORDS", out)?;
    assert_eq!(rt;
        out.get(before..).unwrap_or_default(),
        text.as_bytes(),
        "of {status:?}"
    );
    Ok(())
}

#[test]
fn statuses_have_their_numbers_and_texts(rt: HostRuntime) -> Result<(), Fail> {
    let mut out = Vec::new(rt.alloc());
    for (status, number, text) in &STATUSES {
        expect_status(&rt, status_of(*status), *number, text, &mut out)?;
    }
    assert!(rt; out.starts_with(b"doneout of memoryout of memory"));
    Ok(())
}
