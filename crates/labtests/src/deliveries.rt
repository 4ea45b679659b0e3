use crate::runs::{DRILL, expect_drills, expect_files};
use labcases::places::{IP_LEN, SOURCE, UDP_LEN, UDP_LEN_HIGH};
use labcases::{
    BIG, COOKED, COOKED_2, Capture, DELIVERY, ETHERNET, Left, ONE, PACKET, REPORT,
    REPORT_OF_NANOSECONDS, Record, World,
};
use std::test::Fail;

#[test]
fn one_datagram_is_delivered_however_it_is_read(rt: HostRuntime) -> Result<(), Fail> {
    let left = [
        ("out.0", Left::Text(DELIVERY)),
        ("out.report", Left::Text(REPORT)),
        ("other", Left::Text("stays")),
        ("cap", Left::Bytes(&ONE)),
    ];
    let files: [(&str, &[u8]); 3] = [("cap", &ONE), ("other", b"stays"), ("out.0", b"goes")];
    for piece in [1, 7, 65_536] {
        let world = World::of(&files).by(piece);
        expect_files(&rt, rt.alloc(), &DRILL, world, 1, &left)?;
    }
    Ok(())
}

const TAGGED: [u8; 22] = [
    2, 0, 0, 0, 0, 2, 2, 0, 0, 0, 0, 1, 0x88, 0xa8, 0, 7, 0x81, 0, 0, 9, 8, 0,
];

// From 2001:db8::1 to 2001:db8::2, behind eight bytes of hop-by-hop options.
const OF_IPV6: [u8; 58] = [
    0x60, 0, 0, 0, 0, 18, 0, 64, 0x20, 1, 0x0d, 0xb8, 0, 0, 0, 0, 0, 0, 0, 0, 0, 0, 0, 1, 0x20, 1,
    0x0d, 0xb8, 0, 0, 0, 0, 0, 0, 0, 0, 0, 0, 0, 2, 17, 0, 1, 4, 0, 0, 0, 0, 0x13, 0x88, 0, 0x35,
    0, 10, 0, 0, 0x68, 0x69,
];

const DELIVERY_OF_IPV6: [&str; 3] = [
    "new 1 udp 2001:0db8:0000:0000:0000:0000:0000:0001 5000 2001:0db8:0000:0000:0000:0000:0000:0002 53\n",
    "data 1 > 0 0 0 0 6869\n",
    "end 1 finish\n",
];

const REPORT_OF_NONE: &str = "scap report 1\n\
    cores 1 workers 1\n\
    core 0\n\
    worker 0\n\
    records 0 accepted 0 filtered 0 other 0 fragment 0 short 0\n\
    bytes payload 0 delivered 0 duplicate 0 late 0 cut 0 shed 0\n\
    budget stamps 0 peak 0 refused 0\n\
    status 0\n";

const OF_ONE: Left = Left::Text(DELIVERY);

const DONE: Left = Left::Text(REPORT);

const DONE_OF_NANOSECONDS: Left = Left::Text(REPORT_OF_NANOSECONDS);

const CAPTURES: [(Capture, Left, Left); 10] = [
    // Big-endian with nanoseconds and with microseconds, little-endian with nanoseconds.
    (Capture::Changed(&BIG, &[]), OF_ONE, DONE_OF_NANOSECONDS),
    (
        Capture::Changed(&BIG, &[(2, 0xc3), (3, 0xd4)]),
        OF_ONE,
        DONE,
    ),
    (
        Capture::Changed(&ONE, &[(0, 0x4d), (1, 0x3c)]),
        OF_ONE,
        DONE_OF_NANOSECONDS,
    ),
    // Ethernet, raw IP, both kinds of Linux cooked captures, and Ethernet with two tags.
    (
        Capture::Records(1, &[Record::Frame((1, 5), &ETHERNET, &PACKET)]),
        OF_ONE,
        DONE,
    ),
    (
        Capture::Records(101, &[Record::Frame((1, 5), &[], &PACKET)]),
        OF_ONE,
        DONE,
    ),
    (
        Capture::Records(113, &[Record::Frame((1, 5), &COOKED, &PACKET)]),
        OF_ONE,
        DONE,
    ),
    (
        Capture::Records(276, &[Record::Frame((1, 5), &COOKED_2, &PACKET)]),
        OF_ONE,
        DONE,
    ),
    (
        Capture::Records(1, &[Record::Frame((1, 5), &TAGGED, &PACKET)]),
        OF_ONE,
        DONE,
    ),
    // IPv6.
    (
        Capture::Records(101, &[Record::Frame((1, 5), &OF_IPV6, &[])]),
        Left::Joined(&DELIVERY_OF_IPV6),
        DONE,
    ),
    // No record: an empty delivery file.
    (
        Capture::Records(1, &[]),
        Left::Text(""),
        Left::Text(REPORT_OF_NONE),
    ),
];

#[test]
fn captures_are_read_by_their_heads_and_links(rt: HostRuntime) -> Result<(), Fail> {
    expect_drills(&rt, rt.alloc(), &CAPTURES)
}

const TALK: [Record; 9] = [
    Record::Datagram(1, (2, 50), (3, 53), b"ab"),
    Record::Datagram(1, (3, 53), (2, 50), b"xyz"),
    Record::Datagram(1, (2, 50), (3, 53), b""),
    // Its key comes before that of the first conversation.
    Record::Datagram(2, (2, 50), (1, 7), b"q"),
    Record::Datagram(2, (2, 50), (3, 53), b"c"),
    Record::Datagram(2, (3, 53), (2, 50), b"w"),
    // The same addresses with another port, and no payload.
    Record::Datagram(3, (3, 54), (2, 50), b""),
    // Both ends are the same.
    Record::Datagram(3, (9, 9), (9, 9), b"e"),
    Record::Datagram(3, (9, 9), (9, 9), b"f"),
];

const DELIVERY_OF_TALK: &str = "new 1 udp 10.0.0.2 50 10.0.0.3 53\n\
    new 4 udp 10.0.0.2 50 10.0.0.1 7\n\
    new 7 udp 10.0.0.3 54 10.0.0.2 50\n\
    new 8 udp 10.0.0.9 9 10.0.0.9 9\n\
    data 1 > 0 0 0 0 616263\n\
    data 1 < 0 0 0 0 78797a77\n\
    end 1 finish\n\
    data 4 > 0 0 0 0 71\n\
    end 4 finish\n\
    end 7 finish\n\
    data 8 > 0 0 0 0 6566\n\
    end 8 finish\n";

const REPORT_OF_TALK: &str = "scap report 1\n\
    cores 1 workers 1\n\
    core 0\n\
    seg 1 1 1000000000 +2@0:0\n\
    ans 1 1 .\n\
    seg 1 2 1000000000 +3@1:2\n\
    seg 1 3 1000000000\n\
    seg 4 4 2000000000 +1@2:5\n\
    ans 4 2 .\n\
    seg 1 5 2000000000 +1@3:6\n\
    seg 1 6 2000000000 +1@4:7\n\
    seg 7 7 3000000000\n\
    ans 7 3 .\n\
    seg 8 8 3000000000 +1@5:8\n\
    ans 8 4 .\n\
    seg 8 9 3000000000 +1@6:9\n\
    end 1 3000000000 finish\n\
    end 4 3000000000 finish\n\
    end 7 3000000000 finish\n\
    end 8 3000000000 finish\n\
    ans 1 5 . ~2@7 ~1@8\n\
    ans 1 6 . ~3@9 ~1@10\n\
    ans 1 7 .\n\
    ans 4 8 . ~1@11\n\
    ans 4 9 .\n\
    ans 7 10 .\n\
    ans 8 11 . ~1@12 ~1@13\n\
    ans 8 12 .\n\
    worker 0\n\
    from 0 12\n\
    dir 1 > 3 3 0 0 0 0 0 0\n\
    dir 1 < 4 4 0 0 0 0 0 0\n\
    dir 4 > 1 1 0 0 0 0 0 0\n\
    dir 4 < 0 0 0 0 0 0 0 0\n\
    dir 7 > 0 0 0 0 0 0 0 0\n\
    dir 7 < 0 0 0 0 0 0 0 0\n\
    dir 8 > 2 2 0 0 0 0 0 0\n\
    dir 8 < 0 0 0 0 0 0 0 0\n\
    records 9 accepted 9 filtered 0 other 0 fragment 0 short 0\n\
    bytes payload 10 delivered 10 duplicate 0 late 0 cut 0 shed 0\n\
    budget stamps 14 peak 10 refused 0\n\
    status 0\n";

#[test]
fn conversations_are_told_apart_by_their_ends(rt: HostRuntime) -> Result<(), Fail> {
    let case = (
        Capture::Records(1, &TALK),
        Left::Text(DELIVERY_OF_TALK),
        Left::Text(REPORT_OF_TALK),
    );
    expect_drills(&rt, rt.alloc(), &[case])
}

const NO_PAYLOAD: Left = Left::Text(
    "new 1 udp 10.0.0.1 5000 10.0.0.2 53\n\
    end 1 finish\n",
);

const ONE_BYTE: Left = Left::Text(
    "new 1 udp 10.0.0.1 5000 10.0.0.2 53\n\
    data 1 > 0 0 0 0 68\n\
    end 1 finish\n",
);

const HIGH_SOURCE: Left = Left::Text(
    "new 1 udp 10.0.0.3 5000 10.0.0.2 53\n\
    data 1 > 0 0 0 0 6869\n\
    end 1 finish\n",
);

const NO_BYTES: Left = Left::Part("bytes payload 0 delivered 0 duplicate 0 late 0 cut 0 shed 0\n");

const BYTES_OF_ONE: Left = Left::Part(
    "bytes payload 1 delivered 1 duplicate 0 late 0 cut 0 shed 0\n",
);

const BYTES_OF_TWO: Left = Left::Part(
    "bytes payload 2 delivered 2 duplicate 0 late 0 cut 0 shed 0\n",
);

const HEADERS: [(Capture, Left, Left); 8] = [
    // The UDP length says no payload: no data line.
    (
        Capture::Changed(&ONE, &[(UDP_LEN, 8)]),
        NO_PAYLOAD,
        NO_BYTES,
    ),
    // It says one byte.
    (
        Capture::Changed(&ONE, &[(UDP_LEN, 9)]),
        ONE_BYTE,
        BYTES_OF_ONE,
    ),
    // It says nothing, or more than IP declares: what IP declares counts.
    (
        Capture::Changed(&ONE, &[(UDP_LEN, 0)]),
        OF_ONE,
        BYTES_OF_TWO,
    ),
    (
        Capture::Changed(&ONE, &[(UDP_LEN_HIGH, 1)]),
        OF_ONE,
        BYTES_OF_TWO,
    ),
    // IP declares one byte less, or nothing: what was captured counts.
    (
        Capture::Changed(&ONE, &[(IP_LEN, 29), (UDP_LEN, 0)]),
        ONE_BYTE,
        BYTES_OF_ONE,
    ),
    (Capture::Changed(&ONE, &[(IP_LEN, 0)]), OF_ONE, BYTES_OF_TWO),
    // Both say a byte more than was captured: what was captured counts.
    (
        Capture::Changed(&ONE, &[(IP_LEN, 31), (UDP_LEN, 11)]),
        OF_ONE,
        BYTES_OF_TWO,
    ),
    // The source is the high end.
    (
        Capture::Changed(&ONE, &[(SOURCE, 3)]),
        HIGH_SOURCE,
        BYTES_OF_TWO,
    ),
];

#[test]
fn datagrams_are_read_by_their_headers(rt: HostRuntime) -> Result<(), Fail> {
    expect_drills(&rt, rt.alloc(), &HEADERS)
}
