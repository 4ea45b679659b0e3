use crate::runs::expect_drills;
use labcases::places::{
    ETHER_TYPE, ETHER_TYPE_HIGH, FRAGMENT_FLAGS, FRAGMENT_OFFSET, IP_LEN, LINK, LINK_HIGH,
    PROTOCOL, UDP_LEN, VERSION,
};
use labcases::{
    BIG, COOKED, COOKED_2, Capture, DELIVERY, ETHERNET, Left, ONE, PACKET, Record, STATIONS,
};
use std::test::Fail;

const FRONT: &str = "scap report 1\n\
    cores 1 workers 1\n\
    core 0\n";

const NO_ENTRIES: &str = "worker 0\n";

const NO_BYTES: &str = "bytes payload 0 delivered 0 duplicate 0 late 0 cut 0 shed 0\n\
    budget stamps 0 peak 0 refused 0\n\
    status 0\n";

const OTHER: [&str; 4] = [
    FRONT,
    NO_ENTRIES,
    "records 1 accepted 0 filtered 0 other 1 fragment 0 short 0\n",
    NO_BYTES,
];

const FRAGMENT: [&str; 4] = [
    FRONT,
    NO_ENTRIES,
    "records 1 accepted 0 filtered 0 other 0 fragment 1 short 0\n",
    NO_BYTES,
];

const SHORT: [&str; 4] = [
    FRONT,
    NO_ENTRIES,
    "records 1 accepted 0 filtered 0 other 0 fragment 0 short 1\n",
    NO_BYTES,
];

const EMPTY: Left = Left::Text("");

const IS_OTHER: Left = Left::Joined(&OTHER);

const IS_FRAGMENT: Left = Left::Joined(&FRAGMENT);

const IS_SHORT: Left = Left::Joined(&SHORT);

const KINDS: [(Capture, Left, Left); 16] = [
    // Said to be IPv6; a tag or a service tag with another EtherType behind it; ARP.
    (
        Capture::Changed(&ONE, &[(ETHER_TYPE_HIGH, 0x86), (ETHER_TYPE, 0xdd)]),
        EMPTY,
        IS_SHORT,
    ),
    (
        Capture::Changed(&ONE, &[(ETHER_TYPE_HIGH, 0x81)]),
        EMPTY,
        IS_OTHER,
    ),
    (
        Capture::Changed(&ONE, &[(ETHER_TYPE_HIGH, 0x88), (ETHER_TYPE, 0xa8)]),
        EMPTY,
        IS_OTHER,
    ),
    (
        Capture::Changed(&ONE, &[(ETHER_TYPE, 0x06)]),
        EMPTY,
        IS_OTHER,
    ),
    // A segment of TCP without its whole header, and another protocol.
    (Capture::Changed(&ONE, &[(PROTOCOL, 6)]), EMPTY, IS_SHORT),
    (Capture::Changed(&ONE, &[(PROTOCOL, 1)]), EMPTY, IS_OTHER),
    // More fragments, a fragment's offset.
    (
        Capture::Changed(&ONE, &[(FRAGMENT_FLAGS, 0x20)]),
        EMPTY,
        IS_FRAGMENT,
    ),
    (
        Capture::Changed(&ONE, &[(FRAGMENT_OFFSET, 0x01)]),
        EMPTY,
        IS_FRAGMENT,
    ),
    // Another version, a header of 16 bytes, one longer than the packet, a total length below the header's.
    (Capture::Changed(&ONE, &[(VERSION, 0x65)]), EMPTY, IS_SHORT),
    (Capture::Changed(&ONE, &[(VERSION, 0x44)]), EMPTY, IS_SHORT),
    (Capture::Changed(&ONE, &[(VERSION, 0x4f)]), EMPTY, IS_SHORT),
    (Capture::Changed(&ONE, &[(IP_LEN, 19)]), EMPTY, IS_SHORT),
    // A UDP length below its header's.
    (Capture::Changed(&ONE, &[(UDP_LEN, 7)]), EMPTY, IS_SHORT),
    // The Ethernet frame carries nothing as raw IP, nor behind both headers of Linux cooked captures.
    (Capture::Changed(&ONE, &[(LINK, 101)]), EMPTY, IS_OTHER),
    (Capture::Changed(&ONE, &[(LINK, 113)]), EMPTY, IS_OTHER),
    (
        Capture::Changed(&ONE, &[(LINK, 20), (LINK_HIGH, 1)]),
        EMPTY,
        IS_OTHER,
    ),
];

#[test]
fn a_skipped_record_is_counted_by_its_kind(rt: HostRuntime) -> Result<(), Fail> {
    expect_drills(&rt, rt.alloc(), &KINDS)
}

// Behind the stations two tags, and three.
const TWO_TAGS: [u8; 22] = [
    2, 0, 0, 0, 0, 2, 2, 0, 0, 0, 0, 1, 0x81, 0, 0, 5, 0x88, 0xa8, 0, 6, 8, 0,
];

const THREE_TAGS: [u8; 26] = [
    2, 0, 0, 0, 0, 2, 2, 0, 0, 0, 0, 1, 0x81, 0, 0, 5, 0x88, 0xa8, 0, 6, 0x81, 0, 0, 7, 8, 0,
];

// An IPv4 header with more fragments; one with a byte less than a header has.
const OF_FRAGMENT: [u8; 20] = [
    0x45, 0, 0, 0x1e, 0, 0, 0x20, 0, 0x40, 0x11, 0, 0, 10, 0, 0, 1, 10, 0, 0, 2,
];

const OF_19_BYTES: [u8; 19] = [
    0x45, 0, 0, 0x1e, 0, 0, 0, 0, 0x40, 0x11, 0, 0, 10, 0, 0, 1, 10, 0, 0,
];

const AMONG: [Record; 7] = [
    Record::Frame((1, 0), &TWO_TAGS, &PACKET),
    Record::Frame((2, 0), &THREE_TAGS, &PACKET),
    // ARP, a fragment, and a frame that ends in its header.
    Record::Frame((1, 0), &STATIONS, &[8, 6, 0, 1, 8, 0, 6, 4, 0, 1]),
    Record::Frame((1, 0), &ETHERNET, &OF_FRAGMENT),
    Record::Frame((1, 0), &STATIONS, &[8]),
    // The other way, with the clock of the second record; and a header of IPv4 with a byte less.
    Record::Datagram(1, (2, 53), (1, 5000), b"ok"),
    Record::Frame((5, 0), &ETHERNET, &OF_19_BYTES),
];

const DELIVERY_AMONG: &str = "new 1 udp 10.0.0.1 5000 10.0.0.2 53\n\
    data 1 > 0 0 0 0 6869\n\
    data 1 < 0 0 0 0 6f6b\n\
    end 1 finish\n";

const REPORT_AMONG: &str = "scap report 1\n\
    cores 1 workers 1\n\
    core 0\n\
    seg 1 1 1000000000 +2@0:0\n\
    ans 1 1 .\n\
    seg 1 6 2000000000 +2@1:2\n\
    end 1 5000000000 finish\n\
    ans 1 2 . ~2@2\n\
    ans 1 3 . ~2@3\n\
    ans 1 4 .\n\
    worker 0\n\
    from 0 4\n\
    dir 1 > 2 2 0 0 0 0 0 0\n\
    dir 1 < 2 2 0 0 0 0 0 0\n\
    records 7 accepted 2 filtered 0 other 2 fragment 1 short 2\n\
    bytes payload 4 delivered 4 duplicate 0 late 0 cut 0 shed 0\n\
    budget stamps 4 peak 4 refused 0\n\
    status 0\n";

const COOKED_ARP: [u8; 16] = [0, 0, 0, 1, 0, 6, 2, 0, 0, 0, 0, 1, 0, 0, 8, 6];

// A byte less than the header, IPv4, and ARP.
const OF_COOKED: [Record; 3] = [
    Record::Frame((4, 0), &[0, 0, 0, 1, 0, 6, 2, 0, 0, 0, 0, 1, 0, 0, 8], &[]),
    Record::Frame((1, 0), &COOKED, &PACKET),
    Record::Frame((6, 0), &COOKED_ARP, &PACKET),
];

const COOKED_2_CUT: [u8; 19] = [8, 0, 0, 0, 0, 0, 0, 1, 0, 1, 0, 6, 2, 0, 0, 0, 0, 1, 0];

// A fragment in front, and a byte less than the header behind, before it in time.
const OF_COOKED_2: [Record; 3] = [
    Record::Frame((1, 0), &COOKED_2, &OF_FRAGMENT),
    Record::Frame((3, 0), &COOKED_2, &PACKET),
    Record::Frame((2, 0), &COOKED_2_CUT, &[]),
];

// From ::1 to ::2: a header of a fragment, and one of hop-by-hop options, each behind that of IPv6.
const FRAGMENT_OF_IPV6: [u8; 48] = [
    0x60, 0, 0, 0, 0, 8, 44, 64, 0, 0, 0, 0, 0, 0, 0, 0, 0, 0, 0, 0, 0, 0, 0, 1, 0, 0, 0, 0, 0, 0,
    0, 0, 0, 0, 0, 0, 0, 0, 0, 2, 17, 0, 0, 1, 0, 0, 0, 1,
];

const HOPS: [u8; 48] = [
    0x60, 0, 0, 0, 0, 18, 0, 64, 0, 0, 0, 0, 0, 0, 0, 0, 0, 0, 0, 0, 0, 0, 0, 1, 0, 0, 0, 0, 0, 0,
    0, 0, 0, 0, 0, 0, 0, 0, 0, 2, 17, 0, 1, 4, 0, 0, 0, 0,
];

const DATAGRAM: [u8; 10] = [0x13, 0x88, 0, 0x35, 0, 10, 0, 0, 0x68, 0x69];

const OF_IPV6: [Record; 3] = [
    Record::Frame((1, 0), &FRAGMENT_OF_IPV6, &[]),
    Record::Frame((1, 0), &HOPS, &DATAGRAM),
    Record::Frame((9, 0), &[], &[]),
];

const DELIVERY_BETWEEN: &str = "new 2 udp 10.0.0.1 5000 10.0.0.2 53\n\
    data 2 > 0 0 0 0 6869\n\
    end 2 finish\n";

const DELIVERY_OF_IPV6: [&str; 3] = [
    "new 2 udp 0000:0000:0000:0000:0000:0000:0000:0001 5000 0000:0000:0000:0000:0000:0000:0000:0002 53\n",
    "data 2 > 0 0 0 0 6869\n",
    "end 2 finish\n",
];

// The report of one datagram of two bytes between two skipped records: its moment and that of the last record stand
// between the first three parts, the counts of records behind them.
const ANSWERED: &str = " +2@0:0\n\
    ans 2 1 .\n\
    end 2 ";

const ENDED: &str = " finish\n\
    ans 2 2 . ~2@1\n\
    ans 2 3 .\n\
    worker 0\n\
    from 0 3\n\
    dir 2 > 2 2 0 0 0 0 0 0\n\
    dir 2 < 0 0 0 0 0 0 0 0\n";

const TWO_BYTES: &str = "bytes payload 2 delivered 2 duplicate 0 late 0 cut 0 shed 0\n\
    budget stamps 2 peak 2 refused 0\n\
    status 0\n";

const REPORT_OF_COOKED: [&str; 7] = [
    FRONT,
    "seg 2 2 4000000000",
    ANSWERED,
    "6000000000",
    ENDED,
    "records 3 accepted 1 filtered 0 other 1 fragment 0 short 1\n",
    TWO_BYTES,
];

const REPORT_OF_COOKED_2: [&str; 7] = [
    FRONT,
    "seg 2 2 3000000000",
    ANSWERED,
    "3000000000",
    ENDED,
    "records 3 accepted 1 filtered 0 other 0 fragment 1 short 1\n",
    TWO_BYTES,
];

const REPORT_OF_IPV6: [&str; 7] = [
    FRONT,
    "seg 2 2 1000000000",
    ANSWERED,
    "9000000000",
    ENDED,
    "records 3 accepted 1 filtered 0 other 0 fragment 1 short 1\n",
    TWO_BYTES,
];

// At 2 s and 7 ns a byte of Ethernet, in the capture's order of bytes.
const BIG_AND_SHORT: [&[u8]; 2] = [
    &BIG,
    &[0, 0, 0, 2, 0, 0, 0, 7, 0, 0, 0, 1, 0, 0, 0, 1, 0x45],
];

const REPORT_OF_NANOSECONDS: &str = "scap report 1\n\
    cores 1 workers 1\n\
    core 0\n\
    seg 1 1 1000000005 +2@0:0\n\
    ans 1 1 .\n\
    end 1 2000000007 finish\n\
    ans 1 2 . ~2@1\n\
    ans 1 3 .\n\
    worker 0\n\
    from 0 3\n\
    dir 1 > 2 2 0 0 0 0 0 0\n\
    dir 1 < 0 0 0 0 0 0 0 0\n\
    records 2 accepted 1 filtered 0 other 0 fragment 0 short 1\n\
    bytes payload 2 delivered 2 duplicate 0 late 0 cut 0 shed 0\n\
    budget stamps 2 peak 2 refused 0\n\
    status 0\n";

const BETWEEN: [(Capture, Left, Left); 5] = [
    (
        Capture::Records(1, &AMONG),
        Left::Text(DELIVERY_AMONG),
        Left::Text(REPORT_AMONG),
    ),
    (
        Capture::Records(113, &OF_COOKED),
        Left::Text(DELIVERY_BETWEEN),
        Left::Joined(&REPORT_OF_COOKED),
    ),
    (
        Capture::Records(276, &OF_COOKED_2),
        Left::Text(DELIVERY_BETWEEN),
        Left::Joined(&REPORT_OF_COOKED_2),
    ),
    (
        Capture::Records(101, &OF_IPV6),
        Left::Joined(&DELIVERY_OF_IPV6),
        Left::Joined(&REPORT_OF_IPV6),
    ),
    (
        Capture::Joined(&BIG_AND_SHORT),
        Left::Text(DELIVERY),
        Left::Text(REPORT_OF_NANOSECONDS),
    ),
];

#[test]
fn skipped_records_stand_among_datagrams(rt: HostRuntime) -> Result<(), Fail> {
    expect_drills(&rt, rt.alloc(), &BETWEEN)
}
