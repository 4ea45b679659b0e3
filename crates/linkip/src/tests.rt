ghost use Rattle.std.specs.Prelude.{◌^◌, ◌<◌, length};

use crate::{Net, network};
use pcapfile::Link;
use std::alloc::{AllocError, Global};
use std::test::Fail;
use streamkey::Addr;

const STATIONS: &[u8] = &[2, 0, 0, 0, 0, 2, 2, 0, 0, 0, 0, 1];

const TO_IPV4: &[u8] = &[0x08, 0x00];

const TO_IPV6: &[u8] = &[0x86, 0xdd];

const TO_ARP: &[u8] = &[0x08, 0x06];

const TAG: &[u8] = &[0x81, 0x00, 0, 5];

const SERVICE_TAG: &[u8] = &[0x88, 0xa8, 0, 6];

/// Any content, with what would be an EtherType at 0 and 12.
const FOURTEEN: &[u8] = &[0x86, 0xdd, 3, 4, 0, 6, 2, 0, 0, 0, 0, 1, 0x86, 0xdd];

const EIGHTEEN: &[u8] = &[
    1, 2, 3, 4, 5, 6, 7, 8, 9, 10, 11, 12, 0x86, 0xdd, 0x81, 0, 7, 7,
];

/// From 10.0.0.1 to 10.0.0.2, UDP, with 10 bytes behind the header.
const ADDRESSES: &[u8] = &[10, 0, 0, 1, 10, 0, 0, 2];

const IPV4: &[u8] = &[0x45, 0, 0, 30, 0, 0, 0, 0, 64, 17, 0, 0];

const IPV4_OPTIONS: &[u8] = &[0x46, 0, 0, 34, 0, 0, 0x40, 0, 64, 6, 0, 0];

const IPV4_MORE: &[u8] = &[0x45, 0, 0, 30, 0, 0, 0x20, 0, 64, 17, 0, 0];

const IPV4_LATER: &[u8] = &[0x45, 0, 0, 30, 0, 0, 0x00, 1, 64, 17, 0, 0];

const IPV4_ICMP: &[u8] = &[0x45, 0, 0, 30, 0, 0, 0, 0, 64, 1, 0, 0];

const IPV4_ICMP_MORE: &[u8] = &[0x45, 0, 0, 30, 0, 0, 0x20, 0, 64, 1, 0, 0];

const IPV4_WORDS_4: &[u8] = &[0x44, 0, 0, 30, 0, 0, 0, 0, 64, 17, 0, 0];

const IPV4_VERSION_6: &[u8] = &[0x65, 0, 0, 30, 0, 0, 0, 0, 64, 17, 0, 0];

const IPV4_TOTAL_19: &[u8] = &[0x45, 0, 0, 19, 0, 0, 0x20, 0, 64, 1, 0, 0];

const IPV4_TOTAL_21: &[u8] = &[0x45, 0, 0, 21, 0, 0, 0, 0, 64, 6, 0, 0];

const IPV4_TOTAL_0: &[u8] = &[0x45, 0, 0, 0, 0, 0, 0, 0, 64, 17, 0, 0];

const IPV4_TOTAL_99: &[u8] = &[0x45, 0, 0, 99, 0, 0, 0, 0, 64, 17, 0, 0];

/// From ::1 to ::2.
const ENDS: &[u8] = &[
    0, 0, 0, 0, 0, 0, 0, 0, 0, 0, 0, 0, 0, 0, 0, 1, 0, 0, 0, 0, 0, 0, 0, 0, 0, 0, 0, 0, 0, 0, 0, 2,
];

const IPV6_OPTIONS: &[u8] = &[0x60, 0, 0, 0, 0, 18, 0, 64];

const IPV6_TCP: &[u8] = &[0x60, 0, 0, 0, 0, 18, 6, 64];

const IPV6_NONE: &[u8] = &[0x60, 0, 0, 0, 0, 18, 59, 64];

const IPV6_FRAGMENT: &[u8] = &[0x60, 0, 0, 0, 0, 18, 44, 64];

const IPV6_FRAGMENT_OF_7: &[u8] = &[0x60, 0, 0, 0, 0, 7, 44, 64];

const IPV6_ROUTING: &[u8] = &[0x60, 0, 0, 0, 0, 34, 43, 64];

const IPV6_OPTIONS_OF_7: &[u8] = &[0x60, 0, 0, 0, 0, 7, 0, 64];

const IPV6_VERSION_4: &[u8] = &[0x40, 0, 0, 0, 0, 18, 0, 64];

const IPV6_OF_0: &[u8] = &[0x60, 0, 0, 0, 0, 0, 0, 64];

const UDP_NEXT: &[u8] = &[17, 0, 1, 4, 0, 0, 0, 0];

const FRAGMENT_NEXT: &[u8] = &[44, 0, 1, 4, 0, 0, 0, 0];

const NONE_NEXT: &[u8] = &[59, 0, 1, 4, 0, 0, 0, 0];

const DESTINATION_NEXT: &[u8] = &[60, 1, 1, 4, 0, 0, 0, 0, 0, 0, 0, 0, 0, 0, 0, 0];

const DATAGRAM: &[u8] = &[0x13, 0x88, 0, 53, 0, 10, 0, 0, 0x68, 0x69];

const PADDING: &[u8] = &[0, 0, 0];

/// More bytes than any frame here has.
const NEVER: usize = 1000;

fn joined(alloc: Global, parts: &[&[u8]]) -> Result<Vec<u8>, AllocError> {
    let mut bytes = Vec::new(alloc);
    for part in parts {
        bytes.extend_from_slice(part)?;
    }
    Ok(bytes)
}

/// At most so many of the first bytes.
fn front(frame: &[u8], most: usize) -> &[u8]
    ensures { length result.now < 2 ^ 32 }
{
    &frame[..most.min(frame.len()).min(NEVER)]
}

#[derive(Clone, Copy, Debug, PartialEq, Eq)]
enum Kind {
    /// The declared length, and the length of the body.
    Ip(u32, usize),
    Fragment,
    Other,
    Short,
}

fn kind_of(net: Net<'_>) -> Kind {
    match net {
        Net::Ip { declared, body, .. } => Kind::Ip(declared, body.len()),
        Net::Fragment => Kind::Fragment,
        Net::Other => Kind::Other,
        Net::Short => Kind::Short,
    }
}

/// A frame is short where it is cut before `least` bytes, and what `want` says from there on, with what was captured
/// behind `least` as its body, but for padding.
fn kind_cut_at(cut: usize, least: usize, want: Kind) -> Kind {
    match want {
        Kind::Ip(declared, _) if least <= cut => {
            Kind::Ip(declared, (cut - least).min(declared as usize))
        }
        kind if least <= cut => kind,
        _ => Kind::Short,
    }
}

/// Cuts the frame of these parts at every length.
fn is_cut_as_wanted(
    alloc: Global,
    link: Link,
    parts: &[&[u8]],
    least: usize,
    want: Kind,
) -> Result<bool, AllocError> {
    let frame = joined(alloc, parts)?;
    for cut in 0..=frame.len() {
        if kind_of(network(link, front(&frame, cut))) != kind_cut_at(cut, least, want) {
            return Ok(false);
        }
    }
    Ok(true)
}

#[test]
fn frames_of_links_cut_at_every_length(rt: HostRuntime) -> Result<(), Fail> {
    let ip = Kind::Ip(10, 0);
    let rows: [(Link, &[&[u8]], usize, Kind); 11] = [
        (
            Link::Ethernet,
            &[STATIONS, TO_IPV4, IPV4, ADDRESSES, DATAGRAM, PADDING],
            34,
            ip,
        ),
        (
            Link::Ethernet,
            &[STATIONS, TAG, TO_IPV4, IPV4, ADDRESSES, DATAGRAM],
            38,
            ip,
        ),
        (
            Link::Ethernet,
            &[
                STATIONS,
                TAG,
                SERVICE_TAG,
                TO_IPV4,
                IPV4,
                ADDRESSES,
                DATAGRAM,
            ],
            42,
            ip,
        ),
        (
            Link::Ethernet,
            &[STATIONS, TAG, SERVICE_TAG, TAG, TO_IPV4, IPV4, ADDRESSES],
            22,
            Kind::Other,
        ),
        (
            Link::Ethernet,
            &[STATIONS, SERVICE_TAG, TO_ARP, IPV4],
            18,
            Kind::Other,
        ),
        (Link::Ethernet, &[STATIONS, TO_ARP, IPV4], 14, Kind::Other),
        (
            Link::Cooked,
            &[FOURTEEN, TO_IPV4, IPV4, ADDRESSES, DATAGRAM],
            36,
            ip,
        ),
        (
            Link::Cooked2,
            &[TO_IPV4, EIGHTEEN, IPV4, ADDRESSES, DATAGRAM],
            40,
            ip,
        ),
        (
            Link::Cooked2,
            &[TO_IPV6, EIGHTEEN, IPV6_OPTIONS, ENDS, UDP_NEXT, DATAGRAM],
            68,
            ip,
        ),
        (Link::Raw, &[IPV4, ADDRESSES, DATAGRAM, PADDING], 20, ip),
        (Link::Raw, &[&[0x55], IPV4, ADDRESSES], 1, Kind::Other),
    ];
    for (link, parts, least, want) in rows {
        assert!(rt;
            is_cut_as_wanted(rt.alloc(), link, parts, least, want)?,
            "{least} {want:?}"
        );
    }
    Ok(())
}

#[test]
fn packets_cut_at_every_length(rt: HostRuntime) -> Result<(), Fail> {
    let rows: [(&[&[u8]], usize, Kind); 12] = [
        (
            &[IPV4_OPTIONS, ADDRESSES, &[1, 1, 1, 0], DATAGRAM],
            24,
            Kind::Ip(10, 0),
        ),
        (&[IPV4_TOTAL_21, ADDRESSES, DATAGRAM], 20, Kind::Ip(1, 0)),
        (&[IPV4_TOTAL_99, ADDRESSES, DATAGRAM], 20, Kind::Ip(79, 0)),
        (&[IPV4_MORE, ADDRESSES, DATAGRAM], 20, Kind::Fragment),
        (&[IPV4_LATER, ADDRESSES, DATAGRAM], 20, Kind::Fragment),
        (&[IPV4_ICMP_MORE, ADDRESSES, DATAGRAM], 20, Kind::Fragment),
        (&[IPV4_ICMP, ADDRESSES, DATAGRAM], 20, Kind::Other),
        (&[IPV4_WORDS_4, ADDRESSES, DATAGRAM], NEVER, Kind::Short),
        (&[IPV4_TOTAL_19, ADDRESSES, DATAGRAM], NEVER, Kind::Short),
        (&[IPV6_TCP, ENDS, DATAGRAM, DATAGRAM], 40, Kind::Ip(18, 0)),
        (&[IPV6_NONE, ENDS, DATAGRAM, DATAGRAM], 40, Kind::Other),
        (
            &[IPV6_FRAGMENT, ENDS, UDP_NEXT, DATAGRAM],
            48,
            Kind::Fragment,
        ),
    ];
    for (parts, least, want) in rows {
        assert!(rt;
            is_cut_as_wanted(rt.alloc(), Link::Raw, parts, least, want)?,
            "{least} {want:?}"
        );
    }
    Ok(())
}

#[test]
fn chains_cut_at_every_length(rt: HostRuntime) -> Result<(), Fail> {
    let rows: [(&[&[u8]], usize, Kind); 7] = [
        (
            &[IPV6_OPTIONS, ENDS, UDP_NEXT, DATAGRAM, PADDING],
            48,
            Kind::Ip(10, 0),
        ),
        (
            &[
                IPV6_ROUTING,
                ENDS,
                DESTINATION_NEXT,
                UDP_NEXT,
                DATAGRAM,
                PADDING,
            ],
            64,
            Kind::Ip(10, 0),
        ),
        (
            &[IPV6_OPTIONS, ENDS, FRAGMENT_NEXT, DATAGRAM],
            56,
            Kind::Fragment,
        ),
        (&[IPV6_OPTIONS, ENDS, NONE_NEXT, DATAGRAM], 48, Kind::Other),
        (
            &[IPV6_OPTIONS, ENDS, DESTINATION_NEXT, DATAGRAM],
            NEVER,
            Kind::Short,
        ),
        (
            &[IPV6_OPTIONS_OF_7, ENDS, UDP_NEXT, DATAGRAM],
            NEVER,
            Kind::Short,
        ),
        (
            &[IPV6_FRAGMENT_OF_7, ENDS, UDP_NEXT, DATAGRAM],
            NEVER,
            Kind::Short,
        ),
    ];
    for (parts, least, want) in rows {
        assert!(rt;
            is_cut_as_wanted(rt.alloc(), Link::Raw, parts, least, want)?,
            "{least} {want:?}"
        );
    }
    Ok(())
}

#[test]
fn answers_tell_addresses_and_lend_the_body(rt: HostRuntime) -> Result<(), Fail> {
    let first = Addr::V4([10, 0, 0, 1]);
    let second = Addr::V4([10, 0, 0, 2]);
    let newer_first = Addr::V6([0, 0, 0, 0, 0, 0, 0, 0, 0, 0, 0, 0, 0, 0, 0, 1]);
    let newer_second = Addr::V6([0, 0, 0, 0, 0, 0, 0, 0, 0, 0, 0, 0, 0, 0, 0, 2]);
    let rows: [(Link, &[&[u8]], u8, Addr, Addr, u32, &[u8]); 7] = [
        (
            Link::Cooked,
            &[FOURTEEN, TO_IPV4, IPV4, ADDRESSES, DATAGRAM, PADDING],
            17,
            first,
            second,
            10,
            DATAGRAM,
        ),
        (
            Link::Cooked2,
            &[TO_IPV4, EIGHTEEN, IPV4, ADDRESSES, DATAGRAM],
            17,
            first,
            second,
            10,
            DATAGRAM,
        ),
        (
            Link::Ethernet,
            &[
                STATIONS,
                TAG,
                SERVICE_TAG,
                TO_IPV4,
                IPV4_OPTIONS,
                ADDRESSES,
                &[1, 1, 1, 0],
                DATAGRAM,
            ],
            6,
            first,
            second,
            10,
            DATAGRAM,
        ),
        (
            Link::Raw,
            &[IPV4_TOTAL_0, ADDRESSES, DATAGRAM],
            17,
            first,
            second,
            10,
            DATAGRAM,
        ),
        (
            Link::Raw,
            &[IPV4_TOTAL_99, ADDRESSES, DATAGRAM],
            17,
            first,
            second,
            79,
            DATAGRAM,
        ),
        (
            Link::Raw,
            &[IPV6_OPTIONS, ENDS, UDP_NEXT, DATAGRAM, PADDING],
            17,
            newer_first,
            newer_second,
            10,
            DATAGRAM,
        ),
        (
            Link::Raw,
            &[IPV6_OF_0, ENDS, UDP_NEXT, DATAGRAM],
            17,
            newer_first,
            newer_second,
            10,
            DATAGRAM,
        ),
    ];
    for (link, parts, proto, source, target, declared, body) in rows {
        let frame = joined(rt.alloc(), parts)?;
        let want = Net::Ip {
            proto,
            source,
            target,
            declared,
            body,
        };
        assert!(rt;
            network(link, front(&frame, NEVER)) == want,
            "{link:?} {declared}"
        );
    }
    let other_version = joined(
        rt.alloc(),
        &[STATIONS, TO_IPV6, IPV6_VERSION_4, ENDS, UDP_NEXT],
    )?;
    assert!(rt; network(Link::Ethernet, front(&other_version, NEVER)) == Net::Short);
    let older_version = joined(
        rt.alloc(),
        &[STATIONS, TO_IPV4, IPV4_VERSION_6, ADDRESSES, DATAGRAM],
    )?;
    assert!(rt; network(Link::Ethernet, front(&older_version, NEVER)) == Net::Short);
    Ok(())
}
