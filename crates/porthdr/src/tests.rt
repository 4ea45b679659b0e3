ghost use Rattle.std.specs.Prelude.{◌^◌, ◌<◌, ◌≤◌, length};
ghost use Rattle.linkip.specs.Carried.{IsWithinDeclared};
ghost use Rattle.linkip.specs.Views.{carried};

use crate::{Seen, Skip, transport};
use linkip::{Net, network};
use pcapfile::Link;
use std::alloc::{AllocError, Global};
use std::test::Fail;
use streamkey::{Addr, End, Key, Proto, Toward};

/// From port 40000 to port 80, sequence number 0xfffffffe, SYN and ACK, with a header of five words.
const PORTS: &[u8] = &[0x9c, 0x40, 0, 80, 0xff, 0xff, 0xff, 0xfe, 0, 0, 0, 7];

const WORDS_5: &[u8] = &[0x50, 0x12, 0x20, 0, 0, 0, 0, 0];

const WORDS_4: &[u8] = &[0x40, 0x12, 0x20, 0, 0, 0, 0, 0];

const WORDS_8: &[u8] = &[0x8f, 0x12, 0x20, 0, 0, 0, 0, 0];

const WORDS_15: &[u8] = &[0xf0, 0x12, 0x20, 0, 0, 0, 0, 0];

const TWELVE: &[u8] = &[1, 1, 1, 1, 1, 1, 1, 1, 1, 1, 1, 0];

/// From port 5000 to port 53, with these lengths.
const UDP_0: &[u8] = &[0x13, 0x88, 0, 53, 0, 0, 0, 0];

const UDP_1: &[u8] = &[0x13, 0x88, 0, 53, 0, 1, 0, 0];

const UDP_7: &[u8] = &[0x13, 0x88, 0, 53, 0, 7, 0, 0];

const UDP_8: &[u8] = &[0x13, 0x88, 0, 53, 0, 8, 0, 0];

const UDP_10: &[u8] = &[0x13, 0x88, 0, 53, 0, 10, 0, 0];

const UDP_41: &[u8] = &[0x13, 0x88, 0, 53, 0, 41, 0, 0];

const TEN: &[u8] = &[0, 1, 2, 3, 4, 5, 6, 7, 8, 9];

const EIGHT: &[u8] = &[0, 1, 2, 3, 4, 5, 6, 7];

/// More bytes than any frame here has.
const NEVER: usize = 1000;

const FIRST: Addr = Addr::V4([10, 0, 0, 1]);

const SECOND: Addr = Addr::V4([10, 0, 0, 2]);

fn joined(alloc: Global, parts: &[&[u8]]) -> Result<Vec<u8>, AllocError> {
    let mut bytes = Vec::new(alloc);
    for part in parts {
        bytes.extend_from_slice(part)?;
    }
    Ok(bytes)
}

/// At most so many of the first bytes.
fn front(frame: &[u8], most: usize) -> &[u8]
    ensures small { length result.now < 2 ^ 32 }
    ensures most { length result.now ≤ most }
{
    &frame[..most.min(frame.len()).min(NEVER)]
}

/// The declared length of an accepted payload and how much of it was captured, or why there is none.
fn told(net: Net<'_>) -> Result<(u32, usize), Skip>
    requires { IsWithinDeclared (carried net) }
{
    match transport(net) {
        Seen::Accepted {
            declared,
            payload,
            ..
        } => Ok((declared, payload.len())),
        Seen::Skipped(skip) => Err(skip),
    }
}

/// What a body of 40 declared bytes is to be where it is cut: short before `least` bytes, and else accepted, with these
/// declared for the payload behind `least`.
fn told_at(cut: usize, least: usize, declared: u32) -> Result<(u32, usize), Skip> {
    if cut < least {
        Err(Skip::Short)
    } else {
        Ok((declared, (cut - least).min(declared as usize)))
    }
}

#[test]
fn bodies_cut_at_every_length(rt: HostRuntime) -> Result<(), Fail> {
    let rows: [(u8, &[&[u8]], usize, u32); 10] = [
        (6, &[PORTS, WORDS_5, TEN], 20, 20),
        (6, &[PORTS, WORDS_8, TWELVE, EIGHT], 32, 8),
        (6, &[PORTS, WORDS_4, TEN, TEN], NEVER, 0),
        (6, &[PORTS, WORDS_15, TEN, TEN], NEVER, 0),
        (17, &[UDP_10, TEN, TEN], 8, 2),
        (17, &[UDP_8, TEN, TEN], 8, 0),
        (17, &[UDP_0, TEN, TEN, TEN], 8, 32),
        (17, &[UDP_41, TEN, TEN, TEN], 8, 32),
        (17, &[UDP_7, TEN], NEVER, 0),
        (17, &[UDP_1, TEN], NEVER, 0),
    ];
    for (proto, parts, least, payload) in rows {
        let bytes = joined(rt.alloc(), parts)?;
        for cut in 0..=bytes.len().min(40) {
            let net = Net::Ip {
                proto,
                source: FIRST,
                target: SECOND,
                declared: 40,
                body: front(&bytes, cut.min(40)),
            };
            assert_eq!(rt;
                told(net),
                told_at(cut, least, payload),
                "{proto} {least} {cut}"
            );
        }
    }
    Ok(())
}

#[test]
fn skips_have_their_kind(rt: HostRuntime) {
    assert_eq!(rt; told(Net::Fragment), Err(Skip::Fragment));
    assert_eq!(rt; told(Net::Other), Err(Skip::Other));
    assert_eq!(rt; told(Net::Short), Err(Skip::Short));
    let icmp = Net::Ip {
        proto: 1,
        source: FIRST,
        target: SECOND,
        declared: 40,
        body: front(TEN, 40),
    };
    assert_eq!(rt; told(icmp), Err(Skip::Other));
}

#[test]
fn segments_and_datagrams_are_told_whole(rt: HostRuntime) -> Result<(), Fail> {
    let client = End {
        addr: FIRST,
        port: 40_000,
    };
    let server = End {
        addr: SECOND,
        port: 80,
    };
    let segment = joined(rt.alloc(), &[PORTS, WORDS_5, TEN])?;
    let up = Net::Ip {
        proto: 6,
        source: FIRST,
        target: SECOND,
        declared: 1000,
        body: front(&segment, NEVER),
    };
    let (pages, _) = Key::of(Proto::Tcp, client, server);
    let told = Seen::Accepted {
        key: pages,
        toward: Toward::Up,
        seq: 0xffff_fffe,
        flags: 0x12,
        declared: 980,
        payload: TEN,
    };
    assert!(rt; transport(up) == told);
    let datagram = joined(rt.alloc(), &[UDP_10, TEN])?;
    let down = Net::Ip {
        proto: 17,
        source: SECOND,
        target: FIRST,
        declared: 1000,
        body: front(&datagram, NEVER),
    };
    let asker = End {
        addr: SECOND,
        port: 5000,
    };
    let names = End {
        addr: FIRST,
        port: 53,
    };
    let (asked, _) = Key::of(Proto::Udp, asker, names);
    let told = Seen::Accepted {
        key: asked,
        toward: Toward::Down,
        seq: 0,
        flags: 0,
        declared: 2,
        payload: &[0, 1],
    };
    assert!(rt; transport(down) == told);
    Ok(())
}

const STATIONS: &[u8] = &[2, 0, 0, 0, 0, 2, 2, 0, 0, 0, 0, 1];

const PACKET: &[u8] = &[
    0x45, 0, 0, 30, 0, 0, 0, 0, 64, 17, 0, 0, 10, 0, 0, 1, 10, 0, 0, 2, 0x13, 0x88, 0, 53, 0, 10,
    0, 0, 0x68, 0x69,
];

const PACKET6: &[u8] = &[
    0x60, 0, 0, 0, 0, 18, 0, 64, 0, 0, 0, 0, 0, 0, 0, 0, 0, 0, 0, 0, 0, 0, 0, 1, 0, 0, 0, 0, 0, 0,
    0, 0, 0, 0, 0, 0, 0, 0, 0, 2, 17, 0, 1, 4, 0, 0, 0, 0, 0x13, 0x88, 0, 53, 0, 10, 0, 0, 0x68,
    0x69,
];

#[test]
fn frames_of_every_link_are_accepted(rt: HostRuntime) -> Result<(), Fail> {
    let rows: [(Link, &[&[u8]], Result<(u32, usize), Skip>); 7] = [
        (Link::Ethernet, &[STATIONS, &[0x08, 0], PACKET], Ok((2, 2))),
        (
            Link::Ethernet,
            &[
                STATIONS,
                &[0x81, 0, 0, 5, 0x88, 0xa8, 0, 6, 0x08, 0],
                PACKET,
            ],
            Ok((2, 2)),
        ),
        (
            Link::Ethernet,
            &[
                STATIONS,
                &[0x81, 0, 0, 5, 0x88, 0xa8, 0, 6, 0x81, 0, 0, 7, 0x08, 0],
                PACKET,
            ],
            Err(Skip::Other),
        ),
        (
            Link::Cooked,
            &[STATIONS, &[9, 9, 0x08, 0], PACKET],
            Ok((2, 2)),
        ),
        (
            Link::Cooked2,
            &[&[0x08, 0, 1, 2, 3, 4, 5, 6], STATIONS, PACKET],
            Ok((2, 2)),
        ),
        (Link::Raw, &[PACKET], Ok((2, 2))),
        (Link::Raw, &[PACKET6], Ok((2, 2))),
    ];
    for (link, parts, want) in rows {
        let frame = joined(rt.alloc(), parts)?;
        let net = network(link, front(&frame, NEVER));
        assert_eq!(rt; told(net), want, "{link:?}");
    }
    Ok(())
}
