// Packets of a capture.
use crate::steps::{Bytes, Ends};
use std::alloc::Global;
use std::test::Fail;
use streamkey::{Addr, End, Key, Packet};

/// The control bits of a TCP header.
fn bits(flags: &str) -> u8 {
    match flags {
        "F" => 1,
        "S" => 2,
        "R" => 4,
        _ => 0,
    }
}

/// A text written over and over, so many bytes of it.
fn filled(alloc: Global, bytes: Bytes<'_>) -> Result<Vec<u8>, Fail> {
    let (text, len) = bytes;
    let mut out = Vec::new(alloc);
    for &byte in text.as_bytes().iter().cycle().take(len) {
        out.push(byte)?;
    }
    Ok(out)
}

/// The two ends of a key.
fn ends_of(ends: Ends) -> (End, End) {
    let (_, low, high) = ends;
    let client = End {
        addr: Addr::V4([10, 0, 0, 1]),
        port: low,
    };
    let server = End {
        addr: Addr::V4([10, 0, 0, 2]),
        port: high,
    };
    (client, server)
}

/// A packet from 10.0.0.1 to 10.0.0.2, or the other way.
pub(crate) fn packet(
    alloc: Global,
    number: u32,
    ends: Ends,
    up: bool,
    now: u64,
    seq: u32,
    flags: &str,
    bytes: Bytes<'_>,
) -> Result<Packet, Fail> {
    let (client, server) = ends_of(ends);
    let (source, target) = if up {
        (client, server)
    } else {
        (server, client)
    };
    let (key, toward) = Key::of(ends.0, source, target);
    let text = filled(alloc, bytes)?;
    let payload = text.as_slice();
    if number < 1 || number > 4_194_304 || now > 1 << 62 || payload.len() > 262_144 {
        return Err("no packet of a capture".into());
    }
    let declared = payload.len() as u32;
    match Packet::copy(
        alloc,
        number,
        now,
        key,
        toward,
        seq,
        bits(flags),
        declared,
        payload,
    ) {
        Ok(packet) => Ok(packet),
        Err(_) => Err("packet: out of memory".into()),
    }
}
