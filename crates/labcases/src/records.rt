use pcapfile::{Memory, put_frame};
use std::alloc::Global;

/// The stations of an Ethernet frame.
pub const STATIONS: [u8; 12] = [2, 0, 0, 0, 0, 2, 2, 0, 0, 0, 0, 1];

/// The header of an Ethernet frame that carries IPv4.
pub const ETHERNET: [u8; 14] = [2, 0, 0, 0, 0, 2, 2, 0, 0, 0, 0, 1, 8, 0];

/// The headers of Linux cooked captures that carry IPv4, in the first version and in the second.
pub const COOKED: [u8; 16] = [0, 0, 0, 1, 0, 6, 2, 0, 0, 0, 0, 1, 0, 0, 8, 0];

pub const COOKED_2: [u8; 20] = [8, 0, 0, 0, 0, 0, 0, 1, 0, 1, 0, 6, 2, 0, 0, 0, 0, 1, 0, 0];

/// The packet of the capture of one record.
pub const PACKET: [u8; 30] = [
    0x45, 0x00, 0x00, 0x1e, 0x00, 0x00, 0x00, 0x00, 0x40, 0x11, 0x00, 0x00, 0x0a, 0x00, 0x00, 0x01,
    0x0a, 0x00, 0x00, 0x02, 0x13, 0x88, 0x00, 0x35, 0x00, 0x0a, 0x00, 0x00, 0x68, 0x69,
];

/// The control bits of a segment that opens, and of one that carries bytes.
pub const SYN: u8 = 0x02;

pub const ACK: u8 = 0x10;

// The most bytes that a record may have.
const LONGEST: usize = 262_144;

/// A record of a capture, as data. An end is the last byte of its address, 10.0.0.0 to 10.0.0.255, and its port.
#[derive(Clone, Copy)]
pub enum Record<'a> {
    /// A datagram over Ethernet and IPv4 at that second: source, target and payload.
    Datagram(u32, (u8, u16), (u8, u16), &'a [u8]),
    /// In the same way a segment of TCP with sequence number 1,000: source, target, control bits and payload.
    Segment(u32, (u8, u16), (u8, u16), u8, &'a [u8]),
    /// A frame at that second and microsecond: a header, and what stands behind it.
    Frame((u32, u32), &'a [u8], &'a [u8]),
    /// Bytes that stand in place of a record.
    Bytes(&'a [u8]),
}

/// Appends records.
pub fn put_records(capture: &mut Vec<u8>, alloc: Global, records: &[Record]) -> Result<(), Memory> {
    for record in records {
        put_record(capture, alloc, record)?;
    }
    Ok(())
}

fn put_record(capture: &mut Vec<u8>, alloc: Global, record: &Record) -> Result<(), Memory> {
    let mut frame = Vec::new(alloc);
    match record {
        Record::Datagram(second, source, target, payload) => {
            put_datagram(&mut frame, *source, *target, payload)?;
            put_whole(capture, (*second, 0), &frame)
        }
        Record::Segment(second, source, target, bits, payload) => {
            put_segment(&mut frame, *source, *target, *bits, payload)?;
            put_whole(capture, (*second, 0), &frame)
        }
        Record::Frame(moment, header, packet) => {
            frame.extend_from_slice(header)?;
            frame.extend_from_slice(packet)?;
            put_whole(capture, *moment, &frame)
        }
        Record::Bytes(bytes) => {
            capture.extend_from_slice(bytes)?;
            Ok(())
        }
    }
}

/// Appends a frame as a record; one that is longer than a record may be is left out.
fn put_whole(capture: &mut Vec<u8>, moment: (u32, u32), frame: &[u8]) -> Result<(), Memory> {
    if frame.len() <= LONGEST {
        put_frame(capture, moment.0, moment.1, frame)?;
    }
    Ok(())
}

fn put_datagram(
    frame: &mut Vec<u8>,
    source: (u8, u16),
    target: (u8, u16),
    payload: &[u8],
) -> Result<(), Memory> {
    put_headers(frame, 17, source, target, 8 + payload.len())?;
    frame.extend_from_slice(&length_of(8 + payload.len()))?;
    frame.extend_from_slice(&[0, 0])?;
    frame.extend_from_slice(payload)?;
    Ok(())
}

fn put_segment(
    frame: &mut Vec<u8>,
    source: (u8, u16),
    target: (u8, u16),
    bits: u8,
    payload: &[u8],
) -> Result<(), Memory> {
    put_headers(frame, 6, source, target, 20 + payload.len())?;
    frame.extend_from_slice(&[
        0, 0, 3, 0xe8, 0, 0, 0, 0, 0x50, bits, 0xff, 0xff, 0, 0, 0, 0,
    ])?;
    frame.extend_from_slice(payload)?;
    Ok(())
}

/// Appends the headers of Ethernet and IPv4 in front of so many bytes of that protocol, and both ports.
fn put_headers(
    frame: &mut Vec<u8>,
    protocol: u8,
    source: (u8, u16),
    target: (u8, u16),
    behind: usize,
) -> Result<(), Memory> {
    let total = length_of(behind.saturating_add(20));
    frame.extend_from_slice(&ETHERNET)?;
    frame.extend_from_slice(&[
        0x45, 0, total[0], total[1], 0, 0, 0, 0, 0x40, protocol, 0, 0,
    ])?;
    frame.extend_from_slice(&[10, 0, 0, source.0, 10, 0, 0, target.0])?;
    frame.extend_from_slice(&source.1.to_be_bytes())?;
    frame.extend_from_slice(&target.1.to_be_bytes())?;
    Ok(())
}

/// A length as it stands in a header.
fn length_of(len: usize) -> [u8; 2] {
    (len.min(65_535) as u16).to_be_bytes()
}
