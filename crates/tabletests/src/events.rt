// Events as lines.
use chunkpart::Chunk;
use evring::{Event, Reason, Way};
use prio_budget::PlainCharge;
use std::alloc::Global;
use std::test::Fail;
use streamkey::{Addr, End, Proto};
use textout::{put_count, put_dotted, put_hex, put_text};

/// The most bytes of a chunk that are written one by one where they are all the same.
const FEW: usize = 16;

fn word_of(reason: Reason) -> &'static str {
    match reason {
        Reason::Reset => "reset",
        Reason::Closed => "closed",
        Reason::Idle => "idle",
        Reason::Replaced => "replaced",
        Reason::Finish => "finish",
    }
}

fn proto_word(proto: Proto) -> &'static str {
    match proto {
        Proto::Tcp => " tcp",
        Proto::Udp => " udp",
    }
}

fn way_word(way: Way) -> &'static str {
    match way {
        Way::Fore => " >",
        Way::Back => " <",
    }
}

/// An address of version 4 and a port.
fn put_end(out: &mut Vec<u8>, end: &End) -> Result<(), Fail> {
    let Addr::V4(octets) = end.addr else {
        return Err("an address of version 6".into());
    };
    put_text(out, " ")?;
    put_dotted(out, octets)?;
    put_count(out, " ", u64::from(end.port))?;
    Ok(())
}

/// Bytes in hexadecimal digits; many that are all the same are their number and one of them.
fn put_bytes(out: &mut Vec<u8>, bytes: &[u8]) -> Result<(), Fail> {
    let same = bytes.windows(2).all(|pair| pair.first() == pair.last());
    match bytes.first() {
        Some(first) if same && bytes.len() > FEW => {
            put_count(out, "", bytes.len() as u64)?;
            put_text(out, "*")?;
            put_hex(out, &[*first])?;
        }
        _ => put_hex(out, bytes)?,
    }
    Ok(())
}

/// How many bytes chunks show, their copies included.
fn shown_len(chunks: &[Chunk<PlainCharge>]) -> u64 {
    let mut len: u64 = 0;
    for chunk in chunks {
        len = len
            .saturating_add(chunk.tail_len())
            .saturating_add(chunk.fresh_len());
    }
    len
}

/// Start, gap, copy, kept bytes, and bytes of a chunk.
fn put_chunk(
    alloc: Global,
    out: &mut Vec<u8>,
    kept: &[Chunk<PlainCharge>],
    chunk: &Chunk<PlainCharge>,
) -> Result<(), Fail> {
    let mut shown = Vec::new(alloc);
    if chunk.shown(&mut shown).is_err() {
        return Err("shown: out of memory".into());
    }
    put_count(out, " ", chunk.start())?;
    put_count(out, " ", chunk.gap())?;
    put_count(out, " ", chunk.tail_len())?;
    put_count(out, " ", shown_len(kept))?;
    put_text(out, " ")?;
    put_bytes(out, shown.as_slice())
}

/// The line of an event.
pub(crate) fn put_event(
    alloc: Global,
    out: &mut Vec<u8>,
    event: &Event<PlainCharge>,
) -> Result<(), Fail> {
    match event {
        Event::New {
            conv,
            proto,
            source,
            target,
        } => {
            put_count(out, "new ", u64::from(*conv))?;
            put_text(out, proto_word(*proto))?;
            put_end(out, source)?;
            put_end(out, target)?;
        }
        Event::Chunk {
            conv,
            way,
            kept,
            chunk,
            ..
        } => {
            put_count(out, "data ", u64::from(*conv))?;
            put_text(out, way_word(*way))?;
            put_chunk(alloc, out, kept.as_slice(), chunk)?;
        }
        Event::Ended { conv, reason } => {
            put_count(out, "end ", u64::from(*conv))?;
            put_text(out, " ")?;
            put_text(out, word_of(*reason))?;
        }
    }
    put_text(out, "\n")?;
    Ok(())
}
