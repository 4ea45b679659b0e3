ghost use Rattle.std.specs.Prelude.{◌≡◌, ◌<◌, ◌^◌, length};

use crate::{Chunk, Memory};
use prio_budget::{Charge, Part, PartBytes, PlainCharge};
use std::alloc::Global;
use std::test::Fail;

/// What a grant left, for tests of chunks alone.
#[derive(Debug, PartialEq, Eq, Drop)]
struct Granted {
    amount: u32,
    stamp: u32,
}

impl Charge for Granted {
    ghost use Rattle.prio_budget.specs.Share.{no_share};

    ghost amount = { λ c. c.amount };

    ghost stamp = { λ c. c.stamp };

    ghost share = { λ _. no_share };

    fn amount(&self) -> u32 {
        self.amount
    }

    fn stamp(&self) -> u32 {
        self.stamp
    }
}

/// A part of these bytes, granted at that stamp.
fn part(alloc: Global, bytes: &[u8], stamp: u32) -> Result<Part<Granted>, Fail> {
    let amount = u32::try_from(bytes.len()).map_err(|_| "too many bytes")?;
    let bytes = PartBytes::of(bytes.to_vec(alloc)?);
    Ok(Part::new(bytes, Granted { amount, stamp }))
}

fn put<C: Charge>(chunk: &mut Chunk<C>, part: Part<C>) -> Result<(), Fail> {
    if chunk.fresh_len() > 1_000_000 || part.bytes().len() > 1_000_000 {
        return Err("too many bytes".into());
    }
    chunk.append(part).map_err(|_| "the part came back")?;
    Ok(())
}

fn take<C: Charge>(chunk: &mut Chunk<C>) -> Result<(PartBytes, C), Fail> {
    let part = chunk.take_part().ok_or("no part is left")?;
    Ok(part.unpack())
}

/// A copy of these bytes with the stamp 7, none where there are none.
fn copy_of(alloc: Global, bytes: &str) -> Result<Option<Part<Granted>>, Fail> {
    if bytes.is_empty() {
        return Ok(None);
    }
    Ok(Some(part(alloc, bytes.as_bytes(), 7)?))
}

/// A chunk of that copy and of fresh parts, each ended by a bar, with the stamps 8, 9 and so on.
fn chunk_of(
    alloc: Global,
    start: u64,
    gap: u64,
    copy: &str,
    fresh: &str,
) -> Result<Chunk<Granted>, Fail> {
    let mut chunk = Chunk::new(alloc, start, gap, copy_of(alloc, copy)?);
    let mut bytes = Vec::new(alloc);
    let mut stamp: u32 = 8;
    for byte in fresh.bytes() {
        if byte == b'|' {
            put(&mut chunk, part(alloc, &bytes, stamp)?)?;
            bytes.clear();
            stamp = stamp.saturating_add(1);
        } else {
            bytes.push(byte)?;
        }
    }
    Ok(chunk)
}

#[test]
fn the_copy_and_the_fresh_bytes_are_shown(rt: HostRuntime) -> Result<(), Fail> {
    let alloc = rt.alloc();
    let rows = [
        (0, 0, "", "", 0, 0, "> "),
        (0, 0, "", "hi|", 0, 2, "> hi"),
        (1400, 0, "or", "der| in|", 2, 6, "> order in"),
        (4200, 1400, "", "a||bc|d|", 0, 4, "> abcd"),
        (9, 3, "copy", "", 4, 0, "> copy"),
        (u64::MAX, u64::MAX, "x", "y|", 1, 1, "> xy"),
    ];
    for (start, gap, copy, fresh, tail_len, fresh_len, shown) in rows {
        let chunk = chunk_of(alloc, start, gap, copy, fresh)?;
        assert_eq!(rt; chunk.start(), start);
        assert_eq!(rt; chunk.gap(), gap);
        assert_eq!(rt; chunk.tail_len(), tail_len);
        assert_eq!(rt; chunk.fresh_len(), fresh_len);
        let mut out = b"> ".to_vec(alloc)?;
        assert_eq!(rt; chunk.shown(&mut out), Ok(()));
        assert_eq!(rt; out.as_slice(), shown.as_bytes());
    }
    Ok(())
}

#[test]
fn the_last_fresh_bytes_are_appended(rt: HostRuntime) -> Result<(), Fail> {
    let alloc = rt.alloc();
    // the copy, the fresh parts, the number of bytes, and the bytes
    let rows = [
        ("", "def|", 2, "> ef"),
        ("or", "der| in|", 0, "> "),
        ("or", "der| in|", 2, "> in"),
        ("or", "der| in|", 5, "> er in"),
        ("or", "der| in|", 6, "> der in"),
        ("", "a||bc|d||", 3, "> bcd"),
    ];
    for (copy, fresh, n, last) in rows {
        let chunk = chunk_of(alloc, 0, 0, copy, fresh)?;
        if u64::from(n) > chunk.fresh_len() {
            return Err("too few bytes".into());
        }
        let mut out = b"> ".to_vec(alloc)?;
        assert_eq!(rt; chunk.last(n, &mut out), Ok(()));
        assert_eq!(rt; out.as_slice(), last.as_bytes());
    }
    Ok(())
}

#[test]
fn parts_are_given_once_in_order(rt: HostRuntime) -> Result<(), Fail> {
    let alloc = rt.alloc();
    let mut chunk = chunk_of(alloc, 1400, 20, "or", "der|| in|")?;
    let rows = [
        ("or", 2, 7, 0, 6, 3),
        ("der", 3, 8, 0, 3, 2),
        ("", 0, 9, 0, 3, 1),
        (" in", 3, 10, 0, 0, 0),
    ];
    assert_eq!(rt; chunk.parts(), 4);
    for (bytes, amount, stamp, tail_len, fresh_len, left) in rows {
        let (taken, charge) = take(&mut chunk)?;
        assert_eq!(rt; taken.as_slice(), bytes.as_bytes());
        assert_eq!(rt; charge.amount(), amount);
        assert_eq!(rt; charge.stamp(), stamp);
        assert_eq!(rt; chunk.tail_len(), tail_len);
        assert_eq!(rt; chunk.fresh_len(), fresh_len);
        assert_eq!(rt; chunk.parts(), left);
    }
    assert!(rt; chunk.take_part().is_none());
    assert!(rt; chunk.take_part().is_none());
    assert_eq!(rt; chunk.start(), 1400);
    assert_eq!(rt; chunk.gap(), 20);
    Ok(())
}

#[test]
fn two_datagrams_make_a_chunk_before_a_gap(rt: HostRuntime) -> Result<(), Fail> {
    let alloc = rt.alloc();
    let datagram = [b'a'; 1400];
    let mut first = Chunk::new(alloc, 0, 0, None);
    assert_eq!(rt; first.reserve(2), Ok(()));
    put(&mut first, part(alloc, &datagram, 0)?)?;
    put(&mut first, part(alloc, &datagram, 1)?)?;
    let mut second = Chunk::new(alloc, 4200, 1400, None);
    assert_eq!(rt; second.reserve(1), Ok(()));
    put(&mut second, part(alloc, &datagram[..1200], 2)?)?;
    assert_eq!(rt; first.fresh_len(), 2800);
    assert_eq!(rt; second.fresh_len(), 1200);
    assert_eq!(rt;
        take(&mut first)?.1,
        Granted {
            amount: 1400,
            stamp: 0
        }
    );
    assert_eq!(rt;
        take(&mut first)?.1,
        Granted {
            amount: 1400,
            stamp: 1
        }
    );
    assert!(rt; first.take_part().is_none());
    assert_eq!(rt;
        take(&mut second)?.1,
        Granted {
            amount: 1200,
            stamp: 2
        }
    );
    assert!(rt; second.take_part().is_none());
    Ok(())
}

#[test]
fn parts_can_come_behind_parts_that_were_taken(rt: HostRuntime) -> Result<(), Fail> {
    let alloc = rt.alloc();
    let mut chunk = Chunk::new(alloc, 0, 0, None);
    let mut shown = Vec::new(alloc);
    for stamp in 0..40 {
        put(&mut chunk, part(alloc, b"abc", stamp)?)?;
        put(&mut chunk, part(alloc, b"de", stamp)?)?;
        let (_, charge) = take(&mut chunk)?;
        assert_eq!(rt; charge.stamp(), stamp / 2);
    }
    assert_eq!(rt; chunk.fresh_len(), 100);
    assert_eq!(rt; chunk.shown(&mut shown), Ok(()));
    assert_eq!(rt; shown.len(), 100);
    assert_eq!(rt; &shown[..7], b"abcdeab".as_slice());
    Ok(())
}

#[test]
fn a_chunk_of_plain_charges_begins_empty(rt: HostRuntime) -> Result<(), Fail> {
    let alloc = rt.alloc();
    let mut chunk: Chunk<PlainCharge> = Chunk::new(alloc, 3, 1, None);
    assert_eq!(rt; chunk.reserve(1000), Ok(()));
    assert_eq!(rt; chunk.reserve(usize::MAX), Err(Memory));
    let mut out = Vec::new(alloc);
    assert_eq!(rt; chunk.shown(&mut out), Ok(()));
    assert!(rt; out.is_empty());
    assert!(rt; chunk.take_part().is_none());
    Ok(())
}
