ghost use Rattle.std.specs.Prelude.{◌≡◌, ◌≤◌};

use crate::{Entered, HalfStream};
use chunkpart::Chunk;
use prio_budget::{Marks, PlainBudget, PlainCharge};
use std::alloc::Global;
use std::test::Fail;

/// Enters a datagram under a mark of 4096 bytes, for chunks of `least` bytes.
fn enter(
    alloc: Global,
    half: &mut HalfStream,
    budget: &mut PlainBudget,
    least: u64,
    payload: &[u8],
) -> Result<Entered, Fail>
    requires { 4096 ≤ budget.old.limit }
    ensures { budget.new.limit ≡ budget.old.limit }
{
    if half.sent() > 1_000_000 || payload.len() > 65_535 {
        return Err("too many bytes".into());
    }
    let entered = half.enter(alloc, budget, 4096, least, payload);
    Ok(entered.map_err(|_| "want of memory")?)
}

fn has_look(entered: &Entered, asked: u32, granted: bool, stamp: u32, found: u32) -> bool {
    match entered.look {
        Some(look) => {
            look.asked == asked
                && look.granted == granted
                && look.look.stamp == stamp
                && look.look.found == found
        }
        None => false,
    }
}

fn is_chunk(chunk: &Option<Chunk<PlainCharge>>, start: u64, gap: u64, bytes: u64) -> bool {
    match chunk {
        Some(chunk) => chunk.start() == start && chunk.gap() == gap && chunk.fresh_len() == bytes,
        None => false,
    }
}

fn hands_nothing_over(entered: &Entered) -> bool {
    entered.closed.is_none() && entered.full.is_none()
}

#[test]
fn a_refused_datagram_leaves_a_gap(rt: HostRuntime) -> Result<(), Fail> {
    let alloc = rt.alloc();
    let mut budget = PlainBudget::new(&Marks::new(4096, 4096, 1)?, 0);
    let mut half = HalfStream::new();
    let datagram = [b'a'; 1400];
    let first = enter(alloc, &mut half, &mut budget, 16_384, &datagram)?;
    assert!(rt; has_look(&first, 1400, true, 0, 0) && hands_nothing_over(&first));
    let second = enter(alloc, &mut half, &mut budget, 16_384, &datagram)?;
    assert!(rt; has_look(&second, 1400, true, 1, 1400) && hands_nothing_over(&second));
    let third = enter(alloc, &mut half, &mut budget, 16_384, &datagram)?;
    assert!(rt; has_look(&third, 1400, false, 2, 2800) && hands_nothing_over(&third));
    let fourth = enter(alloc, &mut half, &mut budget, 16_384, &datagram[..1200])?;
    assert!(rt; has_look(&fourth, 1200, true, 2, 2800) && fourth.full.is_none());
    assert!(rt; is_chunk(&fourth.closed, 0, 0, 2800));
    assert!(rt; is_chunk(&half.take_open(), 4200, 1400, 1200));
    assert_eq!(rt; half.sent(), 5400);
    assert_eq!(rt; budget.used(), 4000);
    Ok(())
}

#[test]
fn a_full_chunk_is_handed_over(rt: HostRuntime) -> Result<(), Fail> {
    let alloc = rt.alloc();
    let mut budget = PlainBudget::new(&Marks::new(4096, 4096, 1)?, 0);
    let mut half = HalfStream::new();
    let hello = enter(alloc, &mut half, &mut budget, 10, b"hello")?;
    assert!(rt; hands_nothing_over(&hello));
    let empty = enter(alloc, &mut half, &mut budget, 10, b"")?;
    assert!(rt; empty.look.is_none() && hands_nothing_over(&empty));
    let world = enter(alloc, &mut half, &mut budget, 10, b"world")?;
    assert!(rt; world.closed.is_none() && is_chunk(&world.full, 0, 0, 10));
    let next = enter(alloc, &mut half, &mut budget, 10, b"!")?;
    assert!(rt; hands_nothing_over(&next));
    assert!(rt; is_chunk(&half.take_open(), 10, 0, 1));
    Ok(())
}
