ghost use Rattle.std.specs.Prelude.{◌≡◌, ◌≤◌};

use crate::{Giver, Memory, Taker, ring, settle};
use std::alloc::Global;
use std::sync::Wait;
use std::test::*;
use std::thread;
use std::thread::Threads;

/// Gives the numbers below `count`, in order.
fn give_numbers(rt: &impl Wait, giver: Giver<u64>, count: u64) -> Giver<u64>
    ensures { result.ring ≡ giver.ring }
{
    let mut giver = giver;
    let mut next = 0;
    for _ in rt.forever() {
        if next >= count {
            break;
        }
        match giver.push(next) {
            Ok(()) => next += 1,
            Err(_) => thread::yield_now(),
        }
    }
    giver
}

/// Takes `count` numbers, and tells how many of them were the one that was due.
fn take_numbers(rt: &impl Wait, taker: Taker<u64>, count: u64) -> (Taker<u64>, u64)
    ensures { result.0.ring ≡ taker.ring }
{
    let mut taker = taker;
    let mut came = 0;
    let mut right = 0;
    for _ in rt.forever() {
        if came >= count {
            break;
        }
        match taker.pop() {
            Some(number) => {
                if number == came {
                    right += 1;
                }
                came += 1;
            }
            None => thread::yield_now(),
        }
    }
    (taker, right)
}

/// Passes the numbers below `count` from one thread to another. Tells how many came in order, and how many wait at the end.
fn pass_numbers<R: Threads + Wait + Sync>(
    rt: &R,
    alloc: Global,
    places: usize,
    count: u64,
) -> Result<(u64, usize), Memory>
    requires { (1 ≤ places) × (places ≤ 256) }
{
    let (giver, taker) = ring(alloc, places)?;
    let (mut giver, (mut taker, right)) = thread::join(
        rt,
        move || -> Giver<u64>
            ensures { result.ring ≡ giver.ring }
        { give_numbers(rt, giver, count) },
        move || -> (Taker<u64>, u64)
            ensures { result.0.ring ≡ taker.ring }
        { take_numbers(rt, taker, count) },
    );
    Ok((right, settle(&mut giver, &mut taker)))
}

#[test]
fn a_million_numbers_cross_in_order(rt: HostRuntime) -> Result<(), Fail> {
    assert_eq!(rt;
        pass_numbers(&rt, rt.alloc(), 1, 1_000_000),
        Ok((1_000_000, 0))
    );
    assert_eq!(rt;
        pass_numbers(&rt, rt.alloc(), 2, 1_000_000),
        Ok((1_000_000, 0))
    );
    assert_eq!(rt;
        pass_numbers(&rt, rt.alloc(), 256, 1_000_000),
        Ok((1_000_000, 0))
    );
    Ok(())
}

#[test]
fn a_full_ring_hands_back(rt: HostRuntime) -> Result<(), Fail> {
    let (mut giver, mut taker) = ring(rt.alloc(), 2)?;
    assert_eq!(rt; taker.pop(), None);
    assert_eq!(rt; giver.push(5u64), Ok(()));
    assert_eq!(rt; giver.push(6), Ok(()));
    assert_eq!(rt; giver.push(7), Err(7));
    assert_eq!(rt; settle(&mut giver, &mut taker), 2);
    assert_eq!(rt; taker.pop_known(), 5);
    assert_eq!(rt; giver.push(7), Ok(()));
    assert_eq!(rt; taker.pop(), Some(6));
    assert_eq!(rt; taker.pop(), Some(7));
    assert_eq!(rt; taker.pop(), None);
    Ok(())
}
