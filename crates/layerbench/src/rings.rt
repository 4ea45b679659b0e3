use crate::Fault;
use evring::{Giver, Taker, ring};
use std::alloc::Global;
use std::sync::Wait;
use std::thread;
use std::thread::Threads;

/// Gives the numbers below `count`, in order.
fn give(rt: &impl Wait, mut giver: Giver<u64>, count: u64) {
    let mut next = 0;
    for _ in rt.forever() {
        if next >= count {
            break;
        }
        match giver.push(next) {
            Ok(()) => next += 1,
            Err(_) => thread::yield_now(),
        }
    }
}

/// Takes `count` numbers, and tells how many of them came in their order.
fn take(rt: &impl Wait, mut taker: Taker<u64>, count: u64) -> u64 {
    let mut came = 0;
    let mut right: u64 = 0;
    for _ in rt.forever() {
        if came >= count {
            break;
        }
        match taker.pop() {
            Some(number) => {
                if number == came {
                    right = right.saturating_add(1);
                }
                came += 1;
            }
            None => thread::yield_now(),
        }
    }
    right
}

/// Passes so many numbers from one thread to another, and tells how many came in their order.
pub fn pass<R: Threads + Wait + Sync>(
    rt: &R,
    alloc: Global,
    count: u64,
    places: usize,
) -> Result<u64, Fault> {
    if places == 0 || places > 256 {
        return Err(Fault::Words);
    }
    let (giver, taker) = ring(alloc, places)?;
    let (_, right) = thread::join(
        rt,
        move || -> () { give(rt, giver, count) },
        move || -> u64 { take(rt, taker, count) },
    );
    Ok(right)
}
