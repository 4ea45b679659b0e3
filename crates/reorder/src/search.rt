//! Where a position lies among parts that rise, found by bisection.
ghost use Rattle.std.specs.Prelude.{◌<◌, ◌≤◌, take, drop, IfNone, IfSome};
ghost use Rattle.std.specs.VecDeque.{deque_len};
ghost use Rattle.reorder.specs.Frags.{Ascends, EndBy};
ghost use Rattle.reorder.specs.Search.{EndsBehind, BeginsFrom, StandsAt};

use crate::held::Held;
use prio_budget::Charge;
use std::collections::VecDeque;

/// The place of the first part that ends behind a position.
pub(crate) fn first_behind<C: Charge>(parts: &VecDeque<Held<C>>, position: u64) -> usize
    requires { Ascends 0 parts.now.items }
    ensures within { result ≤ deque_len parts.now }
    ensures before { EndBy position (take result parts.now.items) }
    ensures behind { EndsBehind position (drop result parts.now.items) }
{
    let mut low = 0;
    let mut high = parts.len();
    'halves: while low < high {
        let middle = low + (high - low) / 2;
        if parts[middle].end() <= position {
            low = middle + 1;
        } else {
            high = middle;
        }
    }
    low
}

/// The part at a place, where there is one and it begins before a position.
pub(crate) fn below<C: Charge>(
    parts: &VecDeque<Held<C>>,
    place: usize,
    position: u64,
) -> Option<&Held<C>>
    ensures none { IfNone result (BeginsFrom position (drop place parts.now.items)) }
    ensures some { IfSome result (λ held. (held.now.at < position) × (place < deque_len parts.now) × StandsAt parts.now.items place held.now) }
{
    let held = parts.get(place)?;
    if held.at() < position {
        Some(held)
    } else {
        None
    }
}
