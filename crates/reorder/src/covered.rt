//! A later segment's bytes over the parts that it covers.
ghost use Rattle.std.specs.Prelude.{◌≡◌, ℕ, ◌+◌, ◌≤◌, ◌++◌, length, take, drop, OnOk, OnErr, IfOk};
ghost use Rattle.std.specs.VecDeque.{deque_len, deque_capacity};
ghost use Rattle.reorder.specs.Frags.{Ascends, EndBy, overlaid};
ghost use Rattle.reorder.specs.Search.{BeginsFrom};
ghost use Rattle.reorder.specs.Starts.{AllSettled};

use crate::held::Held;
use crate::new_starts::NewStarts;
use crate::over::Over;
use crate::search::below;
use chunkpart::Memory;
use prio_budget::Charge;
use std::alloc::Global;
use std::collections::VecDeque;

/// The new starts of the parts from a place on, as far as the segment reaches.
fn settled_parts<C: Charge>(
    alloc: Global,
    parts: &VecDeque<Held<C>>,
    first: usize,
    over: Over,
) -> Result<VecDeque<NewStarts>, Memory>
    requires ordered { over.from ≤ over.to }
    requires within { first ≤ deque_len parts.now }
    ensures settled { IfOk result (λ made. AllSettled over (drop first parts.now.items) made.items) }
    ensures all { IfOk result (λ made. BeginsFrom over.to (drop (first + length made.items) parts.now.items)) }
{
    let mut made = VecDeque::new(alloc);
    let mut place = first;
    'covered: while let Some(held) = below(parts, place, over.to) {
        let starts = held.settled(alloc, over)?;
        if made.push_back(starts).is_err() {
            return Err(Memory);
        }
        place += 1;
    }
    Ok(made)
}

/// Settles overlap in the parts from a place on whose new starts are there. It takes no memory.
fn settle_parts<C: Charge>(
    parts: &mut VecDeque<Held<C>>,
    first: usize,
    over: Over,
    bytes: &[u8],
    made: VecDeque<NewStarts>,
)
    requires to { over.to ≡ over.from + length bytes.now }
    requires before { EndBy over.from (take first parts.old.items) }
    requires settled { AllSettled over (drop first parts.old.items) made.items }
    ensures settled { parts.new.items ≡ overlaid over.policy over.start over.from bytes.now (take (first + length made.items) parts.old.items) ++ drop (first + length made.items) parts.old.items }
    ensures len { deque_len parts.new ≡ deque_len parts.old }
    ensures capacity { deque_capacity parts.new ≡ deque_capacity parts.old }
{
    let mut made = made;
    let mut place = first;
    'covered: while let Some(starts) = made.pop_front() {
        parts[place].settle(over, bytes, starts);
        place += 1;
    }
}

/// Settles overlap in the parts from a place on, as far as the segment reaches; those before it end before the segment.
/// At want of memory nothing changes, since all that takes memory comes before the first change.
pub(crate) fn overlay_parts<C: Charge>(
    alloc: Global,
    parts: &mut VecDeque<Held<C>>,
    first: usize,
    over: Over,
    bytes: &[u8],
) -> Result<(), Memory>
    requires to { over.to ≡ over.from + length bytes.now }
    requires ascends { Ascends 0 parts.old.items }
    requires within { first ≤ deque_len parts.old }
    requires before { EndBy over.from (take first parts.old.items) }
    ensures ok { OnOk result (parts.new.items ≡ overlaid over.policy over.start over.from bytes.now parts.old.items) }
    ensures err { OnErr result (parts.new.items ≡ parts.old.items) }
    ensures some { (n : ℕ) × (parts.new.items ≡ overlaid over.policy over.start over.from bytes.now (take n parts.old.items) ++ drop n parts.old.items) }
    ensures len { deque_len parts.new ≡ deque_len parts.old }
    ensures capacity { deque_capacity parts.new ≡ deque_capacity parts.old }
{
    let made = settled_parts(alloc, parts, first, over)?;
    settle_parts(parts, first, over, bytes, made);
    Ok(())
}
