ghost use Rattle.std.specs.Prelude.{◌≡◌, ℕ, ◌+◌, ◌<◌, ◌≤◌, ◌^◌, [], ◌++◌, length, map, take, drop, IfOk, IsOk, OnOk, OnErr, MatchOption};
ghost use Rattle.reorder.specs.Frags.{size, Ascends, EndBy, IsClear, IsFirst, DoesNotBegin, BeginsAt, free, put, overlaid, cells_of, weight_in, range_for};

use crate::Runs;
use crate::covered::overlay_parts;
use crate::gaps::free_runs;
use crate::held::Held;
use crate::over::Over;
use crate::search::first_behind;
use chunkpart::Memory;
use overpolicy::Policy;
use prio_budget::{Charge, Part};
use std::alloc::Global;
use std::collections::VecDeque;
use std::marker::Model;

/// The position at which the last part may end.
const END: u64 = 0x4000_0000_0000_0000;

/// Parts that are held, none of which overlaps another.
#[derive(Drop)]
pub struct Store<C: Charge> {
    parts: VecDeque<Held<C>>,
    pub(crate) held: u64,
}

impl<C: Charge> Model for Store<C> {
    ghost use Rattle.std.specs.Prelude.{◌-◌};
    ghost use Rattle.std.specs.VecDeque.{deque_len, deque_capacity};
    ghost use Rattle.reorder.specs.StoreParts.{StoreParts, AreHeld};

    ghost Value = { StoreParts C };

    ghost view = { λ s. record { frags = s.parts.items; room = deque_capacity s.parts - deque_len s.parts } };

    ghost invariant = { λ s. AreHeld s.held s.parts.items };
}

impl<C: Charge> Store<C> {
    pub fn new(alloc: Global) -> Store<C>
        ensures { result.frags ≡ [] }
    {
        Store {
            parts: VecDeque::new(alloc),
            held: 0,
        }
    }

    /// The longest runs within a range that no part covers, by ascending position.
    pub fn uncovered(&self, alloc: Global, from: u64, to: u64) -> Result<Runs, Memory>
        requires few { to < from + 2 ^ 32 }
        ensures { IfOk result (λ runs. map range_for runs ≡ free from to self.now.frags) }
    {
        let first = first_behind(&self.parts, from);
        let runs = free_runs(alloc, &self.parts, first, from, to)?;
        Ok(Runs::of(runs))
    }

    /// Settles overlap for each held position that these bytes cover, which stand from a position on. `start` is that of their
    /// segment. At want of memory nothing changes.
    pub fn overlay(
        &mut self,
        alloc: Global,
        start: i64,
        from: u64,
        bytes: &[u8],
        policy: Policy,
    ) -> Result<(), Memory>
        ensures ok { OnOk result (self.new.frags ≡ overlaid policy start from bytes.now self.old.frags) }
        ensures err { OnErr result (self.new ≡ self.old) }
        ensures room { self.new.room ≡ self.old.room }
        ensures weight { (w : C → ℕ) → weight_in w self.new.frags ≡ weight_in w self.old.frags }
        ensures places { (low : ℕ) → Ascends low self.old.frags → Ascends low self.new.frags }
        ensures ends { (most : ℕ) → EndBy most self.old.frags → EndBy most self.new.frags }
        ensures size { size self.new.frags ≡ size self.old.frags }
    {
        // No part reaches past the last position, so that no byte from there on covers one.
        let reach = END.saturating_sub(from).min(bytes.len() as u64);
        let (bytes, _) = bytes.split_at(reach as usize);
        let over = Over {
            policy,
            start,
            from,
            to: from + reach,
        };
        let first = first_behind(&self.parts, from);
        overlay_parts(alloc, &mut self.parts, first, over, bytes)
    }

    /// Makes room for a part more. At want of memory nothing changes.
    pub fn reserve(&mut self) -> Result<(), Memory>
        ensures ok { OnOk result (0 < self.new.room) }
        ensures err { OnErr result (self.new ≡ self.old) }
        ensures there { 0 < self.old.room → IsOk result }
        ensures same { self.new.frags ≡ self.old.frags }
        ensures grows { self.old.room ≤ self.new.room }
    {
        let filled = self.parts.len();
        if filled < self.parts.capacity() {
            return Ok(());
        }
        // At least as much again as is filled, so that many calls move each part only a few times.
        self.parts.reserve_exact(filled.max(1))?;
        Ok(())
    }

    /// Puts a part where none is. `start` is that of its segment.
    pub fn put(&mut self, at: u64, start: i64, part: Part<C>)
        requires room { 0 < self.old.room }
        requires some { 0 < length part.0 }
        requires clear { IsClear at (at + length part.0) self.old.frags }
        requires within { at + length part.0 ≤ 2 ^ 62 }
        ensures parts { self.new.frags ≡ put (record { at = at; cells = cells_of start part.0; charge = part.1 }) self.old.frags }
        ensures room { self.old.room ≤ self.new.room + 1 }
        ensures weight { (w : C → ℕ) → weight_in w self.new.frags ≡ w part.1 + weight_in w self.old.frags }
    {
        let place = first_behind(&self.parts, at);
        let held = Held::new(*self.parts.allocator(), at, start, part);
        self.held += held.len();
        let _ = self.parts.insert(place, held);
    }

    /// The first part, where it begins at a position.
    pub fn take_front(&mut self, front: u64) -> Option<Part<C>>
        ensures part { MatchOption result ((self.new.frags ≡ self.old.frags) × DoesNotBegin front self.old.frags) (λ part. IsFirst front part self.old.frags self.new.frags) }
        ensures room { self.old.room ≤ self.new.room }
        ensures weight { (w : C → ℕ) → MatchOption result (weight_in w self.new.frags ≡ weight_in w self.old.frags) (λ part. w part.1 + weight_in w self.new.frags ≡ weight_in w self.old.frags) }
    {
        if self.parts.front()?.at() != front {
            return None;
        }
        let held = self.parts.pop_front()?;
        self.held -= held.len();
        Some(held.into_part())
    }

    /// Where the first part begins.
    pub fn least(&self) -> Option<u64>
        ensures { MatchOption result (self.now.frags ≡ []) (λ at. BeginsAt at self.now.frags) }
    {
        let held = self.parts.front()?;
        Some(held.at())
    }

    /// The number of bytes.
    pub fn held(&self) -> u64
        ensures { result ≡ size self.now.frags }
    {
        self.held
    }
}
