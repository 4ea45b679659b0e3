ghost use Rattle.std.specs.Prelude.{◌≡◌, ◌+◌, ◌<◌, ◌^◌, Some, None, IfOk, IfNone};
ghost use Rattle.tally.specs.Walk.{no_walk, compared, made, misplaced_in, overdrawn_in, IsStep, HasMade, HasWalked};

use crate::{Memory, Mismatch, Move, Peak};
use std::alloc::Global;
use std::marker::Model;

/// Moves of a budget that are made again, one after another.
#[derive(Drop)]
pub(crate) struct Walk {
    limit: u32,
    /// The number of all moves.
    count: u64,
    /// The number of moves made so far, the bytes in use behind them, and the most that were.
    place: u32,
    used: u32,
    peak: u32,
    /// The bytes in use before each stamp at which looks are compared.
    before: Vec<u32>,
}

impl Model for Walk {
    ghost use Rattle.tally.specs.Walk.{WalkParts};

    ghost Value = { WalkParts };

    ghost view = { λ w. record { limit = w.limit; count = w.count; place = w.place; used = w.used; peak = w.peak; before = w.before.items } };
}

impl Walk {
    pub(crate) fn new(alloc: Global, limit: u32, count: u64) -> Walk
        ensures { result ≡ no_walk limit count }
    {
        Walk {
            limit,
            count,
            place: 0,
            used: 0,
            peak: 0,
            before: Vec::new(alloc),
        }
    }

    /// The bytes in use before each stamp at which looks are compared.
    pub(crate) fn before(&self) -> &[u32]
        ensures { result.now ≡ self.now.before }
    {
        &self.before
    }

    /// How many moves were made, and the most bytes in use behind one of them.
    pub(crate) fn peak(&self) -> Peak
        ensures stamps { result.stamps ≡ self.now.place }
        ensures peak { result.peak ≡ self.now.peak }
    {
        Peak {
            stamps: self.place,
            peak: self.peak,
        }
    }

    /// What a move shows by its place.
    fn misplaced(&self, next: &Move) -> Option<Mismatch>
        ensures shown { result ≡ misplaced_in self.now next.now }
        ensures below { IfNone result (self.now.place + 1 < 2 ^ 32) }
    {
        let stamp = next.stamp();
        if stamp != self.place {
            return Some(Mismatch {
                stamp: self.place,
                kept: u64::from(self.place),
                summed: u64::from(stamp),
            });
        }
        if self.place == u32::MAX {
            return Some(Mismatch {
                stamp: self.place,
                kept: u64::from(self.place),
                summed: self.count,
            });
        }
        None
    }

    /// What a move shows by the bytes in use.
    fn overdrawn(&self, next: &Move) -> Option<Mismatch>
        ensures { result ≡ overdrawn_in self.now next.now }
    {
        let used = u64::from(self.used);
        let limit = u64::from(self.limit);
        match *next {
            Move::Free { bytes, .. } if u64::from(bytes) > used => Some(Mismatch {
                stamp: self.place,
                kept: u64::from(bytes),
                summed: used,
            }),
            Move::Grant { bytes, .. } if used + u64::from(bytes) > limit => Some(Mismatch {
                stamp: self.place,
                kept: limit,
                summed: used + u64::from(bytes),
            }),
            _ => None,
        }
    }

    /// Makes a move that shows nothing.
    fn make(&mut self, next: &Move)
        requires place { self.old.place + 1 < 2 ^ 32 }
        requires room { overdrawn_in self.old next.now ≡ None }
        ensures { self.new ≡ made self.old next.now }
    {
        match *next {
            Move::Grant { bytes, .. } => self.used += bytes,
            Move::Free { bytes, .. } => self.used -= bytes,
        }
        self.peak = self.used.max(self.peak);
        self.place += 1;
    }

    /// Makes a move, or says what it shows. Looks are compared at its stamp where its place is right.
    fn step(&mut self, next: &Move) -> Result<Option<Mismatch>, Memory>
        ensures { IfOk result (λ shown. IsStep self.old next.now shown self.new) }
    {
        let misplaced = self.misplaced(next);
        if misplaced.is_some() {
            return Ok(misplaced);
        }
        self.before.push(self.used)?;
        let overdrawn = self.overdrawn(next);
        if overdrawn.is_none() {
            self.make(next);
        }
        Ok(overdrawn)
    }

    /// Makes the moves up to the first one that shows something.
    pub(crate) fn over(&mut self, moves: &[Move]) -> Result<Option<Mismatch>, Memory>
        requires { HasMade self.old.limit moves.now 0 self.old }
        ensures { IfOk result (λ shown. HasWalked self.old.limit moves.now shown self.new) }
    {
        for next in moves {
            let shown = self.step(next)?;
            if shown.is_some() {
                return Ok(shown);
            }
        }
        self.before.push(self.used)?;
        Ok(None)
    }
}
