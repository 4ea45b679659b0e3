// All charges, one after the other.
ghost use Rattle.std.specs.Prelude.{◌≡◌, ℕ, ◌+◌, IsNone};
ghost use Rattle.flowdir.specs.Boundary.{weight_of, weight_of_chunk};
ghost use Rattle.convo.specs.Weights.{weight_of_chunks};
ghost use Rattle.convo.specs.Halves.{weight_of_half};
ghost use Rattle.convo.specs.Going.{charges_going, weight_of_charges};
ghost use Rattle.convo.specs.Standing.{weight_of_convo};

use crate::going::Going;
use crate::half::Half;
use crate::{Convo, direction};
use chunkpart::Chunk;
use evring::Kept;
use prio_budget::Charge;
use std::alloc::Global;
use std::mem;

/// One of the charges of a chunk.
pub fn drain_chunk<C: Charge>(chunk: &mut Option<Chunk<C>>) -> Option<C>
    ensures weight { (w : C → ℕ) → weight_of_chunk w chunk.new + weight_of w result ≡ weight_of_chunk w chunk.old }
    ensures none { IsNone result → (w : C → ℕ) → weight_of_chunk w chunk.old ≡ 0 }
{
    let Some(chunk) = chunk else {
        return None;
    };
    let part = chunk.take_part()?;
    let (_, charge) = part.unpack();
    Some(charge)
}

/// One of the charges of these chunks, of which those behind are let go once they are empty.
#[tactic(auto, using(crate::proofs::Weighing::weight_behind))]
pub fn drain_chunks<C: Charge>(chunks: &mut Vec<Chunk<C>>) -> Option<C>
    ensures weight { (w : C → ℕ) → weight_of_chunks w chunks.new.items + weight_of w result ≡ weight_of_chunks w chunks.old.items }
    ensures none { IsNone result → (w : C → ℕ) → weight_of_chunks w chunks.old.items ≡ 0 }
{
    while let Some(mut chunk) = chunks.pop() {
        if let Some(part) = chunk.take_part() {
            let (_, charge) = part.unpack();
            chunks.push_reserved(chunk);
            return Some(charge);
        }
    }
    None
}

impl<C: Charge> Going<C> {
    /// One of the charges.
    pub(crate) fn drain(&mut self) -> Option<C>
        ensures weight { (w : C → ℕ) → weight_of_charges w (charges_going self.new) + weight_of w result ≡ weight_of_charges w (charges_going self.old) }
        ensures none { IsNone result → (w : C → ℕ) → weight_of_charges w (charges_going self.old) ≡ 0 }
    {
        self.next()
    }
}

impl<C: Charge> Half<C> {
    /// One of the charges of what is kept.
    fn drain_kept(&mut self, alloc: Global) -> Option<C>
        ensures same { self.new ≡ record self.old { kept = self.new.kept } }
        ensures weight { (w : C → ℕ) → weight_of_chunks w self.new.kept + weight_of w result ≡ weight_of_chunks w self.old.kept }
        ensures none { IsNone result → (w : C → ℕ) → weight_of_chunks w self.old.kept ≡ 0 }
    {
        let mut chunks = mem::replace(&mut self.kept, Kept::none(alloc)).into_vec();
        let charge = drain_chunks(&mut chunks);
        self.kept = Kept::of(chunks);
        charge
    }

    /// One of the charges.
    pub(crate) fn drain(&mut self, alloc: Global) -> Option<C>
        ensures weight { (w : C → ℕ) → weight_of_half w self.new + weight_of w result ≡ weight_of_half w self.old }
        ensures none { IsNone result → (w : C → ℕ) → weight_of_half w self.old ≡ 0 }
    {
        if let Some(charge) = direction::drain(&mut self.dir) {
            return Some(charge);
        }
        if let Some(charge) = self.drain_kept(alloc) {
            return Some(charge);
        }
        drain_chunk(&mut self.first)
    }
}

impl<C: Charge> Convo<C> {
    /// One of the charges.
    pub fn drain(&mut self) -> Option<C>
        ensures weight { (w : C → ℕ) → weight_of_convo w self.new + weight_of w result ≡ weight_of_convo w self.old }
        ensures none { IsNone result → (w : C → ℕ) → weight_of_convo w self.old ≡ 0 }
    {
        if let Some(charge) = self.going.drain() {
            return Some(charge);
        }
        if let Some(charge) = self.fore.drain(self.alloc) {
            return Some(charge);
        }
        self.back.drain(self.alloc)
    }
}
