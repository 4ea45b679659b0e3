ghost use Rattle.evring.specs.Charges.{charges_of_all};
ghost use Rattle.std.specs.Prelude.{◌≡◌, ℕ, ◌++◌, [], IsNone, option_to_list};
ghost use Rattle.convo.specs.Weights.{weight_of_chunks};
ghost use Rattle.convo.specs.Going.{charges_going, weight_of_charges};

use chunkpart::Chunk;
use evring::Kept;
use prio_budget::Charge;
use std::alloc::Global;

/// Chunks whose charges go back one after the other: those from a place on.
#[derive(Drop)]
pub struct Going<C: Charge> {
    pub chunks: Vec<Chunk<C>>,
    pub at: usize,
}

impl<C: Charge> Going<C> {
    pub(crate) fn none(alloc: Global) -> Self
        ensures { charges_going result ≡ [] }
    {
        Going {
            chunks: Vec::new(alloc),
            at: 0,
        }
    }

    #[tactic(auto, using(crate::proofs::GoingSteps::weight_all))]
    pub(crate) fn of(kept: Kept<C>) -> Self
        ensures charges { charges_going result ≡ charges_of_all kept }
        ensures weight { (w : C → ℕ) → weight_of_charges w (charges_going result) ≡ weight_of_chunks w kept }
    {
        Going {
            chunks: kept.into_vec(),
            at: 0,
        }
    }

    /// The next charge, where there is one.
    pub(crate) fn next(&mut self) -> Option<C>
        ensures charges { charges_going self.old ≡ option_to_list result ++ charges_going self.new }
        ensures none { IsNone result → charges_going self.old ≡ [] }
    {
        while self.at < self.chunks.len() {
            let chunk = &mut self.chunks[self.at];
            if let Some(part) = chunk.take_part() {
                let (_, charge) = part.unpack();
                return Some(charge);
            }
            self.at += 1;
        }
        None
    }
}
