ghost use Rattle.std.specs.Prelude.{◌≡◌, ◌+◌, ◌<◌, ◌++◌, ◌∷◌, ◌⊎◌, [], vec_len};
ghost use Rattle.std.specs.Vec.{vec_capacity};
ghost use Rattle.evring.specs.Advice.{no_advice};
ghost use Rattle.evring.specs.Charges.{charges_in};
ghost use Rattle.workrun.specs.InWork.{places_of};
ghost use Rattle.workrun.specs.Outgoing.{charges_left};

use crate::outgoing::Outgoing;
use evring::{Advice, Event};
use prio_budget::{Charge, Free};
use std::alloc::Global;

/// An event whose charges go out: its core, the advice to it, the releases done so far, and the charges that are left.
#[derive(Drop)]
pub(crate) struct Release<C: Charge> {
    pub(crate) core: u16,
    pub(crate) advice: Advice,
    pub(crate) frees: Vec<Free>,
    pub(crate) left: Outgoing<C>,
}

impl<C: Charge> Release<C> {
    /// All charges of an event of which no handler was told. It takes no memory.
    pub(crate) fn untold(alloc: Global, core: u16, event: Event<C>) -> Release<C>
        ensures core { result.core ≡ core }
        ensures advice { result.advice ≡ no_advice }
        ensures frees { result.frees.items ≡ [] }
        ensures left { charges_left result.left ≡ charges_in event }
    {
        Release {
            core,
            advice: Advice::none(),
            frees: Vec::new(alloc),
            left: outgoing_of(alloc, event),
        }
    }

    /// With one release more, where there is room for it.
    pub(crate) fn with_free(mut self, free: Free) -> Release<C>
        ensures same { (result.core ≡ self.core) × (result.advice ≡ self.advice) × (result.left ≡ self.left) }
        ensures room { vec_len self.frees < vec_capacity self.frees → result.frees.items ≡ self.frees.items ++ free ∷ [] }
        ensures places { vec_len self.frees < vec_capacity self.frees → places_of result + 1 ≡ places_of self }
        ensures some { (result.frees.items ≡ self.frees.items ++ free ∷ []) ⊎ (result.frees.items ≡ self.frees.items) }
    {
        if self.frees.len() < self.frees.capacity() {
            self.frees.push_reserved(free);
        }
        self
    }
}

/// The charges of an event.
fn outgoing_of<C: Charge>(alloc: Global, event: Event<C>) -> Outgoing<C>
    ensures { charges_left result ≡ charges_in event }
{
    match event {
        Event::Chunk { kept, chunk, .. } => Outgoing::of(kept.into_vec(), Some(chunk)),
        Event::New { .. } | Event::Ended { .. } => Outgoing::of(Vec::new(alloc), None),
    }
}
