ghost use Rattle.std.specs.Prelude.{◌≡◌, ℕ, suc, ◌+◌, ◌≤◌, List, [], Some, None, true, false};
ghost use Rattle.streamkey.specs.Key.{source_of, target_of};
ghost use Rattle.streamdefs.specs.Terms.{Terms};
ghost use Rattle.streamdefs.specs.Convo.{Act, Event as EventMade};
ghost use Rattle.streamdefs.specs.Want.{want};
ghost use Rattle.streamdefs.specs.Want.Want.{Emit as EmitWanted};
ghost use Rattle.convo.specs.Stands.{Stands};
ghost use Rattle.convo.specs.Talk.Phase.{Under};
ghost use Rattle.flowdir.specs.Boundary.{charge_by};
ghost use Rattle.convo.specs.Weights.{weight_of_want, weight_of_chunks};
ghost use Rattle.flowdir.specs.Boundary.{weight_of_parts};
ghost use Rattle.chunkpart.specs.ChunkParts.{parts_of};
ghost use Rattle.convo.specs.Talk.{Talk, IsWantOf, asked_in};
ghost use Rattle.convo.specs.Left.{Pays, stage_work};
ghost use Rattle.convo.specs.Going.{charges_going};
ghost use Rattle.convo.specs.Standing.{HandsOver, IsAskWithin, IsRest, IsResting, IsLeft, asked_of, weight_of_convo};

use crate::Want;
use crate::going::Going;
use crate::half::Half;
use crate::moment::Moment;
use crate::origin::Origin;
use crate::stage::Stage;
use chunkpart::Chunk;
use evring::{Event, Kept, Reason, Way};
use prio_budget::Charge;
use std::alloc::Global;

/// A conversation.
#[derive(Drop)]
pub struct Convo<C: Charge> {
    pub alloc: Global,
    pub origin: Origin,
    pub fore: Half<C>,
    pub back: Half<C>,
    pub advised: Option<u8>,
    pub clock: u64,
    pub ended: Option<Reason>,
    pub owed: Option<(Reason, u64)>,
    /// An event went out.
    pub begun: bool,
    /// Its beginning is to be told.
    pub opens: bool,
    /// Its end is to be told.
    pub over: Option<Reason>,
    pub going: Going<C>,
    pub stage: Stage,
}

impl<C: Charge> Convo<C> {
    /// Tells that it begins.
    fn tell_new(&mut self) -> Want<C>
        ensures want { result ≡ Want.Emit (Event.New self.old.origin.number self.old.origin.key.proto (source_of self.old.origin.key self.old.origin.toward) (target_of self.old.origin.key self.old.origin.toward)) }
        ensures same { self.new ≡ record self.old { opens = false; begun = true } }
    {
        self.opens = false;
        self.begun = true;
        Want::Emit(Event::New {
            conv: self.origin.number,
            proto: self.origin.key.proto,
            source: self.origin.key.source(self.origin.toward),
            target: self.origin.key.target(self.origin.toward),
        })
    }

    /// Tells of a chunk.
    fn tell_chunk(&mut self, way: Way, kept: Kept<C>, chunk: Chunk<C>) -> Want<C>
        ensures want { result ≡ Want.Emit (Event.Chunk self.old.origin.number way self.old.origin.key kept chunk) }
        ensures same { self.new ≡ record self.old { begun = true } }
    {
        self.begun = true;
        Want::Emit(Event::Chunk {
            conv: self.origin.number,
            way,
            key: self.origin.key,
            kept,
            chunk,
        })
    }

    /// Nothing is under way any more, where nothing goes back.
    pub(crate) fn rest(&mut self) -> Want<C>
        requires stage { asked_of self.old ≡ None }
        ensures gone { charges_going self.old.going ≡ [] → (result ≡ Want.Rest) × (self.new ≡ record self.old { stage = Stage.Resting; going = self.new.going }) }
        ensures idle { IsRest result → charges_going self.new.going ≡ [] }
        ensures within { (limit : ℕ) → IsAskWithin limit result }
        ensures asked { asked_of self.new ≡ asked_in result }
        ensures last { (self.new.fore.dir.last ≡ self.old.fore.dir.last) × (self.new.back.dir.last ≡ self.old.back.dir.last) }
        ensures left { Pays {C = C} None 0 1 result self.old self.new }
        ensures less { 1 ≤ stage_work self.old.stage → Pays {C = C} None 0 0 result self.old self.new }
        ensures weight { (w : C → ℕ) → weight_of_convo w self.new + weight_of_want w result ≡ weight_of_convo w self.old }
    {
        if let Some(charge) = self.going.next() {
            return Want::Free(charge);
        }
        self.stage = Stage::Resting;
        Want::Rest
    }

    /// The next event, where there is one. Else nothing is under way any more.
    pub(crate) fn hand_over(&mut self) -> Want<C>
        requires stage { self.old.stage ≡ Stage.Events }
        ensures turn { (t : Terms) (k : Talk) (events : List EventMade) → IsLeft (charge_by C.amount C.stamp) t self.old k events
            → HandsOver (charge_by C.amount C.stamp) k.convo.first (IsResting (charge_by C.amount C.stamp) t self.new k) (IsLeft (charge_by C.amount C.stamp) t self.new k) events result }
        ensures idle { IsRest result → charges_going self.new.going ≡ [] }
        ensures within { (limit : ℕ) → IsAskWithin limit result }
        ensures asked { asked_of self.new ≡ asked_in result }
        ensures last { (self.new.fore.dir.last ≡ self.old.fore.dir.last) × (self.new.back.dir.last ≡ self.old.back.dir.last) }
        ensures left { Pays {C = C} None 0 0 result self.old self.new }
        ensures busy { (reason : Reason) → self.old.over ≡ Some reason → IsRest result → ⊥ }
        ensures weight { (w : C → ℕ) → weight_of_convo w self.new + weight_of_want w result ≡ weight_of_convo w self.old }
    {
        if self.opens {
            return self.tell_new();
        }
        if let Some((kept, chunk)) = self.fore.hand_over(self.alloc) {
            return self.tell_chunk(Way::Fore, kept, chunk);
        }
        if let Some((kept, chunk)) = self.back.hand_over(self.alloc) {
            return self.tell_chunk(Way::Back, kept, chunk);
        }
        match self.over.take() {
            Some(reason) => {
                self.begun = true;
                Want::Emit(Event::Ended {
                    conv: self.origin.number,
                    reason,
                })
            }
            None => self.rest(),
        }
    }

    /// An event was handed over.
    pub(crate) fn emitted_event(&mut self) -> Want<C>
        requires stage { self.old.stage ≡ Stage.Events }
        ensures turn { (t : Terms) (k : Talk) (act : Act) (emitted : ℕ) (event : EventMade) → Stands (charge_by C.amount C.stamp) self.old t k (Under act emitted)
            → want t k.convo act emitted ≡ EmitWanted event → IsWantOf (charge_by C.amount C.stamp) (Stands (charge_by C.amount C.stamp) self.new t) t k act (suc emitted) result }
        ensures idle { IsRest result → charges_going self.new.going ≡ [] }
        ensures within { (limit : ℕ) → IsAskWithin limit result }
        ensures asked { asked_of self.new ≡ asked_in result }
        ensures last { (self.new.fore.dir.last ≡ self.old.fore.dir.last) × (self.new.back.dir.last ≡ self.old.back.dir.last) }
        ensures left { Pays {C = C} None 0 0 result self.old self.new }
        ensures weight { (w : C → ℕ) → weight_of_convo w self.new + weight_of_want w result ≡ weight_of_convo w self.old }
    {
        self.hand_over()
    }
}
