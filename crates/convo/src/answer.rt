// Answers that come back.
ghost use Rattle.evring.specs.Charges.{charges_of_all};
ghost use Rattle.std.specs.Prelude.{◌≡◌, ⊤, ℕ, suc, ◌+◌, ◌++◌, [], ◌∷◌, List, length, is_none, cond, map, drop, true, false, Bool, Option, Some, None, IfOk, IfErr, OnOk, OnErr};
ghost use Rattle.prio_budget.specs.declared.free.Free.{Free};
ghost use Rattle.convo.specs.declared.going.Going.{Going as Gone};
ghost use Rattle.streamdefs.specs.Terms.{Terms};
ghost use Rattle.streamdefs.specs.Convo.{Event as EventMade, answered_event, given_back};
ghost use Rattle.streamdefs.specs.Convo.Act.{Answer as AnswerAct};
ghost use Rattle.flowdir.specs.Boundary.{charge_by};
ghost use Rattle.convo.specs.Weights.{weight_of_chunks, weight_of_want};
ghost use Rattle.convo.specs.Left.{Adds, Pays, work_of_half};
ghost use Rattle.convo.specs.Going.{charges_going};
ghost use Rattle.convo.specs.Halves.{weight_of_half};
ghost use Rattle.convo.specs.Talk.{Talk, IsAnswerTo, IsWantOf, asked_in, talk_after};
ghost use Rattle.convo.specs.Standing.{IsAskWithin, IsRest, IsResting, asked_of, half_of, weight_of_convo, with_half};
ghost use Rattle.convo.specs.Stands.{Stands};
ghost use Rattle.convo.specs.Advised.{advised_by, own_by};

use crate::going::Going;
use crate::half::Half;
use crate::stage::Stage;
use crate::{AnsweredEvent, Convo, Memory, Want};
use cutclass::Cut;
use evring::{Advice, Kept, Way};
use prio_budget::Charge;
use std::alloc::Global;

impl<C: Charge> Half<C> {
    /// Keeps these chunks behind those that are kept. For want of memory they come back.
    #[tactic(auto, using(crate::proofs::Weighing::weight_behind))]
    pub(crate) fn keep(&mut self, more: Kept<C>) -> Result<(), Kept<C>>
        ensures weight { OnOk result ((w : C → ℕ) → weight_of_half w self.new ≡ weight_of_half w self.old + weight_of_chunks w more) }
        ensures left { OnOk result (work_of_half self.new ≡ work_of_half self.old) }
        ensures ok { OnOk result (self.new ≡ record self.old { kept = self.old.kept ++ more }) }
        ensures err { IfErr result (λ back. (back ≡ more) × (self.new ≡ self.old)) }
    {
        self.kept.append(more)
    }
}

impl<C: Charge> Convo<C> {
    /// Takes advice on an event.
    pub(crate) fn advise(&mut self, of: AnsweredEvent, advice: Advice)
        ensures { self.new ≡ advised_by of advice self.old }
    {
        if advice.priority.is_some() {
            self.advised = advice.priority;
        }
        self.cut(of, advice);
    }

    /// Sets the cutoffs of advice on an event.
    fn cut(&mut self, of: AnsweredEvent, advice: Advice)
        ensures { self.new ≡ record (advised_by of advice self.old) { advised = self.old.advised } }
    {
        if advice.discard {
            self.fore.own = Cut::At(0);
            self.back.own = Cut::At(0);
            return;
        }
        let Some(position) = advice.cutoff else {
            return;
        };
        match of {
            AnsweredEvent::New => {
                self.fore.own = Cut::At(position);
                self.back.own = Cut::At(position);
            }
            AnsweredEvent::Chunk(Way::Fore) => self.fore.own = Cut::At(position),
            AnsweredEvent::Chunk(Way::Back) => self.back.own = Cut::At(position),
            AnsweredEvent::Ended => {}
        }
    }

    /// Keeps chunks in a direction.
    fn keep_way(&mut self, way: Way, more: Kept<C>) -> Result<(), Kept<C>>
        ensures weight { OnOk result ((w : C → ℕ) → weight_of_convo w self.new ≡ weight_of_convo w self.old + weight_of_chunks w more) }
        ensures left { OnOk result (Adds 0 0 self.old self.new) }
        ensures ok { OnOk result (self.new ≡ with_half way (record (half_of way self.old) { kept = (half_of way self.old).kept ++ more }) self.old) }
        ensures err { IfErr result (λ back. (back ≡ more) × (self.new ≡ self.old)) }
    {
        match way {
            Way::Fore => self.fore.keep(more),
            Way::Back => self.back.keep(more),
        }
    }

    /// The next charge of an answer goes back, where there is one.
    pub(crate) fn give_next(&mut self) -> Want<C>
        requires stage { self.old.stage ≡ Stage.Answered }
        ensures turn { (t : Terms) (k : Talk) (event : ℕ) (advice : Advice) (frees : List Free) (spent : Gone C) → charges_going spent ≡ []
            → IsResting (charge_by C.amount C.stamp) t (record self.old { going = spent; stage = Stage.Resting }) (talk_after t k (AnswerAct event advice frees))
            → map (charge_by C.amount C.stamp) (charges_going self.old.going) ≡ drop (length frees) (given_back k.convo advice (answered_event k.convo))
            → IsWantOf (charge_by C.amount C.stamp) (Stands (charge_by C.amount C.stamp) self.new t) t k (AnswerAct event advice frees) 0 result }
        ensures asked { asked_of self.new ≡ asked_in result }
        ensures idle { IsRest result → charges_going self.new.going ≡ [] }
        ensures within { (limit : ℕ) → IsAskWithin limit result }
        ensures last { (self.new.fore.dir.last ≡ self.old.fore.dir.last) × (self.new.back.dir.last ≡ self.old.back.dir.last) }
        ensures left { Pays {C = C} None 0 0 result self.old self.new }
        ensures weight { (w : C → ℕ) → weight_of_convo w self.new + weight_of_want w result ≡ weight_of_convo w self.old }
    {
        if let Some(charge) = self.going.next() {
            return Want::Free(charge);
        }
        self.stage = Stage::Resting;
        Want::Rest
    }

    /// The charges of these chunks go back.
    pub(crate) fn give(&mut self, kept: Kept<C>) -> Want<C>
        requires idle { charges_going self.old.going ≡ [] }
        ensures turn { (t : Terms) (k : Talk) (event : ℕ) (advice : Advice) (frees : List Free)
            → IsResting (charge_by C.amount C.stamp) t (record self.old { stage = Stage.Resting }) (talk_after t k (AnswerAct event advice frees))
            → map (charge_by C.amount C.stamp) (charges_of_all kept) ≡ drop (length frees) (given_back k.convo advice (answered_event k.convo))
            → IsWantOf (charge_by C.amount C.stamp) (Stands (charge_by C.amount C.stamp) self.new t) t k (AnswerAct event advice frees) 0 result }
        ensures asked { asked_of self.new ≡ asked_in result }
        ensures idle { IsRest result → charges_going self.new.going ≡ [] }
        ensures within { (limit : ℕ) → IsAskWithin limit result }
        ensures last { (self.new.fore.dir.last ≡ self.old.fore.dir.last) × (self.new.back.dir.last ≡ self.old.back.dir.last) }
        ensures left { Pays {C = C} None 0 1 result self.old self.new }
        ensures weight { (w : C → ℕ) → weight_of_convo w self.new + weight_of_want w result ≡ weight_of_convo w self.old + weight_of_chunks w kept }
    {
        self.going = Going::of(kept);
        self.stage = Stage::Answered;
        self.give_next()
    }

    /// Keeps the chunks that came back; where there is no memory for that they are to be drained.
    pub(crate) fn hold(&mut self, way: Way, more: Kept<C>) -> Result<Want<C>, Memory>
        requires idle { charges_going self.old.going ≡ [] }
        ensures ok { IfOk result (λ want. (want ≡ Want.Rest) × (self.new ≡ record (with_half way (record (half_of way self.old) { kept = (half_of way self.old).kept ++ more }) self.old) { stage = Stage.Resting })) }
        ensures asked { IfOk result (λ want. asked_of self.new ≡ asked_in want) }
        ensures idle { IfOk result (λ want. IsRest want → charges_going self.new.going ≡ []) }
        ensures within { IfOk result (λ want. (limit : ℕ) → IsAskWithin limit want) }
        ensures last { (self.new.fore.dir.last ≡ self.old.fore.dir.last) × (self.new.back.dir.last ≡ self.old.back.dir.last) }
        ensures left { IfOk result (λ want. Pays {C = C} None 0 1 want self.old self.new) }
        ensures weight { IfOk result (λ want. (w : C → ℕ) → weight_of_convo w self.new + weight_of_want w want ≡ weight_of_convo w self.old + weight_of_chunks w more) }
        ensures err { OnErr result ((w : C → ℕ) → weight_of_convo w self.new ≡ weight_of_convo w self.old + weight_of_chunks w more) }
    {
        match self.keep_way(way, more) {
            Ok(()) => {
                self.stage = Stage::Resting;
                Ok(Want::Rest)
            }
            Err(back) => {
                self.stage = Stage::Resting;
                self.going = Going::of(back);
                Err(Memory)
            }
        }
    }

    /// An answer comes back: advice on an event, and chunks.
    pub fn back(
        &mut self,
        of: AnsweredEvent,
        advice: Advice,
        kept: Kept<C>,
    ) -> Result<Want<C>, Memory>
        requires idle { charges_going self.old.going ≡ [] }
        ensures turn { IfOk result (λ want. (t : Terms) (k : Talk) (e : EventMade) (n : ℕ) (frees : List Free) → IsResting (charge_by C.amount C.stamp) t self.old k
            → IsAnswerTo (charge_by C.amount C.stamp) k.convo of advice frees kept e
            → IsWantOf (charge_by C.amount C.stamp) (Stands (charge_by C.amount C.stamp) self.new t) t k (AnswerAct n advice frees) 0 want) }
        ensures asked { IfOk result (λ want. asked_of self.new ≡ asked_in want) }
        ensures idle { IfOk result (λ want. IsRest want → charges_going self.new.going ≡ []) }
        ensures within { IfOk result (λ want. (limit : ℕ) → IsAskWithin limit want) }
        ensures last { (self.new.fore.dir.last ≡ self.old.fore.dir.last) × (self.new.back.dir.last ≡ self.old.back.dir.last) }
        ensures left { IfOk result (λ want. Pays {C = C} None 0 1 want self.old self.new) }
        ensures weight { IfOk result (λ want. (w : C → ℕ) → weight_of_convo w self.new + weight_of_want w want ≡ weight_of_convo w self.old + weight_of_chunks w kept) }
        ensures err { OnErr result ((w : C → ℕ) → weight_of_convo w self.new ≡ weight_of_convo w self.old + weight_of_chunks w kept) }
    {
        match self.ended {
            Some(_) => Ok(self.give(kept)),
            None => self.take_advice(of, advice, kept),
        }
    }

    /// An answer comes back to a live conversation.
    pub(crate) fn take_advice(
        &mut self,
        of: AnsweredEvent,
        advice: Advice,
        kept: Kept<C>,
    ) -> Result<Want<C>, Memory>
        requires idle { charges_going self.old.going ≡ [] }
        requires live { self.old.ended ≡ None }
        ensures turn { IfOk result (λ want. (t : Terms) (k : Talk) (e : EventMade) (n : ℕ) (frees : List Free) → IsResting (charge_by C.amount C.stamp) t self.old k
            → IsAnswerTo (charge_by C.amount C.stamp) k.convo of advice frees kept e
            → IsWantOf (charge_by C.amount C.stamp) (Stands (charge_by C.amount C.stamp) self.new t) t k (AnswerAct n advice frees) 0 want) }
        ensures asked { IfOk result (λ want. asked_of self.new ≡ asked_in want) }
        ensures idle { IfOk result (λ want. IsRest want → charges_going self.new.going ≡ []) }
        ensures within { IfOk result (λ want. (limit : ℕ) → IsAskWithin limit want) }
        ensures last { (self.new.fore.dir.last ≡ self.old.fore.dir.last) × (self.new.back.dir.last ≡ self.old.back.dir.last) }
        ensures left { IfOk result (λ want. Pays {C = C} None 0 1 want self.old self.new) }
        ensures weight { IfOk result (λ want. (w : C → ℕ) → weight_of_convo w self.new + weight_of_want w want ≡ weight_of_convo w self.old + weight_of_chunks w kept) }
        ensures err { OnErr result ((w : C → ℕ) → weight_of_convo w self.new ≡ weight_of_convo w self.old + weight_of_chunks w kept) }
    {
        self.advise(of, advice);
        if !advice.keep {
            return Ok(self.give(kept));
        }
        match of {
            AnsweredEvent::Chunk(way) => self.hold(way, kept),
            AnsweredEvent::New => Ok(self.give(kept)),
            AnsweredEvent::Ended => Ok(self.give(kept)),
        }
    }
}
