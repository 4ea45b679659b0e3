// An entry under way goes on.
ghost use Rattle.convo.specs.Directions.{dir_asked};
ghost use Rattle.std.specs.Prelude.{◌≡◌, ⊤, ℕ, suc, ◌+◌, [], ◌∷◌, List, length, Option, Some, None, IfOk, IfSome, OnErr};
ghost use Rattle.histbook.specs.declared.look_entry.LookEntry.{LookEntry};
ghost use Rattle.prio_budget.specs.declared.free.Free.{Free};
ghost use Rattle.streamdefs.specs.Terms.{Terms};
ghost use Rattle.streamdefs.specs.Reorder.{Charge as ChargeMade};
ghost use Rattle.streamdefs.specs.View.{Ask as Request};
ghost use Rattle.streamdefs.specs.Convo.{Act, Event as EventMade};
ghost use Rattle.streamdefs.specs.Want.{want, with_look, with_free};
ghost use Rattle.streamdefs.specs.Want.Want.{Reserve, Release, Emit as EmitWanted};
ghost use Rattle.flowdir.specs.Boundary.{IsLookOf, IsTimely, charge_by, weight_of};
ghost use Rattle.convo.specs.Weights.{weight_of_want};
ghost use Rattle.convo.specs.Left.{Pays};
ghost use Rattle.convo.specs.Going.{charges_going};
ghost use Rattle.convo.specs.Talk.{Talk, SetsUp, IsWantOf, asked_in};
ghost use Rattle.convo.specs.Talk.Phase.{Under};
ghost use Rattle.convo.specs.Standing.{IsAskWithin, IsRest, asked_of, half_of, last_of, weight_of_convo};
ghost use Rattle.convo.specs.Stands.{Stands};
ghost use Rattle.evring.specs.declared.way.Way.TheVariants.{Fore, Back};

use crate::moment::Moment;
use crate::stage::Stage;
use crate::{Convo, ConvoSet, Memory, Want};
use evring::{Reason, Way};
use prio_budget::Charge;

impl<C: Charge> Convo<C> {
    /// An answer at an End, which asks for nothing.
    fn told_end(
        &mut self,
        set: &ConvoSet,
        at: Moment,
        reason: Reason,
        way: Way,
        granted: Option<C>,
    ) -> Result<Want<C>, Memory>
        requires stage { self.old.stage ≡ Stage.End at reason way }
        requires granted { IfSome granted (λ charge. dir_asked (half_of way self.old).dir ≡ Some (C.amount charge)) }
        ensures turn { IfOk result (λ w. (t : Terms) (k : Talk) (act : Act) (emitted : ℕ) (look : LookEntry) (request : Request) (mark : ℕ) → SetsUp set.now t
            → Stands (charge_by C.amount C.stamp) self.old t k (Under act emitted) → want t k.convo act emitted ≡ Reserve request mark → IsLookOf (charge_by C.amount C.stamp) granted look
            → IsWantOf (charge_by C.amount C.stamp) (Stands (charge_by C.amount C.stamp) self.new t) t k (with_look look act) emitted w) }
        ensures asked { IfOk result (λ want. asked_of self.new ≡ asked_in want) }
        ensures idle { IfOk result (λ want. IsRest want → charges_going self.new.going ≡ []) }
        ensures within { IfOk result (IsAskWithin set.now.marks.limit) }
        ensures last { last_of self.new ≡ last_of self.old }
        ensures left { IfOk result (λ want. Pays granted 0 0 want self.old self.new) }
        ensures weight { IfOk result (λ want. (w : C → ℕ) → weight_of_convo w self.new + weight_of_want w want ≡ weight_of_convo w self.old + weight_of w granted) }
        ensures err { OnErr result ((w : C → ℕ) → weight_of_convo w self.new ≡ weight_of_convo w self.old + weight_of w granted) }
    {
        let step = self.told_way(set, way, granted)?;
        match way {
            Way::Fore => self.go_end_fore(set, at, reason, step),
            Way::Back => Ok(self.go_end_back(set, at, reason, step)),
        }
    }

    /// The ask is answered: granted by a charge, or refused. Answered with want of memory where nothing is under way.
    #[tactic(auto, using(crate::proofs::Within::any_limit))]
    pub fn told(&mut self, set: &ConvoSet, granted: Option<C>) -> Result<Want<C>, Memory>
        requires granted { IfSome granted (λ charge. asked_of self.old ≡ Some (C.amount charge)) }
        ensures turn { IfOk result (λ w. (t : Terms) (k : Talk) (act : Act) (emitted : ℕ) (look : LookEntry) (request : Request) (mark : ℕ) → SetsUp set.now t
            → Stands (charge_by C.amount C.stamp) self.old t k (Under act emitted) → want t k.convo act emitted ≡ Reserve request mark → IsLookOf (charge_by C.amount C.stamp) granted look
            → IsWantOf (charge_by C.amount C.stamp) (Stands (charge_by C.amount C.stamp) self.new t) t k (with_look look act) emitted w) }
        ensures asked { IfOk result (λ want. asked_of self.new ≡ asked_in want) }
        ensures idle { IfOk result (λ want. IsRest want → charges_going self.new.going ≡ []) }
        ensures within { IfOk result (IsAskWithin set.now.marks.limit) }
        ensures last { last_of self.new ≡ last_of self.old }
        ensures left { IfOk result (λ want. Pays granted 0 0 want self.old self.new) }
        ensures weight { IfOk result (λ want. (w : C → ℕ) → weight_of_convo w self.new + weight_of_want w want ≡ weight_of_convo w self.old + weight_of w granted) }
        ensures err { OnErr result ((w : C → ℕ) → weight_of_convo w self.new ≡ weight_of_convo w self.old + weight_of w granted) }
    {
        match self.stage {
            Stage::Segment { way, now, reset } => self.told_segment(set, way, now, reset, granted),
            Stage::Time { at, way: Way::Fore } => self.told_time_fore(set, at, granted),
            Stage::Time { at, way: Way::Back } => self.told_time_back(set, at, granted),
            Stage::End { at, reason, way } => self.told_end(set, at, reason, way, granted),
            Stage::Unshown { .. } => Ok(self.rest()),
            Stage::Answered => Ok(self.rest()),
            Stage::Events => Ok(self.rest()),
            Stage::Resting => Err(Memory),
        }
    }

    /// A charge of an answer was given back.
    #[tactic(auto, using(crate::proofs::Within::any_limit))]
    pub(crate) fn freed_answered(&mut self, set: &ConvoSet) -> Result<Want<C>, Memory>
        requires stage { self.old.stage ≡ Stage.Answered }
        ensures turn { IfOk result (λ w. (t : Terms) (k : Talk) (act : Act) (emitted : ℕ) (free : Free) (charge : ChargeMade) → SetsUp set.now t
            → Stands (charge_by C.amount C.stamp) self.old t k (Under act emitted) → want t k.convo act emitted ≡ Release charge
            → IsWantOf (charge_by C.amount C.stamp) (Stands (charge_by C.amount C.stamp) self.new t) t k (with_free free act) emitted w) }
        ensures asked { IfOk result (λ want. asked_of self.new ≡ asked_in want) }
        ensures idle { IfOk result (λ want. IsRest want → charges_going self.new.going ≡ []) }
        ensures within { IfOk result (IsAskWithin set.now.marks.limit) }
        ensures last { last_of self.new ≡ last_of self.old }
        ensures left { IfOk result (λ want. Pays {C = C} None 0 0 want self.old self.new) }
        ensures weight { IfOk result (λ want. (w : C → ℕ) → weight_of_convo w self.new + weight_of_want w want ≡ weight_of_convo w self.old) }
        ensures err { OnErr result ((w : C → ℕ) → weight_of_convo w self.new ≡ weight_of_convo w self.old) }
    {
        let _ = set;
        Ok(self.give_next())
    }

    /// The charge was given back. Answered with want of memory where nothing is under way.
    #[tactic(auto, using(crate::proofs::Within::any_limit))]
    pub fn freed(&mut self, set: &ConvoSet) -> Result<Want<C>, Memory>
        ensures turn { IfOk result (λ w. (t : Terms) (k : Talk) (act : Act) (emitted : ℕ) (free : Free) (charge : ChargeMade) → SetsUp set.now t
            → Stands (charge_by C.amount C.stamp) self.old t k (Under act emitted) → want t k.convo act emitted ≡ Release charge
            → IsWantOf (charge_by C.amount C.stamp) (Stands (charge_by C.amount C.stamp) self.new t) t k (with_free free act) emitted w) }
        ensures asked { IfOk result (λ want. asked_of self.new ≡ asked_in want) }
        ensures idle { IfOk result (λ want. IsRest want → charges_going self.new.going ≡ []) }
        ensures within { IfOk result (IsAskWithin set.now.marks.limit) }
        ensures last { last_of self.new ≡ last_of self.old }
        ensures left { IfOk result (λ want. Pays {C = C} None 0 0 want self.old self.new) }
        ensures weight { IfOk result (λ want. (w : C → ℕ) → weight_of_convo w self.new + weight_of_want w want ≡ weight_of_convo w self.old) }
        ensures err { OnErr result ((w : C → ℕ) → weight_of_convo w self.new ≡ weight_of_convo w self.old) }
    {
        match self.stage {
            Stage::Segment { way, now, reset } => self.freed_segment(set, way, now, reset),
            Stage::Time { at, way: Way::Fore } => self.freed_time_fore(set, at),
            Stage::Time { at, way: Way::Back } => self.freed_time_back(set, at),
            Stage::End {
                at,
                reason,
                way: Way::Fore,
            } => self.freed_end_fore(set, at, reason),
            Stage::End {
                at,
                reason,
                way: Way::Back,
            } => self.freed_end_back(set, at, reason),
            Stage::Unshown {
                at,
                reason,
                way: Way::Fore,
            } => self.freed_unshown_fore(set, at, reason),
            Stage::Unshown {
                at,
                reason,
                way: Way::Back,
            } => self.freed_unshown_back(set, at, reason),
            Stage::Answered => self.freed_answered(set),
            Stage::Events => Ok(self.rest()),
            Stage::Resting => Err(Memory),
        }
    }

    /// The event was handed over. Answered with want of memory where nothing is under way.
    #[tactic(auto, using(crate::proofs::Within::any_limit))]
    pub fn emitted(&mut self, set: &ConvoSet) -> Result<Want<C>, Memory>
        ensures turn { IfOk result (λ w. (t : Terms) (k : Talk) (act : Act) (emitted : ℕ) (event : EventMade) → SetsUp set.now t
            → Stands (charge_by C.amount C.stamp) self.old t k (Under act emitted) → want t k.convo act emitted ≡ EmitWanted event
            → IsWantOf (charge_by C.amount C.stamp) (Stands (charge_by C.amount C.stamp) self.new t) t k act (suc emitted) w) }
        ensures asked { IfOk result (λ want. asked_of self.new ≡ asked_in want) }
        ensures idle { IfOk result (λ want. IsRest want → charges_going self.new.going ≡ []) }
        ensures within { IfOk result (IsAskWithin set.now.marks.limit) }
        ensures last { last_of self.new ≡ last_of self.old }
        ensures left { IfOk result (λ want. Pays {C = C} None 0 0 want self.old self.new) }
        ensures weight { IfOk result (λ want. (w : C → ℕ) → weight_of_convo w self.new + weight_of_want w want ≡ weight_of_convo w self.old) }
        ensures err { OnErr result ((w : C → ℕ) → weight_of_convo w self.new ≡ weight_of_convo w self.old) }
    {
        let _ = set;
        match self.stage {
            Stage::Events => Ok(self.emitted_event()),
            Stage::Resting => Err(Memory),
            _ => {
                self.stage = Stage::Resting;
                Ok(self.rest())
            }
        }
    }
}
