// The end of a conversation.
ghost use Rattle.evring.specs.Charges.{charges_of_all};
ghost use Rattle.convo.specs.Directions.{DirStands, dir_kind, dir_asked};
ghost use Rattle.std.specs.Prelude.{◌≡◌, ⊤, ℕ, suc, ◌+◌, ◌≤◌, ◌^◌, [], ◌∷◌, List, length, is_none, cond, Option, Some, None, IfOk, OnErr};
ghost use Rattle.histbook.specs.declared.look_entry.LookEntry.{LookEntry};
ghost use Rattle.prio_budget.specs.declared.free.Free.{Free};
ghost use Rattle.streamdefs.specs.Lists.{is_empty};
ghost use Rattle.streamdefs.specs.Reorder.{Charge as ChargeMade};
ghost use Rattle.streamdefs.specs.Want.{want, with_free};
ghost use Rattle.streamdefs.specs.Want.Want.{Release};
ghost use Rattle.convo.specs.Talk.Phase.{Under};
ghost use Rattle.streamdefs.specs.Terms.{Terms};
ghost use Rattle.streamdefs.specs.Pending.{Piece};
ghost use Rattle.streamdefs.specs.Direction.{Direction, direction_after};
ghost use Rattle.flowdir.specs.Boundary.Phase.{Rests as DirRests};
ghost use Rattle.streamdefs.specs.Direction.Deed.{Ends};
ghost use Rattle.streamdefs.specs.Convo.{Act, kind_of};
ghost use Rattle.streamdefs.specs.Convo.Act.{End as EndAct};
ghost use Rattle.flowdir.specs.Boundary.{AsksSome, IsStep, charge_by, asked_by, weight_of_step};
ghost use Rattle.convo.specs.Weights.{weight_of_chunks, weight_of_want};
ghost use Rattle.convo.specs.Left.{Gives, Pays, grants_left, price_of, stage_work, work_left};
ghost use Rattle.convo.specs.Counted.{IsUncounted};
ghost use Rattle.convo.specs.Going.{charges_going};
ghost use Rattle.convo.specs.Halves.{Hands, weight_of_half};
ghost use Rattle.convo.specs.Talk.{Talk, SetsUp, IsWantOf, asked_in};
ghost use Rattle.convo.specs.Standing.{IsMidway, IsAskWithin, IsRest, IsResting, asked_of, half_of, last_of, weight_of_convo, with_half};
ghost use Rattle.convo.specs.Stands.{Stands};
ghost use Rattle.convo.specs.Endings.{IsBetween, LeavesBack, LeavesFore, pieces_fore, spares_back, spares_fore, unshown_back, unshown_fore, pieces_back};
ghost use Rattle.evring.specs.declared.way.Way.TheVariants.{Fore, Back};

use crate::going::Going;
use crate::moment::Moment;
use crate::stage::Stage;
use crate::{Convo, ConvoSet, Memory, Want};
use evring::{Kept, Reason, Way};
use flowdir::Step;
use prio_budget::Charge;

impl<C: Charge> Convo<C> {
    /// What is kept in a direction, and doesn't go with a chunk that is handed over.
    pub(crate) fn unshown_way(&mut self, way: Way) -> Kept<C>
        ensures same { self.new ≡ with_half way (half_of way self.new) self.old }
        ensures hands { (d : Direction) (pieces : List Piece) → Hands (charge_by C.amount C.stamp) (half_of way self.old) d pieces
            → Hands (charge_by C.amount C.stamp) (half_of way self.new) d pieces × (result ≡ cond (is_empty pieces) (half_of way self.old).kept [])
            × ((half_of way self.new).kept ≡ cond (is_empty pieces) [] (half_of way self.old).kept) }
        ensures sums { IsUncounted (half_of way self.old) (half_of way self.new) }
        ensures own { (half_of way self.new).own ≡ (half_of way self.old).own }
        ensures kind { dir_kind (half_of way self.new).dir ≡ dir_kind (half_of way self.old).dir }
        ensures last { (half_of way self.new).dir.last ≡ (half_of way self.old).dir.last }
        ensures left { Gives 0 (half_of way self.old) (half_of way self.new) }
        ensures weight { (w : C → ℕ) → weight_of_half w (half_of way self.new) + weight_of_chunks w result ≡ weight_of_half w (half_of way self.old) }
    {
        match way {
            Way::Fore => self.fore.unshown(self.alloc),
            Way::Back => self.back.unshown(self.alloc),
        }
    }

    /// What is kept in a direction, and doesn't go with a chunk that is handed over, is to go back.
    pub(crate) fn leave(&mut self, at: Moment, reason: Reason, way: Way)
        requires gone { charges_going self.old.going ≡ [] }
        ensures same { self.new ≡ record (with_half way (half_of way self.new) self.old) { going = self.new.going; stage = Stage.Unshown at reason way } }
        ensures hands { (d : Direction) (pieces : List Piece) → Hands (charge_by C.amount C.stamp) (half_of way self.old) d pieces
            → Hands (charge_by C.amount C.stamp) (half_of way self.new) d pieces
            × (charges_going self.new.going ≡ charges_of_all (cond (is_empty pieces) (half_of way self.old).kept []))
            × ((half_of way self.new).kept ≡ cond (is_empty pieces) [] (half_of way self.old).kept) }
        ensures sums { IsUncounted (half_of way self.old) (half_of way self.new) }
        ensures own { (half_of way self.new).own ≡ (half_of way self.old).own }
        ensures kind { dir_kind (half_of way self.new).dir ≡ dir_kind (half_of way self.old).dir }
        ensures last { (half_of way self.new).dir.last ≡ (half_of way self.old).dir.last }
        ensures left { grants_left self.new ≤ grants_left self.old }
        ensures work { work_left self.new + stage_work self.old.stage ≤ work_left self.old + stage_work self.new.stage }
        ensures weight { (w : C → ℕ) → weight_of_convo w self.new ≡ weight_of_convo w self.old }
    {
        let kept = self.unshown_way(way);
        self.going = Going::of(kept);
        self.stage = Stage::Unshown { at, reason, way };
    }

    /// The moves of its end are made: its events are to be handed over.
    pub(crate) fn finish_end(&mut self, reason: Reason)
        ensures { self.new ≡ record self.old { ended = Some reason; owed = None; over = Some reason; stage = Stage.Events } }
    {
        self.ended = Some(reason);
        self.owed = None;
        self.over = Some(reason);
        self.stage = Stage::Events;
    }

    /// What is kept in the other direction goes back, and then its end is told.
    pub(crate) fn unshown_back(&mut self, at: Moment, reason: Reason) -> Want<C>
        requires stage { self.old.stage ≡ Stage.Unshown at reason Back }
        ensures turn { (t : Terms) (k : Talk) (looks : List LookEntry) (frees : List Free) (more : ℕ) → LeavesBack (charge_by C.amount C.stamp) t self.old k at.at more
            → length frees ≡ length (spares_fore t k.convo at.at) + length (unshown_fore t k.convo at.at) + length (spares_back t k.convo at.at) + more
            → IsWantOf (charge_by C.amount C.stamp) (Stands (charge_by C.amount C.stamp) self.new t) t k (EndAct at.at reason looks frees) 0 result }
        ensures asked { asked_of self.new ≡ asked_in result }
        ensures idle { IsRest result → charges_going self.new.going ≡ [] }
        ensures within { (limit : ℕ) → IsAskWithin limit result }
        ensures last { (self.new.fore.dir.last ≡ self.old.fore.dir.last) × (self.new.back.dir.last ≡ self.old.back.dir.last) }
        ensures left { Pays {C = C} None 0 0 result self.old self.new }
        ensures busy { IsRest result → ⊥ }
        ensures weight { (w : C → ℕ) → weight_of_convo w self.new + weight_of_want w result ≡ weight_of_convo w self.old }
    {
        if let Some(charge) = self.going.next() {
            return Want::Free(charge);
        }
        self.finish_end(reason);
        self.hand_over()
    }

    /// A step of the other direction's end.
    #[tactic(auto, using(crate::proofs::Within::any_limit))]
    pub(crate) fn go_end_back(
        &mut self,
        set: &ConvoSet,
        at: Moment,
        reason: Reason,
        step: Step<C>,
    ) -> Want<C>
        requires stage { self.old.stage ≡ Stage.End at reason Back }
        requires some { AsksSome step }
        ensures turn { (t : Terms) (k : Talk) (looks : List LookEntry) (frees : List Free) (more : ℕ) → IsBetween (charge_by C.amount C.stamp) t self.old k at.at
            → IsStep (charge_by C.amount C.stamp) (DirStands (charge_by C.amount C.stamp) self.old.back.dir) t (kind_of t k.convo) k.convo.directions.back (Ends at.at) more [] step
            → more ≤ length (spares_back t k.convo at.at) → length frees ≡ length (spares_fore t k.convo at.at) + length (unshown_fore t k.convo at.at) + more
            → IsWantOf (charge_by C.amount C.stamp) (Stands (charge_by C.amount C.stamp) self.new t) t k (EndAct at.at reason looks frees) 0 result }
        ensures asked { dir_asked self.old.back.dir ≡ asked_by step → asked_of self.new ≡ asked_in result }
        ensures idle { IsRest result → charges_going self.new.going ≡ [] }
        ensures within { IsAskWithin set.now.marks.limit result }
        ensures last { (self.new.fore.dir.last ≡ self.old.fore.dir.last) × (self.new.back.dir.last ≡ self.old.back.dir.last) }
        ensures left { Pays {C = C} None 0 1 result self.old self.new }
        ensures busy { IsRest result → ⊥ }
        ensures weight { (w : C → ℕ) → weight_of_convo w self.new + weight_of_want w result ≡ weight_of_convo w self.old + weight_of_step w step }
    {
        match step {
            Step::Ask { bytes } => Want::Ask {
                bytes,
                mark: self.mark(set),
            },
            Step::Free(charge) => Want::Free(charge),
            Step::Done(_) => self.leave_back(at, reason),
        }
    }

    /// The other direction's end is done.
    pub(crate) fn leave_back(&mut self, at: Moment, reason: Reason) -> Want<C>
        ensures turn { (t : Terms) (k : Talk) (looks : List LookEntry) (frees : List Free) → IsBetween (charge_by C.amount C.stamp) t self.old k at.at
            → DirStands (charge_by C.amount C.stamp) self.old.back.dir (direction_after t (kind_of t k.convo) k.convo.directions.back (Ends at.at)) DirRests (pieces_back t k.convo at.at)
            → length frees ≡ length (spares_fore t k.convo at.at) + length (unshown_fore t k.convo at.at) + length (spares_back t k.convo at.at)
            → IsWantOf (charge_by C.amount C.stamp) (Stands (charge_by C.amount C.stamp) self.new t) t k (EndAct at.at reason looks frees) 0 result }
        ensures asked { asked_of self.new ≡ asked_in result }
        ensures idle { IsRest result → charges_going self.new.going ≡ [] }
        ensures within { (limit : ℕ) → IsAskWithin limit result }
        ensures last { (self.new.fore.dir.last ≡ self.old.fore.dir.last) × (self.new.back.dir.last ≡ self.old.back.dir.last) }
        ensures left { grants_left self.new ≤ grants_left self.old }
        ensures work { work_left self.new + price_of result + stage_work self.old.stage ≤ work_left self.old + 4 }
        ensures busy { IsRest result → ⊥ }
        ensures weight { (w : C → ℕ) → weight_of_convo w self.new + weight_of_want w result ≡ weight_of_convo w self.old }
    {
        if let Some(charge) = self.going.next() {
            self.stage = Stage::Answered;
            return Want::Free(charge);
        }
        self.leave(at, reason, Way::Back);
        self.unshown_back(at, reason)
    }

    /// The other direction begins to end.
    pub(crate) fn begin_end_back(
        &mut self,
        set: &ConvoSet,
        at: Moment,
        reason: Reason,
    ) -> Result<Want<C>, Memory>
        ensures turn { IfOk result (λ want. (t : Terms) (k : Talk) (looks : List LookEntry) (frees : List Free) → SetsUp set.now t
            → IsBetween (charge_by C.amount C.stamp) t self.old k at.at → DirStands (charge_by C.amount C.stamp) self.old.back.dir k.convo.directions.back DirRests []
            → length frees ≡ length (spares_fore t k.convo at.at) + length (unshown_fore t k.convo at.at)
            → IsWantOf (charge_by C.amount C.stamp) (Stands (charge_by C.amount C.stamp) self.new t) t k (EndAct at.at reason looks frees) 0 want) }
        ensures asked { IfOk result (λ want. asked_of self.new ≡ asked_in want) }
        ensures idle { IfOk result (λ want. IsRest want → charges_going self.new.going ≡ []) }
        ensures within { IfOk result (IsAskWithin set.now.marks.limit) }
        ensures last { (self.new.fore.dir.last ≡ self.old.fore.dir.last) × (self.new.back.dir.last ≡ self.old.back.dir.last) }
        ensures left { IfOk result (λ want. grants_left self.new ≤ grants_left self.old) }
        ensures work { IfOk result (λ want. work_left self.new + price_of want + stage_work self.old.stage ≤ work_left self.old + 5) }
        ensures busy { IfOk result (λ want. IsRest want → ⊥) }
        ensures weight { IfOk result (λ want. (w : C → ℕ) → weight_of_convo w self.new + weight_of_want w want ≡ weight_of_convo w self.old) }
        ensures err { OnErr result ((w : C → ℕ) → weight_of_convo w self.new ≡ weight_of_convo w self.old) }
    {
        let at_most = at.at;
        self.stage = Stage::End {
            at,
            reason,
            way: Way::Back,
        };
        let step = self.end_way(Way::Back, at_most)?;
        Ok(self.go_end_back(set, at, reason, step))
    }

    /// What is kept in the first direction goes back, and then the other one ends.
    pub(crate) fn unshown_fore(
        &mut self,
        set: &ConvoSet,
        at: Moment,
        reason: Reason,
    ) -> Result<Want<C>, Memory>
        requires stage { self.old.stage ≡ Stage.Unshown at reason Fore }
        ensures turn { IfOk result (λ want. (t : Terms) (k : Talk) (looks : List LookEntry) (frees : List Free) (more : ℕ) → SetsUp set.now t
            → LeavesFore (charge_by C.amount C.stamp) t self.old k at.at more → more ≤ length (unshown_fore t k.convo at.at) → length frees ≡ length (spares_fore t k.convo at.at) + more
            → IsWantOf (charge_by C.amount C.stamp) (Stands (charge_by C.amount C.stamp) self.new t) t k (EndAct at.at reason looks frees) 0 want) }
        ensures asked { IfOk result (λ want. asked_of self.new ≡ asked_in want) }
        ensures idle { IfOk result (λ want. IsRest want → charges_going self.new.going ≡ []) }
        ensures within { IfOk result (IsAskWithin set.now.marks.limit) }
        ensures last { (self.new.fore.dir.last ≡ self.old.fore.dir.last) × (self.new.back.dir.last ≡ self.old.back.dir.last) }
        ensures left { IfOk result (λ want. Pays {C = C} None 0 0 want self.old self.new) }
        ensures busy { IfOk result (λ want. IsRest want → ⊥) }
        ensures weight { IfOk result (λ want. (w : C → ℕ) → weight_of_convo w self.new + weight_of_want w want ≡ weight_of_convo w self.old) }
        ensures err { OnErr result ((w : C → ℕ) → weight_of_convo w self.new ≡ weight_of_convo w self.old) }
    {
        if let Some(charge) = self.going.next() {
            return Ok(Want::Free(charge));
        }
        self.begin_end_back(set, at, reason)
    }

    /// The first direction's end is done.
    pub(crate) fn leave_fore(
        &mut self,
        set: &ConvoSet,
        at: Moment,
        reason: Reason,
    ) -> Result<Want<C>, Memory>
        ensures turn { IfOk result (λ want. (t : Terms) (k : Talk) (looks : List LookEntry) (frees : List Free) → SetsUp set.now t
            → IsMidway (charge_by C.amount C.stamp) t self.old k Fore
            → DirStands (charge_by C.amount C.stamp) self.old.fore.dir (direction_after t (kind_of t k.convo) k.convo.directions.fore (Ends at.at)) DirRests (pieces_fore t k.convo at.at)
            → length frees ≡ length (spares_fore t k.convo at.at)
            → IsWantOf (charge_by C.amount C.stamp) (Stands (charge_by C.amount C.stamp) self.new t) t k (EndAct at.at reason looks frees) 0 want) }
        ensures asked { IfOk result (λ want. asked_of self.new ≡ asked_in want) }
        ensures idle { IfOk result (λ want. IsRest want → charges_going self.new.going ≡ []) }
        ensures within { IfOk result (IsAskWithin set.now.marks.limit) }
        ensures last { (self.new.fore.dir.last ≡ self.old.fore.dir.last) × (self.new.back.dir.last ≡ self.old.back.dir.last) }
        ensures left { IfOk result (λ want. grants_left self.new ≤ grants_left self.old) }
        ensures work { IfOk result (λ want. work_left self.new + price_of want + stage_work self.old.stage ≤ work_left self.old + 5) }
        ensures busy { IfOk result (λ want. IsRest want → ⊥) }
        ensures weight { IfOk result (λ want. (w : C → ℕ) → weight_of_convo w self.new + weight_of_want w want ≡ weight_of_convo w self.old) }
        ensures err { OnErr result ((w : C → ℕ) → weight_of_convo w self.new ≡ weight_of_convo w self.old) }
    {
        if let Some(charge) = self.going.next() {
            self.stage = Stage::Answered;
            return Ok(Want::Free(charge));
        }
        self.leave(at, reason, Way::Fore);
        self.unshown_fore(set, at, reason)
    }

    /// A step of the first direction's end.
    pub(crate) fn go_end_fore(
        &mut self,
        set: &ConvoSet,
        at: Moment,
        reason: Reason,
        step: Step<C>,
    ) -> Result<Want<C>, Memory>
        requires stage { self.old.stage ≡ Stage.End at reason Fore }
        requires some { AsksSome step }
        ensures turn { IfOk result (λ want. (t : Terms) (k : Talk) (looks : List LookEntry) (frees : List Free) → SetsUp set.now t
            → IsMidway (charge_by C.amount C.stamp) t self.old k Fore
            → IsStep (charge_by C.amount C.stamp) (DirStands (charge_by C.amount C.stamp) self.old.fore.dir) t (kind_of t k.convo) k.convo.directions.fore (Ends at.at) (length frees) [] step
            → length frees ≤ length (spares_fore t k.convo at.at)
            → IsWantOf (charge_by C.amount C.stamp) (Stands (charge_by C.amount C.stamp) self.new t) t k (EndAct at.at reason looks frees) 0 want) }
        ensures asked { IfOk result (λ want. dir_asked self.old.fore.dir ≡ asked_by step → asked_of self.new ≡ asked_in want) }
        ensures idle { IfOk result (λ want. IsRest want → charges_going self.new.going ≡ []) }
        ensures within { IfOk result (IsAskWithin set.now.marks.limit) }
        ensures last { (self.new.fore.dir.last ≡ self.old.fore.dir.last) × (self.new.back.dir.last ≡ self.old.back.dir.last) }
        ensures left { IfOk result (λ want. Pays {C = C} None 0 1 want self.old self.new) }
        ensures busy { IfOk result (λ want. IsRest want → ⊥) }
        ensures weight { IfOk result (λ want. (w : C → ℕ) → weight_of_convo w self.new + weight_of_want w want ≡ weight_of_convo w self.old + weight_of_step w step) }
        ensures err { OnErr result ((w : C → ℕ) → weight_of_convo w self.new ≡ weight_of_convo w self.old + weight_of_step w step) }
    {
        match step {
            Step::Ask { bytes } => Ok(Want::Ask {
                bytes,
                mark: self.mark(set),
            }),
            Step::Free(charge) => Ok(Want::Free(charge)),
            Step::Done(_) => self.leave_fore(set, at, reason),
        }
    }

    /// It ends. It has something to tell at least: its end.
    pub fn end(&mut self, set: &ConvoSet, at: u64, reason: Reason) -> Result<Want<C>, Memory>
        requires at { at ≤ 2 ^ 62 }
        ensures turn { IfOk result (λ want. (t : Terms) (k : Talk) → SetsUp set.now t → IsResting (charge_by C.amount C.stamp) t self.old k
            → IsWantOf (charge_by C.amount C.stamp) (Stands (charge_by C.amount C.stamp) self.new t) t k (EndAct at reason [] []) 0 want) }
        ensures asked { IfOk result (λ want. asked_of self.new ≡ asked_in want) }
        ensures idle { IfOk result (λ want. IsRest want → charges_going self.new.going ≡ []) }
        ensures within { IfOk result (IsAskWithin set.now.marks.limit) }
        ensures last { (self.new.fore.dir.last ≡ self.old.fore.dir.last) × (self.new.back.dir.last ≡ self.old.back.dir.last) }
        ensures left { IfOk result (λ want. Pays {C = C} None 0 6 want self.old self.new) }
        ensures busy { IfOk result (λ want. IsRest want → ⊥) }
        ensures weight { IfOk result (λ want. (w : C → ℕ) → weight_of_convo w self.new + weight_of_want w want ≡ weight_of_convo w self.old) }
        ensures err { OnErr result ((w : C → ℕ) → weight_of_convo w self.new ≡ weight_of_convo w self.old) }
    {
        let moment = Moment { at };
        self.stage = Stage::End {
            at: moment,
            reason,
            way: Way::Fore,
        };
        let step = self.end_way(Way::Fore, at)?;
        self.go_end_fore(set, moment, reason, step)
    }

    /// A spare charge of the first direction was given back at its end.
    pub(crate) fn freed_end_fore(
        &mut self,
        set: &ConvoSet,
        at: Moment,
        reason: Reason,
    ) -> Result<Want<C>, Memory>
        requires stage { self.old.stage ≡ Stage.End at reason Fore }
        ensures turn { IfOk result (λ w. (t : Terms) (k : Talk) (act : Act) (emitted : ℕ) (free : Free) (charge : ChargeMade) → SetsUp set.now t
            → Stands (charge_by C.amount C.stamp) self.old t k (Under act emitted) → want t k.convo act emitted ≡ Release charge
            → IsWantOf (charge_by C.amount C.stamp) (Stands (charge_by C.amount C.stamp) self.new t) t k (with_free free act) emitted w) }
        ensures asked { IfOk result (λ want. asked_of self.new ≡ asked_in want) }
        ensures idle { IfOk result (λ want. IsRest want → charges_going self.new.going ≡ []) }
        ensures within { IfOk result (IsAskWithin set.now.marks.limit) }
        ensures last { (self.new.fore.dir.last ≡ self.old.fore.dir.last) × (self.new.back.dir.last ≡ self.old.back.dir.last) }
        ensures left { IfOk result (λ want. Pays {C = C} None 0 0 want self.old self.new) }
        ensures weight { IfOk result (λ want. (w : C → ℕ) → weight_of_convo w self.new + weight_of_want w want ≡ weight_of_convo w self.old) }
        ensures err { OnErr result ((w : C → ℕ) → weight_of_convo w self.new ≡ weight_of_convo w self.old) }
    {
        let step = self.freed_way(Way::Fore)?;
        self.go_end_fore(set, at, reason, step)
    }

    /// A charge of what is kept in the first direction was given back.
    pub(crate) fn freed_unshown_fore(
        &mut self,
        set: &ConvoSet,
        at: Moment,
        reason: Reason,
    ) -> Result<Want<C>, Memory>
        requires stage { self.old.stage ≡ Stage.Unshown at reason Fore }
        ensures turn { IfOk result (λ w. (t : Terms) (k : Talk) (act : Act) (emitted : ℕ) (free : Free) (charge : ChargeMade) → SetsUp set.now t
            → Stands (charge_by C.amount C.stamp) self.old t k (Under act emitted) → want t k.convo act emitted ≡ Release charge
            → IsWantOf (charge_by C.amount C.stamp) (Stands (charge_by C.amount C.stamp) self.new t) t k (with_free free act) emitted w) }
        ensures asked { IfOk result (λ want. asked_of self.new ≡ asked_in want) }
        ensures idle { IfOk result (λ want. IsRest want → charges_going self.new.going ≡ []) }
        ensures within { IfOk result (IsAskWithin set.now.marks.limit) }
        ensures last { (self.new.fore.dir.last ≡ self.old.fore.dir.last) × (self.new.back.dir.last ≡ self.old.back.dir.last) }
        ensures left { IfOk result (λ want. Pays {C = C} None 0 0 want self.old self.new) }
        ensures weight { IfOk result (λ want. (w : C → ℕ) → weight_of_convo w self.new + weight_of_want w want ≡ weight_of_convo w self.old) }
        ensures err { OnErr result ((w : C → ℕ) → weight_of_convo w self.new ≡ weight_of_convo w self.old) }
    {
        self.unshown_fore(set, at, reason)
    }

    /// A spare charge of the other direction was given back at its end.
    pub(crate) fn freed_end_back(
        &mut self,
        set: &ConvoSet,
        at: Moment,
        reason: Reason,
    ) -> Result<Want<C>, Memory>
        requires stage { self.old.stage ≡ Stage.End at reason Back }
        ensures turn { IfOk result (λ w. (t : Terms) (k : Talk) (act : Act) (emitted : ℕ) (free : Free) (charge : ChargeMade) → SetsUp set.now t
            → Stands (charge_by C.amount C.stamp) self.old t k (Under act emitted) → want t k.convo act emitted ≡ Release charge
            → IsWantOf (charge_by C.amount C.stamp) (Stands (charge_by C.amount C.stamp) self.new t) t k (with_free free act) emitted w) }
        ensures asked { IfOk result (λ want. asked_of self.new ≡ asked_in want) }
        ensures idle { IfOk result (λ want. IsRest want → charges_going self.new.going ≡ []) }
        ensures within { IfOk result (IsAskWithin set.now.marks.limit) }
        ensures last { (self.new.fore.dir.last ≡ self.old.fore.dir.last) × (self.new.back.dir.last ≡ self.old.back.dir.last) }
        ensures left { IfOk result (λ want. Pays {C = C} None 0 0 want self.old self.new) }
        ensures weight { IfOk result (λ want. (w : C → ℕ) → weight_of_convo w self.new + weight_of_want w want ≡ weight_of_convo w self.old) }
        ensures err { OnErr result ((w : C → ℕ) → weight_of_convo w self.new ≡ weight_of_convo w self.old) }
    {
        let step = self.freed_way(Way::Back)?;
        Ok(self.go_end_back(set, at, reason, step))
    }

    /// A charge of what is kept in the other direction was given back.
    #[tactic(auto, using(crate::proofs::Within::any_limit))]
    pub(crate) fn freed_unshown_back(
        &mut self,
        set: &ConvoSet,
        at: Moment,
        reason: Reason,
    ) -> Result<Want<C>, Memory>
        requires stage { self.old.stage ≡ Stage.Unshown at reason Back }
        ensures turn { IfOk result (λ w. (t : Terms) (k : Talk) (act : Act) (emitted : ℕ) (free : Free) (charge : ChargeMade) → SetsUp set.now t
            → Stands (charge_by C.amount C.stamp) self.old t k (Under act emitted) → want t k.convo act emitted ≡ Release charge
            → IsWantOf (charge_by C.amount C.stamp) (Stands (charge_by C.amount C.stamp) self.new t) t k (with_free free act) emitted w) }
        ensures asked { IfOk result (λ want. asked_of self.new ≡ asked_in want) }
        ensures idle { IfOk result (λ want. IsRest want → charges_going self.new.going ≡ []) }
        ensures within { IfOk result (IsAskWithin set.now.marks.limit) }
        ensures last { (self.new.fore.dir.last ≡ self.old.fore.dir.last) × (self.new.back.dir.last ≡ self.old.back.dir.last) }
        ensures left { IfOk result (λ want. Pays {C = C} None 0 0 want self.old self.new) }
        ensures weight { IfOk result (λ want. (w : C → ℕ) → weight_of_convo w self.new + weight_of_want w want ≡ weight_of_convo w self.old) }
        ensures err { OnErr result ((w : C → ℕ) → weight_of_convo w self.new ≡ weight_of_convo w self.old) }
    {
        let _ = set;
        Ok(self.unshown_back(at, reason))
    }
}
