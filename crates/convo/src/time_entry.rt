// A moment that is due.
ghost use Rattle.convo.specs.Directions.{DirStands, IsAskedBehind, dir_asked, dir_due, due_now, if_done};
ghost use Rattle.std.specs.Prelude.{◌≡◌, ⊤, ℕ, suc, ◌+◌, ◌*◌, ◌≤◌, ◌^◌, ◌++◌, [], ◌∷◌, List, length, is_none, cond, Option, Some, None, IfOk, IfSome, OnErr};
ghost use Rattle.histbook.specs.declared.look_entry.LookEntry.{LookEntry};
ghost use Rattle.prio_budget.specs.declared.free.Free.{Free};
ghost use Rattle.streamdefs.specs.Reorder.{Charge as ChargeMade};
ghost use Rattle.streamdefs.specs.View.{Ask as Request};
ghost use Rattle.streamdefs.specs.Want.{want, with_look, with_free};
ghost use Rattle.streamdefs.specs.Want.Want.{Reserve, Release};
ghost use Rattle.convo.specs.Talk.Phase.{Under};
ghost use Rattle.streamdefs.specs.Terms.{Terms};
ghost use Rattle.streamdefs.specs.Pending.{Piece};
ghost use Rattle.streamdefs.specs.Direction.{Direction, direction_after};
ghost use Rattle.streamdefs.specs.Direction.Deed.{Falls_due};
ghost use Rattle.streamdefs.specs.Convo.{Act, kind_of};
ghost use Rattle.streamdefs.specs.Convo.Act.{Time as TimeAct};
ghost use Rattle.flowdir.specs.Boundary.{AsksSome, IsLookOf, IsStep, IsTimely, weight_of, charge_by, asked_by, weight_of_step};
ghost use Rattle.flowdir.specs.Boundary.Phase.{Rests as DirRests};
ghost use Rattle.convo.specs.Weights.{weight_of_want};
ghost use Rattle.convo.specs.Left.{Lowers, Pays, due_at, grants_left, price_of, stage_work, work_left};
ghost use Rattle.convo.specs.Going.{charges_going};
ghost use Rattle.convo.specs.Talk.{Talk, SetsUp, IsWantOf, asked_in};
ghost use Rattle.convo.specs.Standing.{IsMidway, IsAskWithin, IsRest, IsResting, asked_of, closing_by, done_of, half_of, weight_of_convo};
ghost use Rattle.convo.specs.Stands.{Stands};
ghost use Rattle.convo.specs.Timings.{IsTimeDone, asks_due, finished_time, owed_by_time, pieces_due, spares_due};
ghost use Rattle.evring.specs.declared.way.Way.TheVariants.{Fore, Back};

use crate::moment::Moment;
use crate::stage::Stage;
use crate::{Convo, ConvoSet, Memory, Want};
use evring::Way;
use flowdir::Step;
use prio_budget::Charge;

impl<C: Charge> Convo<C> {
    /// The moves of a moment are made: its events are to be handed over.
    pub(crate) fn finish_time(&mut self, set: &ConvoSet, at: u64)
        ensures same { self.new ≡ finished_time self.new.owed self.old }
        ensures owed { (fore back : Direction) (a b : List Piece) → DirStands (charge_by C.amount C.stamp) self.old.fore.dir fore DirRests a → DirStands (charge_by C.amount C.stamp) self.old.back.dir back DirRests b
            → self.new.owed ≡ owed_by_time (is_none self.old.ended) (closing_by (done_of self.old set.now Fore fore) (done_of self.old set.now Back back) at) }
    {
        let closed = self.closing(set, at);
        self.stage = Stage::Events;
        self.owed = match self.ended {
            Some(_) => None,
            None => closed,
        };
    }

    /// A step of the other direction at a moment.
    #[tactic(auto, using(crate::proofs::Within::any_limit))]
    pub(crate) fn go_time_back(&mut self, set: &ConvoSet, at: Moment, step: Step<C>) -> Want<C>
        requires stage { self.old.stage ≡ Stage.Time at Back }
        requires some { AsksSome step }
        ensures turn { (t : Terms) (k : Talk) (first more : List LookEntry) (frees : List Free) (back : ℕ) → SetsUp set.now t → IsTimeDone (charge_by C.amount C.stamp) t self.old k at.at first
            → IsStep (charge_by C.amount C.stamp) (DirStands (charge_by C.amount C.stamp) self.old.back.dir) t (kind_of t k.convo) k.convo.directions.back (Falls_due at.at more) back [] step
            → length frees ≡ length (spares_due t (kind_of t k.convo) k.convo.directions.fore at.at) + back
            → IsWantOf (charge_by C.amount C.stamp) (Stands (charge_by C.amount C.stamp) self.new t) t k (TimeAct at.at (first ++ more) frees) 0 result }
        ensures asked { IsAskedBehind self.old.back.dir step → asked_of self.new ≡ asked_in result }
        ensures idle { IsRest result → charges_going self.new.going ≡ [] }
        ensures within { IsAskWithin set.now.marks.limit result }
        ensures last { (self.new.fore.dir.last ≡ self.old.fore.dir.last) × (self.new.back.dir.last ≡ self.old.back.dir.last) }
        ensures left { Pays {C = C} None 0 1 result self.old self.new }
        ensures weight { (w : C → ℕ) → weight_of_convo w self.new + weight_of_want w result ≡ weight_of_convo w self.old + weight_of_step w step }
    {
        match step {
            Step::Ask { bytes } => Want::Ask {
                bytes,
                mark: self.mark(set),
            },
            Step::Free(charge) => Want::Free(charge),
            Step::Done(_) => {
                self.finish_time(set, at.at);
                self.hand_over()
            }
        }
    }

    /// The other direction begins at a moment.
    pub(crate) fn begin_time_back(&mut self, set: &ConvoSet, at: Moment) -> Result<Want<C>, Memory>
        ensures turn { IfOk result (λ want. (t : Terms) (k : Talk) (looks : List LookEntry) (frees : List Free) → SetsUp set.now t → IsTimeDone (charge_by C.amount C.stamp) t self.old k at.at looks
            → DirStands (charge_by C.amount C.stamp) self.old.back.dir k.convo.directions.back DirRests [] → length frees ≡ length (spares_due t (kind_of t k.convo) k.convo.directions.fore at.at)
            → IsWantOf (charge_by C.amount C.stamp) (Stands (charge_by C.amount C.stamp) self.new t) t k (TimeAct at.at looks frees) 0 want) }
        ensures asked { IfOk result (λ want. asked_of self.new ≡ asked_in want) }
        ensures idle { IfOk result (λ want. IsRest want → charges_going self.new.going ≡ []) }
        ensures within { IfOk result (IsAskWithin set.now.marks.limit) }
        ensures last { (self.new.fore.dir.last ≡ self.old.fore.dir.last) × (self.new.back.dir.last ≡ self.old.back.dir.last) }
        ensures left { IfOk result (λ want. grants_left self.new ≤ grants_left self.old) }
        ensures due { IfOk result (λ want. work_left self.new + price_of want + 8 * due_now at.at (dir_due set.now.shape.hole set.now.shape.flush self.old.back.dir) + stage_work self.old.stage ≤ work_left self.old + 2) }
        ensures weight { IfOk result (λ want. (w : C → ℕ) → weight_of_convo w self.new + weight_of_want w want ≡ weight_of_convo w self.old) }
        ensures err { OnErr result ((w : C → ℕ) → weight_of_convo w self.new ≡ weight_of_convo w self.old) }
    {
        let moment = at.at;
        self.stage = Stage::Time { at, way: Way::Back };
        let step = self.time_way(set, Way::Back, moment)?;
        Ok(self.go_time_back(set, at, step))
    }

    /// A step of the first direction at a moment.
    pub(crate) fn go_time_fore(
        &mut self,
        set: &ConvoSet,
        at: Moment,
        step: Step<C>,
    ) -> Result<Want<C>, Memory>
        requires stage { self.old.stage ≡ Stage.Time at Fore }
        requires some { AsksSome step }
        ensures turn { IfOk result (λ want. (t : Terms) (k : Talk) (looks : List LookEntry) (frees : List Free) → SetsUp set.now t → IsMidway (charge_by C.amount C.stamp) t self.old k Fore
            → IsStep (charge_by C.amount C.stamp) (DirStands (charge_by C.amount C.stamp) self.old.fore.dir) t (kind_of t k.convo) k.convo.directions.fore (Falls_due at.at looks) (length frees) [] step
            → length looks ≤ length (asks_due t (kind_of t k.convo) k.convo.directions.fore at.at) → length frees ≤ length (spares_due t (kind_of t k.convo) k.convo.directions.fore at.at)
            → IsWantOf (charge_by C.amount C.stamp) (Stands (charge_by C.amount C.stamp) self.new t) t k (TimeAct at.at looks frees) 0 want) }
        ensures asked { IfOk result (λ want. IsAskedBehind self.old.fore.dir step → asked_of self.new ≡ asked_in want) }
        ensures idle { IfOk result (λ want. IsRest want → charges_going self.new.going ≡ []) }
        ensures within { IfOk result (IsAskWithin set.now.marks.limit) }
        ensures last { (self.new.fore.dir.last ≡ self.old.fore.dir.last) × (self.new.back.dir.last ≡ self.old.back.dir.last) }
        ensures left { IfOk result (λ want. grants_left self.new ≤ grants_left self.old) }
        ensures due { IfOk result (λ want. work_left self.new + price_of want + 8 * if_done step (due_now at.at (dir_due set.now.shape.hole set.now.shape.flush self.old.back.dir)) ≤ work_left self.old + 1) }
        ensures weight { IfOk result (λ want. (w : C → ℕ) → weight_of_convo w self.new + weight_of_want w want ≡ weight_of_convo w self.old + weight_of_step w step) }
        ensures err { OnErr result ((w : C → ℕ) → weight_of_convo w self.new ≡ weight_of_convo w self.old + weight_of_step w step) }
    {
        match step {
            Step::Ask { bytes } => Ok(Want::Ask {
                bytes,
                mark: self.mark(set),
            }),
            Step::Free(charge) => Ok(Want::Free(charge)),
            Step::Done(_) => self.begin_time_back(set, at),
        }
    }

    /// A hole or a flush falls due.
    pub fn time(&mut self, set: &ConvoSet, at: u64) -> Result<Want<C>, Memory>
        requires at { at ≤ 2 ^ 62 }
        ensures turn { IfOk result (λ want. (t : Terms) (k : Talk) → SetsUp set.now t → IsResting (charge_by C.amount C.stamp) t self.old k
            → IsWantOf (charge_by C.amount C.stamp) (Stands (charge_by C.amount C.stamp) self.new t) t k (TimeAct at [] []) 0 want) }
        ensures asked { IfOk result (λ want. asked_of self.new ≡ asked_in want) }
        ensures idle { IfOk result (λ want. IsRest want → charges_going self.new.going ≡ []) }
        ensures within { IfOk result (IsAskWithin set.now.marks.limit) }
        ensures last { (self.new.fore.dir.last ≡ self.old.fore.dir.last) × (self.new.back.dir.last ≡ self.old.back.dir.last) }
        ensures left { IfOk result (λ want. Pays {C = C} None 0 2 want self.old self.new) }
        ensures due { IfOk result (λ want. due_at set.now.shape.hole set.now.shape.flush self.old ≡ Some at → Pays {C = C} None 0 0 want self.old self.new) }
        ensures less { IfOk result (λ want. due_at set.now.shape.hole set.now.shape.flush self.old ≡ Some at → Lowers {C = C} None self.old self.new) }
        ensures weight { IfOk result (λ want. (w : C → ℕ) → weight_of_convo w self.new + weight_of_want w want ≡ weight_of_convo w self.old) }
        ensures err { OnErr result ((w : C → ℕ) → weight_of_convo w self.new ≡ weight_of_convo w self.old) }
    {
        let moment = Moment { at };
        self.stage = Stage::Time {
            at: moment,
            way: Way::Fore,
        };
        let step = self.time_way(set, Way::Fore, at)?;
        self.go_time_fore(set, moment, step)
    }

    /// The ask of the first direction at a moment is answered.
    pub(crate) fn told_time_fore(
        &mut self,
        set: &ConvoSet,
        at: Moment,
        granted: Option<C>,
    ) -> Result<Want<C>, Memory>
        requires stage { self.old.stage ≡ Stage.Time at Fore }
        requires granted { IfSome granted (λ charge. dir_asked self.old.fore.dir ≡ Some (C.amount charge)) }
        ensures turn { IfOk result (λ w. (t : Terms) (k : Talk) (act : Act) (emitted : ℕ) (look : LookEntry) (request : Request) (mark : ℕ) → SetsUp set.now t
            → Stands (charge_by C.amount C.stamp) self.old t k (Under act emitted) → want t k.convo act emitted ≡ Reserve request mark → IsLookOf (charge_by C.amount C.stamp) granted look
            → IsWantOf (charge_by C.amount C.stamp) (Stands (charge_by C.amount C.stamp) self.new t) t k (with_look look act) emitted w) }
        ensures asked { IfOk result (λ want. asked_of self.new ≡ asked_in want) }
        ensures idle { IfOk result (λ want. IsRest want → charges_going self.new.going ≡ []) }
        ensures within { IfOk result (IsAskWithin set.now.marks.limit) }
        ensures last { (self.new.fore.dir.last ≡ self.old.fore.dir.last) × (self.new.back.dir.last ≡ self.old.back.dir.last) }
        ensures left { IfOk result (λ want. Pays granted 0 0 want self.old self.new) }
        ensures weight { IfOk result (λ want. (w : C → ℕ) → weight_of_convo w self.new + weight_of_want w want ≡ weight_of_convo w self.old + weight_of w granted) }
        ensures err { OnErr result ((w : C → ℕ) → weight_of_convo w self.new ≡ weight_of_convo w self.old + weight_of w granted) }
    {
        let step = self.told_way(set, Way::Fore, granted)?;
        self.go_time_fore(set, at, step)
    }

    /// The ask of the other direction at a moment is answered.
    pub(crate) fn told_time_back(
        &mut self,
        set: &ConvoSet,
        at: Moment,
        granted: Option<C>,
    ) -> Result<Want<C>, Memory>
        requires stage { self.old.stage ≡ Stage.Time at Back }
        requires granted { IfSome granted (λ charge. dir_asked self.old.back.dir ≡ Some (C.amount charge)) }
        ensures turn { IfOk result (λ w. (t : Terms) (k : Talk) (act : Act) (emitted : ℕ) (look : LookEntry) (request : Request) (mark : ℕ) → SetsUp set.now t
            → Stands (charge_by C.amount C.stamp) self.old t k (Under act emitted) → want t k.convo act emitted ≡ Reserve request mark → IsLookOf (charge_by C.amount C.stamp) granted look
            → IsWantOf (charge_by C.amount C.stamp) (Stands (charge_by C.amount C.stamp) self.new t) t k (with_look look act) emitted w) }
        ensures asked { IfOk result (λ want. asked_of self.new ≡ asked_in want) }
        ensures idle { IfOk result (λ want. IsRest want → charges_going self.new.going ≡ []) }
        ensures within { IfOk result (IsAskWithin set.now.marks.limit) }
        ensures last { (self.new.fore.dir.last ≡ self.old.fore.dir.last) × (self.new.back.dir.last ≡ self.old.back.dir.last) }
        ensures left { IfOk result (λ want. Pays granted 0 0 want self.old self.new) }
        ensures weight { IfOk result (λ want. (w : C → ℕ) → weight_of_convo w self.new + weight_of_want w want ≡ weight_of_convo w self.old + weight_of w granted) }
        ensures err { OnErr result ((w : C → ℕ) → weight_of_convo w self.new ≡ weight_of_convo w self.old + weight_of w granted) }
    {
        let step = self.told_way(set, Way::Back, granted)?;
        Ok(self.go_time_back(set, at, step))
    }

    /// A spare charge of the first direction was given back at a moment.
    pub(crate) fn freed_time_fore(&mut self, set: &ConvoSet, at: Moment) -> Result<Want<C>, Memory>
        requires stage { self.old.stage ≡ Stage.Time at Fore }
        ensures turn { IfOk result (λ w. (t : Terms) (k : Talk) (act : Act) (emitted : ℕ) (free : Free) (charge : ChargeMade) → SetsUp set.now t
            → Stands (charge_by C.amount C.stamp) self.old t k (Under act emitted) → want t k.convo act emitted ≡ Release charge
            → IsWantOf (charge_by C.amount C.stamp) (Stands (charge_by C.amount C.stamp) self.new t) t k (with_free free act) emitted w) }
        ensures asked { IfOk result (λ want. asked_of self.new ≡ asked_in want) }
        ensures idle { IfOk result (λ want. IsRest want → charges_going self.new.going ≡ []) }
        ensures within { IfOk result (IsAskWithin set.now.marks.limit) }
        ensures last { (self.new.fore.dir.last ≡ self.old.fore.dir.last) × (self.new.back.dir.last ≡ self.old.back.dir.last) }
        ensures left { IfOk result (λ want. Pays {C = C} None 0 0 want self.old self.new) }
        ensures weight { IfOk result (λ want. (w : C → ℕ) → weight_of_convo w self.new + weight_of_want w want ≡ weight_of_convo w self.old) }
        ensures err { OnErr result ((w : C → ℕ) → weight_of_convo w self.new ≡ weight_of_convo w self.old) }
    {
        let step = self.freed_way(Way::Fore)?;
        self.go_time_fore(set, at, step)
    }

    /// A spare charge of the other direction was given back at a moment.
    pub(crate) fn freed_time_back(&mut self, set: &ConvoSet, at: Moment) -> Result<Want<C>, Memory>
        requires stage { self.old.stage ≡ Stage.Time at Back }
        ensures turn { IfOk result (λ w. (t : Terms) (k : Talk) (act : Act) (emitted : ℕ) (free : Free) (charge : ChargeMade) → SetsUp set.now t
            → Stands (charge_by C.amount C.stamp) self.old t k (Under act emitted) → want t k.convo act emitted ≡ Release charge
            → IsWantOf (charge_by C.amount C.stamp) (Stands (charge_by C.amount C.stamp) self.new t) t k (with_free free act) emitted w) }
        ensures asked { IfOk result (λ want. asked_of self.new ≡ asked_in want) }
        ensures idle { IfOk result (λ want. IsRest want → charges_going self.new.going ≡ []) }
        ensures within { IfOk result (IsAskWithin set.now.marks.limit) }
        ensures last { (self.new.fore.dir.last ≡ self.old.fore.dir.last) × (self.new.back.dir.last ≡ self.old.back.dir.last) }
        ensures left { IfOk result (λ want. Pays {C = C} None 0 0 want self.old self.new) }
        ensures weight { IfOk result (λ want. (w : C → ℕ) → weight_of_convo w self.new + weight_of_want w want ≡ weight_of_convo w self.old) }
        ensures err { OnErr result ((w : C → ℕ) → weight_of_convo w self.new ≡ weight_of_convo w self.old) }
    {
        let step = self.freed_way(Way::Back)?;
        Ok(self.go_time_back(set, at, step))
    }
}
