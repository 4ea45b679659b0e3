// A segment under way.
ghost use Rattle.convo.specs.Directions.{DirStands, dir_asked};
ghost use Rattle.std.specs.Prelude.{◌≡◌, ⊤, ℕ, suc, ◌+◌, ◌*◌, [], ◌∷◌, List, length, is_none, Option, Some, None, IfOk, IfSome, OnOk, OnErr, ◌<◌, ◌≤◌, ◌^◌};
ghost use Rattle.streamdefs.specs.Reorder.{Charge as ChargeMade};
ghost use Rattle.streamdefs.specs.View.{Ask as Request};
ghost use Rattle.streamdefs.specs.Want.{want, with_look, with_free};
ghost use Rattle.streamdefs.specs.Want.Want.{Reserve, Release};
ghost use Rattle.convo.specs.Talk.Phase.{Under};
ghost use Rattle.histbook.specs.declared.look_entry.LookEntry.{LookEntry};
ghost use Rattle.prio_budget.specs.declared.free.Free.{Free};
ghost use Rattle.streamdefs.specs.Both.{of_way};
ghost use Rattle.streamdefs.specs.Packet.{Packet as Accepted, has_rst as rst_of};
ghost use Rattle.streamdefs.specs.Terms.{Terms};
ghost use Rattle.streamdefs.specs.Pending.{Piece};
ghost use Rattle.streamdefs.specs.Direction.{Direction};
ghost use Rattle.streamdefs.specs.Direction.Deed.{Arrives};
ghost use Rattle.streamdefs.specs.Convo.{Act, kind_of, way_of, segment_of};
ghost use Rattle.streamdefs.specs.Convo.Act.{Seg as SegAct};
ghost use Rattle.flowdir.specs.Boundary.{AsksSome, IsStep, IsLookOf, charge_by, asked_by, weight_of, weight_of_step};
ghost use Rattle.flowdir.specs.Boundary.Phase.{Rests as DirRests};
ghost use Rattle.convo.specs.Weights.{weight_of_want};
ghost use Rattle.convo.specs.Seen.{packet_of};
ghost use Rattle.convo.specs.Left.{Pays};
ghost use Rattle.convo.specs.Going.{charges_going};
ghost use Rattle.convo.specs.Talk.{Talk, SetsUp, IsWantOf, asked_in};
ghost use Rattle.convo.specs.Standing.{IsMidway, asked_of, closing_by, counts_with, done_of, finished_segment, half_of, IsAskWithin, IsRest, IsResting, last_of, owed_by_segment, weight_of_convo, with_counts};
ghost use Rattle.convo.specs.Stands.{Stands};
ghost use Rattle.evring.specs.declared.way.Way.TheVariants.{Fore, Back};

use crate::flags::has_rst;
use crate::stage::Stage;
use crate::{Convo, ConvoSet, Memory, Want};
use evring::{Reason, Way};
use flowdir::{Counts, Step};
use prio_budget::Charge;
use streamkey::Packet;

/// Both together; a count stands still at its type's end.
fn sum_of(counts: Counts, more: Counts) -> Counts
    ensures { result ≡ counts_with counts more }
{
    Counts {
        duplicate: counts.duplicate.saturating_add(more.duplicate),
        late: counts.late.saturating_add(more.late),
        cut: counts.cut.saturating_add(more.cut),
        taken: counts.taken.saturating_add(more.taken),
        shed: counts.shed.saturating_add(more.shed),
    }
}

impl<C: Charge> Convo<C> {
    /// Counts bytes of a direction.
    pub(crate) fn count(&mut self, way: Way, counts: Counts)
        ensures { self.new ≡ with_counts way (counts_with (half_of way self.old).counts counts) self.old }
    {
        match way {
            Way::Fore => self.fore.counts = sum_of(self.fore.counts, counts),
            Way::Back => self.back.counts = sum_of(self.back.counts, counts),
        }
    }

    /// The End that both directions make due at a moment.
    pub(crate) fn closing(&self, set: &ConvoSet, at: u64) -> Option<(Reason, u64)>
        ensures { (fore back : Direction) (a b : List Piece) → DirStands (charge_by C.amount C.stamp) self.now.fore.dir fore DirRests a → DirStands (charge_by C.amount C.stamp) self.now.back.dir back DirRests b
            → result ≡ closing_by (done_of self.now set.now Fore fore) (done_of self.now set.now Back back) at }
    {
        let fore = self.is_done(set, Way::Fore);
        let back = self.is_done(set, Way::Back);
        if fore && back {
            Some((Reason::Closed, at))
        } else {
            None
        }
    }

    /// The moves of a segment are made: its events are to be handed over.
    pub(crate) fn finish_segment(&mut self, set: &ConvoSet, now: u64, reset: bool)
        ensures same { self.new ≡ finished_segment self.new.owed now self.old }
        ensures owed { (fore back : Direction) (a b : List Piece) → DirStands (charge_by C.amount C.stamp) self.old.fore.dir fore DirRests a → DirStands (charge_by C.amount C.stamp) self.old.back.dir back DirRests b
            → self.new.owed ≡ owed_by_segment (is_none self.old.ended) reset now (closing_by (done_of self.old set.now Fore fore) (done_of self.old set.now Back back) now) }
    {
        let closed = self.closing(set, now);
        self.opens = !self.begun;
        self.stage = Stage::Events;
        if self.ended.is_some() {
            self.owed = None;
            return;
        }
        self.clock = now;
        self.owed = if reset {
            Some((Reason::Reset, now))
        } else {
            closed
        };
    }

    /// A step of a segment's direction.
    #[tactic(auto, using(crate::proofs::Within::any_limit))]
    pub(crate) fn go_segment(
        &mut self,
        set: &ConvoSet,
        way: Way,
        now: u64,
        reset: bool,
        step: Step<C>,
    ) -> Want<C>
        requires stage { self.old.stage ≡ Stage.Segment way now reset }
        requires some { AsksSome step }
        ensures turn { (t : Terms) (k : Talk) (p : Accepted) (looks : List LookEntry) (frees : List Free) → SetsUp set.now t → IsMidway (charge_by C.amount C.stamp) t self.old k way
            → way ≡ way_of k.convo p → reset ≡ rst_of p
            → IsStep (charge_by C.amount C.stamp) (DirStands (charge_by C.amount C.stamp) (half_of way self.old).dir) t (kind_of t k.convo) (of_way way k.convo.directions) (Arrives (segment_of t k.convo p now) looks) (length frees) [] step
            → IsWantOf (charge_by C.amount C.stamp) (Stands (charge_by C.amount C.stamp) self.new t) t k (SegAct p now looks frees) 0 result }
        ensures last { (self.new.fore.dir.last ≡ self.old.fore.dir.last) × (self.new.back.dir.last ≡ self.old.back.dir.last) }
        ensures idle { IsRest result → charges_going self.new.going ≡ [] }
        ensures within { IsAskWithin set.now.marks.limit result }
        ensures asked { dir_asked (half_of way self.old).dir ≡ asked_by step → asked_of self.new ≡ asked_in result }
        ensures left { Pays {C = C} None 0 1 result self.old self.new }
        ensures weight { (w : C → ℕ) → weight_of_convo w self.new + weight_of_want w result ≡ weight_of_convo w self.old + weight_of_step w step }
    {
        match step {
            Step::Ask { bytes } => Want::Ask {
                bytes,
                mark: self.mark(set),
            },
            Step::Free(charge) => Want::Free(charge),
            Step::Done(counts) => {
                self.count(way, counts);
                self.finish_segment(set, now, reset);
                self.hand_over()
            }
        }
    }

    /// A packet comes.
    pub fn take(&mut self, set: &ConvoSet, packet: &Packet) -> Result<Want<C>, Memory>
        requires number { last_of self.old < packet.now.number }
        ensures turn { IfOk result (λ want. (t : Terms) (k : Talk) → SetsUp set.now t → IsResting (charge_by C.amount C.stamp) t self.old k
            → IsWantOf (charge_by C.amount C.stamp) (Stands (charge_by C.amount C.stamp) self.new t) t k (SegAct (packet_of packet.entry.now) packet.entry.now.now [] []) 0 want) }
        ensures asked { IfOk result (λ want. asked_of self.new ≡ asked_in want) }
        ensures idle { IfOk result (λ want. IsRest want → charges_going self.new.going ≡ []) }
        ensures within { IfOk result (IsAskWithin set.now.marks.limit) }
        ensures last { OnOk result (last_of self.new ≡ packet.entry.now.number) }
        ensures left { IfOk result (λ want. Pays {C = C} None (2 * length packet.entry.now.payload) (112 * length packet.entry.now.payload + 29) want self.old self.new) }
        ensures weight { IfOk result (λ want. (w : C → ℕ) → weight_of_convo w self.new + weight_of_want w want ≡ weight_of_convo w self.old) }
        ensures err { OnErr result ((w : C → ℕ) → weight_of_convo w self.new ≡ weight_of_convo w self.old) }
    {
        let way = self.way_of(packet);
        let reset = has_rst(packet);
        self.stage = Stage::Segment {
            way,
            now: packet.now,
            reset,
        };
        let step = self.begin_way(set, way, packet)?;
        Ok(self.go_segment(set, way, packet.now, reset, step))
    }

    /// The ask of a segment is answered.
    pub(crate) fn told_segment(
        &mut self,
        set: &ConvoSet,
        way: Way,
        now: u64,
        reset: bool,
        granted: Option<C>,
    ) -> Result<Want<C>, Memory>
        requires stage { self.old.stage ≡ Stage.Segment way now reset }
        requires granted { IfSome granted (λ charge. dir_asked (half_of way self.old).dir ≡ Some (C.amount charge)) }
        ensures turn { IfOk result (λ w. (t : Terms) (k : Talk) (act : Act) (emitted : ℕ) (look : LookEntry) (request : Request) (mark : ℕ) → SetsUp set.now t
            → Stands (charge_by C.amount C.stamp) self.old t k (Under act emitted) → want t k.convo act emitted ≡ Reserve request mark → IsLookOf (charge_by C.amount C.stamp) granted look
            → IsWantOf (charge_by C.amount C.stamp) (Stands (charge_by C.amount C.stamp) self.new t) t k (with_look look act) emitted w) }
        ensures asked { IfOk result (λ want. asked_of self.new ≡ asked_in want) }
        ensures idle { IfOk result (λ want. IsRest want → charges_going self.new.going ≡ []) }
        ensures within { IfOk result (IsAskWithin set.now.marks.limit) }
        ensures last { last_of self.new ≡ last_of self.old }
        ensures left { IfOk result (λ want. Pays granted 0 0 want self.old self.new) }
        ensures weight { IfOk result (λ want. (w : C → ℕ) → weight_of_convo w self.new + weight_of_want w want ≡ weight_of_convo w self.old + weight_of w granted) }
        ensures err { OnErr result ((w : C → ℕ) → weight_of_convo w self.new ≡ weight_of_convo w self.old + weight_of w granted) }
    {
        let step = self.told_way(set, way, granted)?;
        Ok(self.go_segment(set, way, now, reset, step))
    }

    /// A segment's charge was given back.
    pub(crate) fn freed_segment(
        &mut self,
        set: &ConvoSet,
        way: Way,
        now: u64,
        reset: bool,
    ) -> Result<Want<C>, Memory>
        requires stage { self.old.stage ≡ Stage.Segment way now reset }
        ensures turn { IfOk result (λ w. (t : Terms) (k : Talk) (act : Act) (emitted : ℕ) (free : Free) (charge : ChargeMade) → SetsUp set.now t
            → Stands (charge_by C.amount C.stamp) self.old t k (Under act emitted) → want t k.convo act emitted ≡ Release charge
            → IsWantOf (charge_by C.amount C.stamp) (Stands (charge_by C.amount C.stamp) self.new t) t k (with_free free act) emitted w) }
        ensures asked { IfOk result (λ want. asked_of self.new ≡ asked_in want) }
        ensures idle { IfOk result (λ want. IsRest want → charges_going self.new.going ≡ []) }
        ensures within { IfOk result (IsAskWithin set.now.marks.limit) }
        ensures last { last_of self.new ≡ last_of self.old }
        ensures left { IfOk result (λ want. Pays {C = C} None 0 0 want self.old self.new) }
        ensures weight { IfOk result (λ want. (w : C → ℕ) → weight_of_convo w self.new + weight_of_want w want ≡ weight_of_convo w self.old) }
        ensures err { OnErr result ((w : C → ℕ) → weight_of_convo w self.new ≡ weight_of_convo w self.old) }
    {
        let step = self.freed_way(way)?;
        Ok(self.go_segment(set, way, now, reset, step))
    }
}
