// How a segment comes to a direction.
ghost use Rattle.std.specs.Prelude.{◌≡◌, ℕ, true, false, max, IsTrue, suc, ◌+◌, ◌*◌, ◌<◌, ◌≤◌, ◌^◌, List, [], ◌∷◌, ◌++◌, drop, length, Option, Some, None, option_map, option_to_list, IsNone, IsSome, IfSome, IfOk, OnOk, OnErr, IsFalse, unsigned_abs};
ghost use Rattle.histbook.specs.declared.look_entry.LookEntry.{LookEntry};
ghost use Rattle.streamdefs.specs.Terms.{Terms};
ghost use Rattle.streamdefs.specs.Lists.{is_empty};
ghost use Rattle.streamdefs.specs.Pending.{Piece};
ghost use Rattle.streamdefs.specs.View.{Ask as Request};
ghost use Rattle.streamdefs.specs.Direction.{Direction, Segment, Deed, untouched, next_by, start_of, with_one_look, dues_in};
ghost use Rattle.streamdefs.specs.Direction.Deed.{Arrives, Falls_due, Ends};
ghost use Rattle.streamdefs.specs.Direction.{no_counts as none};
ghost use Rattle.streamdefs.specs.Direction.Next.{Asks, Gives};
ghost use Rattle.streamdefs.specs.Reorder.{Charge as Owed};
ghost use Rattle.reorder.specs.Frags.{weight_in};
ghost use Rattle.flowdir.specs.Lane.{weight_of_lane, LaneStands};
ghost use Rattle.flowdir.specs.Passing.{weight_of_all};
ghost use Rattle.flowdir.specs.Boundary.{HasShape, IsTimely, least_of, weight_of, weight_of_step, weight_of_chunk, asked_by, AsksSome, IsPaidBy, number_of, segment_of, kind_of, IsStep, IsLookOf, IsFirst};
ghost use Rattle.flowdir.specs.Boundary.Phase.{Rests, Works};
ghost use Rattle.flowdir.specs.Counting.{classes_of};
ghost use Rattle.flowdir.specs.Waits.{waits_of};
ghost use Rattle.flowdir.specs.Classes.{counts_taken, at_of};
ghost use Rattle.flowdir.specs.Meeting.{Meets, IsFor};
ghost use Rattle.flowdir.specs.declared.advance.Advance.TheVariants.{Stay};
ghost use Rattle.flowdir.specs.Left.{Adds};
ghost use Rattle.flowdir.specs.Kept.{Leaves, IsEarly, late_of, entered, due_way, is_due, first_at, due_cuts, cuts_for, copying, advanced, ended_on, hole_now, rule_for, way_for, working_for, bytes_next, with_charge, with_none, with_answer, HasRoom, Working, IsLive, IsCopying, IsRunning, IsShut, IsFewNext, GivesNext, GoesOn, AsksNext, StandsFor, Enters, HeadIs};

use crate::advance::Advance;
use crate::counts::late_counts;
use crate::cuts::Cuts;
use crate::dir::Dir;
use crate::dir_answers::{cuts, reserve_for};
use crate::head::Head;
use crate::heading::aim;
use crate::passed::{Passed, charge_of, falls_at};
use crate::passing::{advance, pass_on};
use crate::rule::Rule;
use crate::running::start_runs;
use crate::under::Under;
use crate::waiting::{Waiting, take_run};
use crate::work::Work;
use crate::{Counts, DirMode, Memory, Seg, Step};
use chunkpart::Chunk;
use overpolicy::{Policy, Shape};
use prio_budget::{Charge, Part, PartBytes};
use reorder::Store;
use seqspace::Seq;
use std::alloc::Global;
use std::collections::VecDeque;
use std::marker::Model;
use std::mem;

impl<C: Charge> Dir<C> {
    /// Keeps what a segment's header says.
    fn note(&mut self, head: Head)
        requires last { (self.old.last ≤ head.last) × (head.last ≤ 2 ^ 22) }
        requires sent { head.sent ≤ head.last * 2 ^ 18 }
        ensures { self.new ≡ record self.old { base = Some head.base.0; sent = head.sent; fin = head.fin; last = head.last } }
    {
        self.base = Some(head.base);
        self.sent = head.sent;
        self.fin = head.fin;
        self.last = head.last;
    }

    /// A live segment comes: its runs wait.
    fn enter(
        &mut self,
        alloc: Global,
        policy: Policy,
        start: i64,
        payload: &[u8],
        cutoff: Option<u64>,
        moment: u64,
    ) -> Result<(), Memory>
        requires idle { self.old.work ≡ Working.Idle }
        requires few { length payload.now ≤ 262144 }
        requires near { max self.old.lane.front (at_of start) + 262144 ≤ self.old.last * 2 ^ 32 }
        requires soon { moment ≤ 2 ^ 62 }
        ensures runs { OnOk result ((paid : C → Owed) (t : Terms) (d : Direction) (s : Segment) (pieces : List Piece) → t.policy ≡ policy → s.live ≡ true → s.moment ≡ moment
            → IsFor s payload.now cutoff → start ≡ start_of (kind_of self.old.mode) d s → HeadIs self.old (kind_of self.old.mode) d s → d.hole ≡ self.old.hole
            → Meets paid self.old.lane self.old.frags d → LaneStands paid self.old.lane d.view.flow d.pending pieces [] → Enters paid self.new t d s pieces) }
        ensures same { (self.new.mode ≡ self.old.mode) × (self.new.last ≡ self.old.last) }
        ensures left { OnOk result (Adds (2 * length payload.now) (14 * length payload.now) self.old self.new) }
        ensures running { OnOk result (IsRunning self.new.work) }
        ensures weight { (w : C → ℕ) → weight_of_all w self.new.lane self.new.frags ≡ weight_of_all w self.old.lane self.old.frags }
    {
        let front = self.passed.front();
        let bare = self.store.least().is_none();
        self.work = Work::Failed;
        let running = start_runs(
            alloc,
            &self.passed,
            &mut self.store,
            policy,
            start,
            payload,
            cutoff,
        )?;
        reserve_for(&mut self.store, &running.waits)?;
        self.under = Under {
            moment,
            front,
            bare,
            counts: running.counts,
        };
        self.work = Work::Runs {
            start,
            waits: running.waits,
        };
        Ok(())
    }

    /// A segment comes to a direction at rest.
    pub(crate) fn arrive(
        &mut self,
        alloc: Global,
        shape: &Shape,
        seg: &Seg<'_>,
        cutoff: Option<u64>,
    ) -> Result<Step<C>, Memory>
        requires idle { self.old.work ≡ Working.Idle }
        requires number { (self.old.last < seg.now.number) × (seg.now.number ≤ 2 ^ 22) }
        requires now { seg.now.now ≤ 2 ^ 62 }
        requires few { length seg.now.payload.now ≤ 262144 }
        ensures step { IfOk result (λ step. (paid : C → Owed) (t : Terms) (d : Direction) (pieces : List Piece) → HasShape shape.now t → StandsFor paid self.old d Rests pieces
            → IsStep paid (StandsFor paid self.new) t (kind_of self.old.mode) d (Arrives (segment_of seg.entry.now cutoff) []) 0 pieces step) }
        ensures left { IfOk result (λ step. Adds (2 * length seg.entry.now.payload.now) (14 * length seg.entry.now.payload.now + 3) self.old self.new) }
        ensures leaves { IfOk result (λ step. Leaves step self.new.work) }
        ensures weight { IfOk result (λ step. (w : C → ℕ) → weight_of_all w self.new.lane self.new.frags + weight_of_step w step ≡ weight_of_all w self.old.lane self.old.frags) }
        ensures err { OnErr result ((w : C → ℕ) → weight_of_all w self.new.lane self.new.frags ≡ weight_of_all w self.old.lane self.old.frags) }
        ensures mode { self.new.mode ≡ self.old.mode }
        ensures last { self.new.last ≡ seg.entry.now.number }
    {
        if seg.live {
            self.come_live(alloc, shape, seg, cutoff)
        } else {
            self.come_dead(alloc, shape, seg)
        }
    }

    /// A live segment comes.
    fn come_live(
        &mut self,
        alloc: Global,
        shape: &Shape,
        seg: &Seg<'_>,
        cutoff: Option<u64>,
    ) -> Result<Step<C>, Memory>
        requires live { seg.now.live ≡ true }
        requires idle { self.old.work ≡ Working.Idle }
        requires number { (self.old.last < seg.now.number) × (seg.now.number ≤ 2 ^ 22) }
        requires now { seg.now.now ≤ 2 ^ 62 }
        requires few { length seg.now.payload.now ≤ 262144 }
        ensures step { IfOk result (λ step. (paid : C → Owed) (t : Terms) (d : Direction) (pieces : List Piece) → HasShape shape.now t → StandsFor paid self.old d Rests pieces
            → IsStep paid (StandsFor paid self.new) t (kind_of self.old.mode) d (Arrives (segment_of seg.entry.now cutoff) []) 0 pieces step) }
        ensures left { IfOk result (λ step. Adds (2 * length seg.entry.now.payload.now) (14 * length seg.entry.now.payload.now + 3) self.old self.new) }
        ensures leaves { IfOk result (λ step. Leaves step self.new.work) }
        ensures weight { IfOk result (λ step. (w : C → ℕ) → weight_of_all w self.new.lane self.new.frags + weight_of_step w step ≡ weight_of_all w self.old.lane self.old.frags) }
        ensures err { OnErr result ((w : C → ℕ) → weight_of_all w self.new.lane self.new.frags ≡ weight_of_all w self.old.lane self.old.frags) }
        ensures mode { self.new.mode ≡ self.old.mode }
        ensures last { self.new.last ≡ seg.entry.now.number }
    {
        let aim = aim(
            self.mode,
            self.base,
            self.sent,
            self.fin,
            self.passed.front(),
            seg,
        );
        self.note(aim.head);
        self.enter(alloc, shape.policy, aim.start, seg.payload, cutoff, seg.now)?;
        self.ask_next(alloc, shape)
    }

    /// A segment comes that is not live: its bytes are late, whatever the cutoff in force.
    fn come_dead(&mut self, alloc: Global, shape: &Shape, seg: &Seg<'_>) -> Result<Step<C>, Memory>
        requires live { seg.now.live ≡ false }
        requires idle { self.old.work ≡ Working.Idle }
        requires number { (self.old.last < seg.now.number) × (seg.now.number ≤ 2 ^ 22) }
        requires now { seg.now.now ≤ 2 ^ 62 }
        requires few { length seg.now.payload.now ≤ 262144 }
        ensures step { IfOk result (λ step. (cutoff : Option ℕ) (paid : C → Owed) (t : Terms) (d : Direction) (pieces : List Piece) → HasShape shape.now t → StandsFor paid self.old d Rests pieces
            → IsStep paid (StandsFor paid self.new) t (kind_of self.old.mode) d (Arrives (segment_of seg.entry.now cutoff) []) 0 pieces step) }
        ensures left { IfOk result (λ step. Adds (2 * length seg.entry.now.payload.now) (14 * length seg.entry.now.payload.now + 3) self.old self.new) }
        ensures leaves { IfOk result (λ step. Leaves step self.new.work) }
        ensures weight { IfOk result (λ step. (w : C → ℕ) → weight_of_all w self.new.lane self.new.frags + weight_of_step w step ≡ weight_of_all w self.old.lane self.old.frags) }
        ensures err { OnErr result ((w : C → ℕ) → weight_of_all w self.new.lane self.new.frags ≡ weight_of_all w self.old.lane self.old.frags) }
        ensures mode { self.new.mode ≡ self.old.mode }
        ensures last { self.new.last ≡ seg.entry.now.number }
    {
        let aim = aim(
            self.mode,
            self.base,
            self.sent,
            self.fin,
            self.passed.front(),
            seg,
        );
        self.note(aim.head);
        let late = late_counts(seg.payload.len() as u64);
        self.pass_by(alloc, shape, seg.now, late)
    }

    /// A segment comes that is not live.
    fn pass_by(
        &mut self,
        alloc: Global,
        shape: &Shape,
        moment: u64,
        counts: Counts,
    ) -> Result<Step<C>, Memory>
        requires idle { self.old.work ≡ Working.Idle }
        requires soon { moment ≤ 2 ^ 62 }
        ensures goes_on { IfOk result (λ step. GoesOn (advanced Stay (cuts_for shape.now.chunk shape.now.overlap) (entered moment (classes_of counts) self.old)) self.new step) }
        ensures leaves { IfOk result (λ step. Leaves step self.new.work) }
        ensures weight { IfOk result (λ step. (w : C → ℕ) → weight_of_all w self.new.lane self.new.frags + weight_of_step w step ≡ weight_of_all w self.old.lane self.old.frags) }
        ensures err { OnErr result ((w : C → ℕ) → weight_of_all w self.new.lane self.new.frags ≡ weight_of_all w self.old.lane self.old.frags) }
        ensures same { (self.new.mode ≡ self.old.mode) × (self.new.last ≡ self.old.last) }
    {
        self.set_under(moment, counts);
        self.finish(alloc, Advance::Stay, cuts(shape))?;
        Ok(self.go_on())
    }
}
