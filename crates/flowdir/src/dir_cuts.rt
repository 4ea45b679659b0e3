// What a direction passes, cuts, hands over and gives back.
ghost use Rattle.std.specs.Prelude.{◌≡◌, ℕ, true, false, max, IsTrue, suc, ◌+◌, ◌*◌, ◌<◌, ◌≤◌, ◌^◌, List, [], ◌∷◌, ◌++◌, drop, length, Option, Some, None, option_map, option_to_list, IsNone, IsSome, IfSome, IfOk, OnOk, OnErr, IsFalse, unsigned_abs};
ghost use Rattle.histbook.specs.declared.look_entry.LookEntry.{LookEntry};
ghost use Rattle.streamdefs.specs.Terms.{Terms};
ghost use Rattle.streamdefs.specs.Lists.{is_empty};
ghost use Rattle.streamdefs.specs.Pending.{Piece};
ghost use Rattle.streamdefs.specs.View.{Ask as Request};
ghost use Rattle.streamdefs.specs.Direction.{Direction, Segment, Deed, untouched, next_by, start_of, with_one_look, dues_in};
ghost use Rattle.streamdefs.specs.Direction.Deed.{Arrives, Falls_due, Ends};
ghost use Rattle.streamdefs.specs.Direction.{no_counts as none};
ghost use Rattle.streamdefs.specs.Direction.Next.{Asks, Gives};
ghost use Rattle.streamdefs.specs.Reorder.{Charge as Owed};
ghost use Rattle.reorder.specs.Frags.{weight_in};
ghost use Rattle.flowdir.specs.Lane.{weight_of_lane, LaneStands};
ghost use Rattle.flowdir.specs.Passing.{weight_of_all};
ghost use Rattle.flowdir.specs.Boundary.{HasShape, IsTimely, least_of, weight_of, weight_of_step, weight_of_chunk, asked_by, AsksSome, IsPaidBy, number_of, segment_of, kind_of, IsStep, IsLookOf, IsFirst};
ghost use Rattle.flowdir.specs.Boundary.Phase.{Rests, Works};
ghost use Rattle.flowdir.specs.Counting.{classes_of};
ghost use Rattle.flowdir.specs.Waits.{waits_of};
ghost use Rattle.flowdir.specs.Classes.{counts_taken, at_of};
ghost use Rattle.flowdir.specs.Meeting.{Meets, IsFor};
ghost use Rattle.flowdir.specs.declared.advance.Advance.TheVariants.{Stay};
ghost use Rattle.flowdir.specs.Left.{Adds, Lowers};
ghost use Rattle.flowdir.specs.Kept.{Leaves, IsEarly, late_of, entered, due_way, is_due, first_at, due_cuts, cuts_for, copying, advanced, ended_on, hole_now, rule_for, way_for, working_for, bytes_next, with_charge, with_none, with_answer, HasRoom, Working, IsLive, IsCopying, IsRunning, IsShut, IsFewNext, GivesNext, GoesOn, AsksNext, StandsFor, Enters, HeadIs};

use crate::advance::Advance;
use crate::counts::no_counts;
use crate::cuts::Cuts;
use crate::dir::Dir;
use crate::head::Head;
use crate::heading::aim;
use crate::passed::{Passed, charge_of, falls_at};
use crate::passing::{advance, pass_on};
use crate::rule::Rule;
use crate::running::start_runs;
use crate::under::Under;
use crate::waiting::{Waiting, take_run};
use crate::work::Work;
use crate::{Counts, DirMode, Memory, Seg, Step};
use chunkpart::Chunk;
use overpolicy::{Policy, Shape};
use prio_budget::{Charge, Part, PartBytes};
use reorder::Store;
use seqspace::Seq;
use std::alloc::Global;
use std::collections::VecDeque;
use std::marker::Model;
use std::mem;

impl<C: Charge> Dir<C> {
    /// Passes and cuts what an entry does.
    #[tactic(auto, using(crate::proofs::Sound::kept_finished))]
    pub(crate) fn finish(&mut self, alloc: Global, way: Advance, cuts: Cuts) -> Result<(), Memory>
        requires live { IsLive self.old.work }
        ensures finished { OnOk result (self.new ≡ advanced way cuts self.old) }
        ensures shut { OnOk result (IsShut self.new.work) }
        ensures same { (self.new.mode ≡ self.old.mode) × (self.new.last ≡ self.old.last) }
        ensures weight { (w : C → ℕ) → weight_of_all w self.new.lane self.new.frags ≡ weight_of_all w self.old.lane self.old.frags }
    {
        self.work = Work::Failed;
        advance(
            alloc,
            self.under.moment,
            &mut self.passed,
            &mut self.store,
            way,
        )?;
        self.hole = hole_since(&self.store, self.passed.front(), &self.under, self.hole);
        let copy = self.passed.shut(alloc, cuts)?;
        self.work = work_behind(copy);
        Ok(())
    }

    /// The next charge that is to be given back, or the end of the entry.
    pub(crate) fn give_next(&mut self) -> Step<C>
        requires { self.old.work ≡ Working.Giving }
        ensures gives { GivesNext self.old self.new result }
        ensures same { (self.new.mode ≡ self.old.mode) × (self.new.last ≡ self.old.last) }
    {
        match self.passed.take_spare() {
            Some(charge) => Step::Free(charge),
            None => {
                self.work = Work::Idle;
                Step::Done(self.under.counts)
            }
        }
    }

    /// Behind the cut a copy is asked for, or charges are given back.
    #[tactic(auto, using(crate::proofs::Leaving::shut_gives, crate::proofs::Leaving::gives_leaves, crate::proofs::StepWeights::gives_weight))]
    pub(crate) fn go_on(&mut self) -> Step<C>
        requires { IsShut self.old.work }
        ensures goes_on { GoesOn self.old self.new result }
        ensures leaves { Leaves result self.new.work }
        ensures weight { (w : C → ℕ) → weight_of_all w self.new.lane self.new.frags + weight_of_step w result ≡ weight_of_all w self.old.lane self.old.frags }
        ensures same { (self.new.mode ≡ self.old.mode) × (self.new.last ≡ self.old.last) }
    {
        if let Some(bytes) = self.asked() {
            return Step::Ask { bytes };
        }
        self.give_next()
    }

    /// An entry begins that brings no byte to be kept.
    pub(crate) fn set_under(&mut self, moment: u64, counts: Counts)
        requires idle { self.old.work ≡ Working.Idle }
        requires soon { moment ≤ 2 ^ 62 }
        ensures { self.new ≡ entered moment (classes_of counts) self.old }
    {
        self.under = Under {
            moment,
            front: self.passed.front(),
            bare: is_bare(&self.store),
            counts,
        };
    }

    /// Passes all that is held, and hands over what is left.
    fn finish_end(&mut self, alloc: Global, at: u64) -> Result<(), Memory>
        requires live { IsLive self.old.work }
        requires soon { at ≤ 2 ^ 62 }
        ensures ended { OnOk result (self.new ≡ ended_on at self.old) }
        ensures same { (self.new.mode ≡ self.old.mode) × (self.new.last ≡ self.old.last) }
        ensures weight { (w : C → ℕ) → weight_of_all w self.new.lane self.new.frags ≡ weight_of_all w self.old.lane self.old.frags }
    {
        self.work = Work::Failed;
        let front = self.passed.front();
        pass_on(
            alloc,
            at,
            &mut self.passed,
            &mut self.store,
            front,
            Rule::Always,
        )?;
        self.hole = None;
        self.under.counts = no_counts();
        self.passed.close_chunk()?;
        self.passed.spare_copy()?;
        self.work = Work::Giving;
        Ok(())
    }

    /// The conversation ends at rest.
    #[tactic(auto, using(crate::proofs::StepWeights::gives_weight, crate::proofs::Leaving::gives_leaves))]
    pub(crate) fn close(&mut self, alloc: Global, at: u64) -> Result<Step<C>, Memory>
        requires idle { self.old.work ≡ Working.Idle }
        requires soon { at ≤ 2 ^ 62 }
        ensures step { IfOk result (λ step. (paid : C → Owed) (t : Terms) (d : Direction) (pieces : List Piece) → StandsFor paid self.old d Rests pieces
            → IsStep paid (StandsFor paid self.new) t (kind_of self.old.mode) d (Ends at) 0 pieces step) }
        ensures left { IfOk result (λ step. Adds 0 0 self.old self.new) }
        ensures leaves { IfOk result (λ step. Leaves step self.new.work) }
        ensures weight { IfOk result (λ step. (w : C → ℕ) → weight_of_all w self.new.lane self.new.frags + weight_of_step w step ≡ weight_of_all w self.old.lane self.old.frags) }
        ensures err { OnErr result ((w : C → ℕ) → weight_of_all w self.new.lane self.new.frags ≡ weight_of_all w self.old.lane self.old.frags) }
        ensures same { (self.new.mode ≡ self.old.mode) × (self.new.last ≡ self.old.last) }
    {
        let _ = &self.store;
        self.finish_end(alloc, at)?;
        Ok(self.give_next())
    }

    /// A charge was given back.
    #[tactic(auto, using(crate::proofs::EntrySteps::freed_step, crate::proofs::Leaving::gives_leaves, crate::proofs::StepWeights::gives_weight, crate::proofs::Lefts::free_lowers))]
    pub(crate) fn give_on(&mut self) -> Step<C>
        requires { self.old.work ≡ Working.Giving }
        ensures step { (paid : C → Owed) (t : Terms) (d : Direction) (deed : Deed) (given : ℕ) (pieces : List Piece)
            → StandsFor paid self.old d (Works t deed given) pieces
            → IsStep paid (StandsFor paid self.new) t (kind_of self.old.mode) d deed (suc given) pieces result }
        ensures left { Lowers {C = C} None self.old self.new }
        ensures leaves { Leaves result self.new.work }
        ensures weight { (w : C → ℕ) → weight_of_all w self.new.lane self.new.frags + weight_of_step w result ≡ weight_of_all w self.old.lane self.old.frags }
        ensures same { (self.new.mode ≡ self.old.mode) × (self.new.last ≡ self.old.last) }
    {
        self.give_next()
    }
}

/// Whether nothing is held.
#[tactic(auto, using(crate::proofs::Entering::bare_none))]
fn is_bare<C: Charge>(store: &Store<C>) -> bool
    ensures { result ≡ is_empty store.now.frags }
{
    store.least().is_none()
}

/// Since when a hole stands, with what is held now.
fn hole_since<C: Charge>(
    store: &Store<C>,
    front: u64,
    under: &Under,
    since: Option<u64>,
) -> Option<u64>
    ensures hole { result ≡ hole_now under.now.moment under.now.front front under.now.bare since store.now.frags }
    ensures early { under.now.moment ≤ 2 ^ 62 → IsEarly since → IsEarly result }
{
    if store.least().is_none() {
        return None;
    }
    if under.front != front || under.bare {
        Some(under.moment)
    } else {
        since
    }
}

/// What is under way behind a cut, of which a copy of these bytes is to be made.
fn work_behind(bytes: PartBytes) -> Work
    ensures { working_for result ≡ copying bytes }
{
    if bytes.as_slice().is_empty() {
        Work::Giving
    } else {
        Work::Copies { bytes }
    }
}
