ghost use Rattle.std.specs.Prelude.{◌≡◌, ℕ, true, false, max, IsTrue, suc, ◌+◌, ◌*◌, ◌<◌, ◌≤◌, ◌^◌, List, [], ◌∷◌, ◌++◌, drop, length, Option, Some, None, option_map, option_to_list, IsNone, IsSome, IfSome, IfOk, OnOk, OnErr, IsFalse, unsigned_abs};
ghost use Rattle.histbook.specs.declared.look_entry.LookEntry.{LookEntry};
ghost use Rattle.streamdefs.specs.Terms.{Terms};
ghost use Rattle.streamdefs.specs.Lists.{is_empty};
ghost use Rattle.streamdefs.specs.Pending.{Piece};
ghost use Rattle.streamdefs.specs.View.{Ask as Request};
ghost use Rattle.streamdefs.specs.Direction.{Direction, Segment, Deed, untouched, next_by, start_of, with_one_look, dues_in};
ghost use Rattle.streamdefs.specs.Direction.Deed.{Arrives, Falls_due, Ends};
ghost use Rattle.streamdefs.specs.Direction.{no_counts as none};
ghost use Rattle.streamdefs.specs.Direction.Next.{Asks, Gives};
ghost use Rattle.streamdefs.specs.Reorder.{Charge as Owed};
ghost use Rattle.reorder.specs.Frags.{weight_in};
ghost use Rattle.flowdir.specs.Lane.{weight_of_lane, LaneStands};
ghost use Rattle.flowdir.specs.Passing.{weight_of_all};
ghost use Rattle.flowdir.specs.Boundary.{HasShape, IsTimely, least_of, weight_of, weight_of_step, weight_of_chunk, asked_by, AsksSome, IsPaidBy, number_of, segment_of, kind_of, IsStep, IsLookOf, IsFirst};
ghost use Rattle.flowdir.specs.Boundary.Phase.{Rests, Works};
ghost use Rattle.flowdir.specs.Counting.{classes_of};
ghost use Rattle.flowdir.specs.Waits.{waits_of};
ghost use Rattle.flowdir.specs.Classes.{counts_taken, at_of};
ghost use Rattle.flowdir.specs.Meeting.{Meets, IsFor};
ghost use Rattle.flowdir.specs.declared.advance.Advance.TheVariants.{Stay};
ghost use Rattle.flowdir.specs.Left.{count_of, grants_left, work_left, Adds, Lowers, due_at};
ghost use Rattle.flowdir.specs.Kept.{Leaves, IsEarly, late_of, entered, due_way, is_due, first_at, due_cuts, cuts_for, copying, advanced, ended_on, hole_now, rule_for, way_for, working_for, bytes_next, with_charge, with_none, with_answer, HasRoom, Working, IsLive, IsCopying, IsRunning, IsShut, IsFewNext, GivesNext, GoesOn, AsksNext, StandsFor, Enters, HeadIs};

use crate::advance::Advance;
use crate::counts::no_counts;
use crate::cuts::Cuts;
use crate::head::Head;
use crate::heading::aim;
use crate::passed::{Passed, charge_of, falls_at};
use crate::passing::{advance, pass_on};
use crate::rule::Rule;
use crate::running::start_runs;
use crate::under::Under;
use crate::waiting::{Waiting, take_run};
use crate::work::Work;
use crate::{Counts, DirMode, Memory, Seg, Step};
use chunkpart::Chunk;
use overpolicy::{Policy, Shape};
use prio_budget::{Charge, Part, PartBytes};
use reorder::Store;
use seqspace::Seq;
use std::alloc::Global;
use std::collections::VecDeque;
use std::marker::Model;
use std::mem;

/// One direction of a conversation.
#[derive(Drop)]
pub struct Dir<C: Charge> {
    pub(crate) mode: DirMode,
    pub(crate) base: Option<Seq>,
    pub(crate) sent: u64,
    pub(crate) fin: Option<u64>,
    pub(crate) last: u32,
    pub(crate) hole: Option<u64>,
    pub(crate) passed: Passed<C>,
    pub(crate) store: Store<C>,
    pub(crate) under: Under,
    pub(crate) work: Work,
}

impl<C: Charge> Model for Dir<C> {
    ghost use Rattle.std.specs.Prelude.{◌≤◌, ◌*◌, ◌^◌};
    ghost use Rattle.flowdir.specs.Boundary.{number_of};
    ghost use Rattle.flowdir.specs.Kept.{Kept, IsSoundAt, HasFew, IsEarly, working_for, under_for};

    ghost Value = { Kept C };

    ghost view = { λ d. record {
      mode = d.mode;
      base = number_of d.base;
      sent = d.sent;
      fin = d.fin;
      last = d.last;
      hole = d.hole;
      lane = d.passed.lane;
      frags = d.store.frags;
      under = under_for d.under;
      work = working_for d.work;
    } };

    ghost invariant = { λ d. IsSoundAt d.last d.store.room d.passed.lane d.store.frags (working_for d.work) × HasFew d.under.counts.taken (working_for d.work) × (d.sent ≤ d.last * 2 ^ 18) × (d.under.moment ≤ 2 ^ 62) × IsEarly d.hole };
}

impl<C: Charge> Dir<C> {
    /// Before any segment.
    #[tactic(auto, using(crate::proofs::EntrySteps::new_rests))]
    pub fn new(alloc: Global, mode: DirMode) -> Dir<C>
        ensures stands { (paid : C → Owed) → StandsFor paid result untouched Rests [] }
        ensures mode { result.mode ≡ mode }
        ensures asked { bytes_next result.work ≡ None }
        ensures last { result.last ≡ 0 }
        ensures left { (grants_left result ≡ 0) × (work_left result ≡ 0) }
        ensures weight { (w : C → ℕ) → weight_of_all w result.lane result.frags ≡ 0 }
    {
        Dir {
            mode,
            base: None,
            sent: 0,
            fin: None,
            last: 0,
            hole: None,
            passed: Passed::new(alloc),
            store: Store::new(alloc),
            under: Under {
                moment: 0,
                front: 0,
                bare: true,
                counts: no_counts(),
            },
            work: Work::Idle,
        }
    }

    fn is_idle(&self) -> bool
        ensures yes { IsTrue result → self.now.work ≡ Working.Idle }
        ensures no { IsFalse result → self.now.work ≡ Working.Idle → ⊥ }
    {
        match &self.work {
            Work::Idle => true,
            _ => false,
        }
    }

    fn is_giving(&self) -> bool
        ensures { IsTrue result → self.now.work ≡ Working.Giving }
    {
        match &self.work {
            Work::Giving => true,
            _ => false,
        }
    }

    pub(crate) fn is_copying(&self) -> bool
        ensures yes { IsTrue result → IsCopying self.now.work }
        ensures no { IsFalse result → IsCopying self.now.work → ⊥ }
    {
        match &self.work {
            Work::Copies { .. } => true,
            _ => false,
        }
    }

    /// The number of bytes that are asked for.
    pub(crate) fn asked(&self) -> Option<u32>
        ensures bytes { result ≡ bytes_next self.now.work }
        ensures some { IfSome result (λ n. 0 < n) }
    {
        next_bytes(&self.work)
    }

    /// A segment comes, with the cutoff in force: overlap is settled, and its first run is asked for. Answered with want of
    /// memory where an entry is still under way.
    #[tactic(auto, using(crate::proofs::Leaving::asked_left, crate::proofs::Leaving::some_left))]
    pub fn begin(
        &mut self,
        alloc: Global,
        shape: &Shape,
        seg: &Seg<'_>,
        cutoff: Option<u64>,
    ) -> Result<Step<C>, Memory>
        requires number { (self.old.last < seg.now.number) × (seg.now.number ≤ 2 ^ 22) }
        requires now { seg.now.now ≤ 2 ^ 62 }
        requires few { length seg.now.payload.now ≤ 262144 }
        ensures step { IfOk result (λ step. (paid : C → Owed) (t : Terms) (d : Direction) (pieces : List Piece) → HasShape shape.now t → StandsFor paid self.old d Rests pieces
            → IsStep paid (StandsFor paid self.new) t (kind_of self.old.mode) d (Arrives (segment_of seg.entry.now cutoff) []) 0 pieces step) }
        ensures asked { IfOk result (λ step. bytes_next self.new.work ≡ asked_by step) }
        ensures some { IfOk result AsksSome }
        ensures left { IfOk result (λ step. Adds (2 * length seg.entry.now.payload.now) (14 * length seg.entry.now.payload.now + 3) self.old self.new) }
        ensures mode { self.new.mode ≡ self.old.mode }
        ensures last { OnOk result (self.new.last ≡ seg.entry.now.number) }
        ensures weight { IfOk result (λ step. (w : C → ℕ) → weight_of_all w self.new.lane self.new.frags + weight_of_step w step ≡ weight_of_all w self.old.lane self.old.frags) }
        ensures err { OnErr result ((w : C → ℕ) → weight_of_all w self.new.lane self.new.frags ≡ weight_of_all w self.old.lane self.old.frags) }
    {
        if !self.is_idle() {
            // No entry is begun before the last one is done.
            return Err(Memory);
        }
        self.arrive(alloc, shape, seg, cutoff)
    }

    /// The ask is answered: granted by a charge, or refused. A run that is granted is held, and a copy waits for the next
    /// delivery. Answered with want of memory where nothing is asked for.
    #[tactic(auto, using(crate::proofs::Leaving::asked_left, crate::proofs::Leaving::some_left, crate::proofs::Leaving::none_granted))]
    pub fn told(
        &mut self,
        alloc: Global,
        shape: &Shape,
        granted: Option<C>,
    ) -> Result<Step<C>, Memory>
        requires granted { IfSome granted (λ charge. bytes_next self.old.work ≡ Some (C.amount charge)) }
        ensures step { IfOk result (λ step. (paid : C → Owed) (t : Terms) (d : Direction) (deed : Deed) (given : ℕ) (pieces : List Piece) (look : LookEntry) (request : Request)
            → HasShape shape.now t → IsPaidBy C.amount paid → StandsFor paid self.old d (Works t deed given) pieces
            → next_by t (kind_of self.old.mode) d deed given ≡ Asks request → IsLookOf paid granted look
            → IsStep paid (StandsFor paid self.new) t (kind_of self.old.mode) d (with_one_look look deed) given pieces step) }
        ensures asked { IfOk result (λ step. bytes_next self.new.work ≡ asked_by step) }
        ensures some { IfOk result AsksSome }
        ensures left { IfOk result (λ step. Lowers granted self.old self.new) }
        ensures mode { self.new.mode ≡ self.old.mode }
        ensures last { self.new.last ≡ self.old.last }
        ensures weight { IfOk result (λ step. (w : C → ℕ) → weight_of_all w self.new.lane self.new.frags + weight_of_step w step ≡ weight_of_all w self.old.lane self.old.frags + weight_of w granted) }
        ensures err { OnErr result ((w : C → ℕ) → weight_of_all w self.new.lane self.new.frags ≡ weight_of_all w self.old.lane self.old.frags + weight_of w granted) }
    {
        if self.asked().is_none() {
            // Nothing is asked for, so nothing was granted.
            return Err(Memory);
        }
        self.hear(alloc, shape, granted)
    }

    /// The charge was given back. Answered with want of memory where none was on its way.
    #[tactic(auto, using(crate::proofs::Leaving::asked_left, crate::proofs::Leaving::some_left))]
    pub fn freed(&mut self) -> Result<Step<C>, Memory>
        ensures step { IfOk result (λ step. (paid : C → Owed) (t : Terms) (d : Direction) (deed : Deed) (given : ℕ) (pieces : List Piece) (charge : Owed)
            → StandsFor paid self.old d (Works t deed given) pieces → next_by t (kind_of self.old.mode) d deed given ≡ Gives charge
            → IsStep paid (StandsFor paid self.new) t (kind_of self.old.mode) d deed (suc given) pieces step) }
        ensures asked { IfOk result (λ step. bytes_next self.new.work ≡ asked_by step) }
        ensures some { IfOk result AsksSome }
        ensures left { IfOk result (λ step. Lowers {C = C} None self.old self.new) }
        ensures mode { self.new.mode ≡ self.old.mode }
        ensures last { self.new.last ≡ self.old.last }
        ensures weight { IfOk result (λ step. (w : C → ℕ) → weight_of_all w self.new.lane self.new.frags + weight_of_step w step ≡ weight_of_all w self.old.lane self.old.frags) }
        ensures err { OnErr result ((w : C → ℕ) → weight_of_all w self.new.lane self.new.frags ≡ weight_of_all w self.old.lane self.old.frags) }
    {
        if !self.is_giving() {
            // No charge is on its way.
            return Err(Memory);
        }
        Ok(self.give_on())
    }

    /// A hole or a flush falls due. Answered with want of memory where an entry is still under way.
    #[tactic(auto, using(crate::proofs::Leaving::asked_left, crate::proofs::Leaving::some_left))]
    pub fn time(&mut self, alloc: Global, shape: &Shape, at: u64) -> Result<Step<C>, Memory>
        requires at { at ≤ 2 ^ 62 }
        ensures step { IfOk result (λ step. (paid : C → Owed) (t : Terms) (d : Direction) (pieces : List Piece) → HasShape shape.now t → StandsFor paid self.old d Rests pieces
            → IsStep paid (StandsFor paid self.new) t (kind_of self.old.mode) d (Falls_due at []) 0 pieces step) }
        ensures asked { IfOk result (λ step. bytes_next self.new.work ≡ asked_by step) }
        ensures some { IfOk result AsksSome }
        ensures left { IfOk result (λ step. Adds 0 3 self.old self.new) }
        ensures due { IfOk result (λ step. due_at shape.now.hole shape.now.flush self.old ≡ Some at → Lowers {C = C} None self.old self.new) }
        ensures mode { self.new.mode ≡ self.old.mode }
        ensures last { self.new.last ≡ self.old.last }
        ensures weight { IfOk result (λ step. (w : C → ℕ) → weight_of_all w self.new.lane self.new.frags + weight_of_step w step ≡ weight_of_all w self.old.lane self.old.frags) }
        ensures err { OnErr result ((w : C → ℕ) → weight_of_all w self.new.lane self.new.frags ≡ weight_of_all w self.old.lane self.old.frags) }
    {
        if !self.is_idle() {
            // No entry is begun before the last one is done.
            return Err(Memory);
        }
        self.fall_due(alloc, shape, at)
    }

    /// The conversation ends: all that is held is passed, each hole as a gap, and the open chunk is handed over. Answered with
    /// want of memory where an entry is still under way.
    #[tactic(auto, using(crate::proofs::Leaving::asked_left, crate::proofs::Leaving::some_left))]
    pub fn end(&mut self, alloc: Global, at: u64) -> Result<Step<C>, Memory>
        requires at { at ≤ 2 ^ 62 }
        ensures step { IfOk result (λ step. (paid : C → Owed) (t : Terms) (d : Direction) (pieces : List Piece) → StandsFor paid self.old d Rests pieces
            → IsStep paid (StandsFor paid self.new) t (kind_of self.old.mode) d (Ends at) 0 pieces step) }
        ensures asked { IfOk result (λ step. bytes_next self.new.work ≡ asked_by step) }
        ensures some { IfOk result AsksSome }
        ensures left { IfOk result (λ step. Adds 0 0 self.old self.new) }
        ensures mode { self.new.mode ≡ self.old.mode }
        ensures last { self.new.last ≡ self.old.last }
        ensures weight { IfOk result (λ step. (w : C → ℕ) → weight_of_all w self.new.lane self.new.frags + weight_of_step w step ≡ weight_of_all w self.old.lane self.old.frags) }
        ensures err { OnErr result ((w : C → ℕ) → weight_of_all w self.new.lane self.new.frags ≡ weight_of_all w self.old.lane self.old.frags) }
    {
        if !self.is_idle() {
            // No entry is begun before the last one is done.
            return Err(Memory);
        }
        self.close(alloc, at)
    }

    /// The next delivery, where there is one. It takes no memory; while an entry is under way there is none.
    #[tactic(auto, using(crate::proofs::EntrySteps::rests_idle))]
    pub fn take_closed(&mut self) -> Option<Chunk<C>>
        ensures first { (paid : C → Owed) (d : Direction) (pieces : List Piece) → StandsFor paid self.old d Rests pieces → IsFirst paid (StandsFor paid self.new d Rests) pieces result }
        ensures left { (grants_left self.new ≡ grants_left self.old) × (work_left self.new + count_of result ≡ work_left self.old) }
        ensures mode { self.new.mode ≡ self.old.mode }
        ensures asked { bytes_next self.new.work ≡ bytes_next self.old.work }
        ensures last { self.new.last ≡ self.old.last }
        ensures weight { (w : C → ℕ) → weight_of_all w self.new.lane self.new.frags + weight_of_chunk w result ≡ weight_of_all w self.old.lane self.old.frags }
    {
        if !self.is_idle() {
            return None;
        }
        self.take_first()
    }

    #[tactic(auto, using(crate::proofs::EntrySteps::takes_first, crate::proofs::StepWeights::taken_weight, crate::proofs::Lefts::taken_left))]
    fn take_first(&mut self) -> Option<Chunk<C>>
        requires { self.old.work ≡ Working.Idle }
        ensures first { (paid : C → Owed) (d : Direction) (pieces : List Piece) → StandsFor paid self.old d Rests pieces → IsFirst paid (StandsFor paid self.new d Rests) pieces result }
        ensures left { (grants_left self.new ≡ grants_left self.old) × (work_left self.new + count_of result ≡ work_left self.old) }
        ensures kept { (self.new.mode ≡ self.old.mode) × (self.new.last ≡ self.old.last) × (self.new.work ≡ self.old.work) }
        ensures weight { (w : C → ℕ) → weight_of_all w self.new.lane self.new.frags + weight_of_chunk w result ≡ weight_of_all w self.old.lane self.old.frags }
    {
        self.passed.take_closed()
    }

    /// One of the charges that it has, none where none is left. It takes no memory, and may be called at any time; from then on
    /// nothing but this is left to do.
    pub fn drain(&mut self) -> Option<C>
        ensures weight { (w : C → ℕ) → weight_of_all w self.new.lane self.new.frags + weight_of w result ≡ weight_of_all w self.old.lane self.old.frags }
        ensures none { IsNone result → (w : C → ℕ) → weight_of_all w self.old.lane self.old.frags ≡ 0 }
        ensures left { (grants_left self.new ≡ 0) × (work_left self.new ≡ 0) }
        ensures asked { bytes_next self.new.work ≡ None }
        ensures mode { self.new.mode ≡ self.old.mode }
        ensures last { self.new.last ≡ self.old.last }
    {
        self.work = Work::Failed;
        if let Some(charge) = self.passed.drain() {
            return Some(charge);
        }
        drain_store(&mut self.store)
    }

    /// When a hole or a flush falls due, the earlier of both.
    #[tactic(auto, using(crate::proofs::Dues::dues_stand))]
    pub fn due(&self, shape: &Shape) -> Option<u64>
        requires timely { IsTimely shape.now }
        ensures at { result ≡ due_at shape.now.hole shape.now.flush self.now }
        ensures stands { (paid : C → Owed) (t : Terms) (d : Direction) (pieces : List Piece) → HasShape shape.now t → StandsFor paid self.now d Rests pieces → result ≡ least_of (dues_in t d) }
    {
        earlier(
            self.hole_due(shape.hole),
            self.passed.flush_due(shape.flush),
        )
    }

    /// The position before which all was passed.
    #[tactic(auto, using(crate::proofs::EntrySteps::front_stands))]
    pub fn front(&self) -> u64
        ensures { (paid : C → Owed) (d : Direction) (pieces : List Piece) → StandsFor paid self.now d Rests pieces → result ≡ d.view.front }
    {
        self.passed.front()
    }

    /// Where its first segment with FIN ends.
    #[tactic(auto, using(crate::proofs::EntrySteps::fin_stands))]
    pub fn fin(&self) -> Option<u64>
        ensures { (paid : C → Owed) (d : Direction) (pieces : List Piece) → StandsFor paid self.now d Rests pieces → result ≡ d.fin }
    {
        self.fin
    }

    /// The sequence number of the first byte of its first segment.
    #[tactic(auto, using(crate::proofs::EntrySteps::base_stands))]
    pub fn base(&self) -> Option<Seq>
        ensures { (paid : C → Owed) (d : Direction) (pieces : List Piece) → StandsFor paid self.now d Rests pieces → number_of result ≡ d.base }
    {
        self.base
    }
}

/// A charge of what is held, none where nothing is held.
#[tactic(auto, using(crate::proofs::Draining::begins_there))]
fn drain_store<C: Charge>(store: &mut Store<C>) -> Option<C>
    ensures weight { (w : C → ℕ) → weight_in w store.new.frags + weight_of w result ≡ weight_in w store.old.frags }
    ensures none { IsNone result → store.old.frags ≡ [] }
{
    let Some(at) = store.least() else {
        return None;
    };
    match store.take_front(at) {
        Some(part) => Some(charge_of(part)),
        None => None,
    }
}

/// The earlier of two moments.
fn earlier(one: Option<u64>, other: Option<u64>) -> Option<u64>
    ensures { result ≡ least_of (option_to_list one ++ option_to_list other) }
{
    match (one, other) {
        (Some(one), Some(other)) => Some(one.min(other)),
        (Some(one), None) => Some(one),
        (None, other) => other,
    }
}

/// The number of bytes that are asked for.
fn next_bytes(work: &Work) -> Option<u32>
    requires { IsFewNext (working_for work.now) }
    ensures bytes { result ≡ bytes_next (working_for work.now) }
    ensures some { IfSome result (λ n. 0 < n) }
{
    match work {
        Work::Runs { waits, .. } => {
            let wait = waits.front()?;
            Some(wait.bytes.as_slice().len() as u32)
        }
        Work::Copies { bytes } => Some(bytes.as_slice().len() as u32),
        _ => None,
    }
}
