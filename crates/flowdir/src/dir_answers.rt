// How the asks of a direction are answered.
ghost use Rattle.std.specs.Prelude.{◌≡◌, ℕ, true, false, max, IsTrue, suc, ◌+◌, ◌*◌, ◌<◌, ◌≤◌, ◌^◌, List, [], ◌∷◌, ◌++◌, drop, length, Option, Some, None, option_map, option_to_list, IsNone, IsSome, IfSome, IfOk, OnOk, OnErr, IsFalse, unsigned_abs};
ghost use Rattle.histbook.specs.declared.look_entry.LookEntry.{LookEntry};
ghost use Rattle.streamdefs.specs.Terms.{Terms};
ghost use Rattle.streamdefs.specs.Lists.{is_empty};
ghost use Rattle.streamdefs.specs.Pending.{Piece};
ghost use Rattle.streamdefs.specs.View.{Ask as Request};
ghost use Rattle.streamdefs.specs.Direction.{Direction, Segment, Deed, untouched, next_by, start_of, with_one_look, dues_in};
ghost use Rattle.streamdefs.specs.Direction.Deed.{Arrives, Falls_due, Ends};
ghost use Rattle.streamdefs.specs.Direction.{no_counts as none};
ghost use Rattle.streamdefs.specs.Direction.Next.{Asks, Gives};
ghost use Rattle.streamdefs.specs.Reorder.{Charge as Owed};
ghost use Rattle.reorder.specs.Frags.{weight_in};
ghost use Rattle.flowdir.specs.Lane.{weight_of_lane, LaneStands};
ghost use Rattle.flowdir.specs.Passing.{weight_of_all};
ghost use Rattle.flowdir.specs.Boundary.{HasShape, IsTimely, least_of, weight_of, weight_of_step, weight_of_chunk, asked_by, AsksSome, IsPaidBy, number_of, segment_of, kind_of, IsStep, IsLookOf, IsFirst};
ghost use Rattle.flowdir.specs.Boundary.Phase.{Rests, Works};
ghost use Rattle.flowdir.specs.Counting.{classes_of};
ghost use Rattle.flowdir.specs.Waits.{waits_of};
ghost use Rattle.flowdir.specs.Classes.{counts_taken, at_of};
ghost use Rattle.flowdir.specs.Meeting.{Meets, IsFor};
ghost use Rattle.flowdir.specs.declared.advance.Advance.TheVariants.{Stay};
ghost use Rattle.flowdir.specs.Left.{Lowers};
ghost use Rattle.flowdir.specs.Kept.{Leaves, IsEarly, late_of, entered, due_way, is_due, first_at, due_cuts, cuts_for, copying, advanced, ended_on, hole_now, rule_for, way_for, working_for, bytes_next, with_charge, with_none, with_answer, HasRoom, Working, IsLive, IsCopying, IsRunning, IsShut, IsFewNext, GivesNext, GoesOn, AsksNext, StandsFor, Enters, HeadIs};

use crate::advance::Advance;
use crate::cuts::Cuts;
use crate::dir::Dir;
use crate::head::Head;
use crate::heading::aim;
use crate::passed::{Passed, charge_of, falls_at};
use crate::passing::{advance, pass_on};
use crate::rule::Rule;
use crate::running::start_runs;
use crate::under::Under;
use crate::waiting::{Waiting, take_run};
use crate::work::Work;
use crate::{Counts, DirMode, Memory, Seg, Step};
use chunkpart::Chunk;
use overpolicy::{Policy, Shape};
use prio_budget::{Charge, Part, PartBytes};
use reorder::Store;
use seqspace::Seq;
use std::alloc::Global;
use std::collections::VecDeque;
use std::marker::Model;
use std::mem;

impl<C: Charge> Dir<C> {
    /// Puts the first run that waits, which is granted by a charge.
    #[tactic(auto, using(crate::proofs::Sound::kept_taken, crate::proofs::Sound::takes_weight))]
    fn take(&mut self, charge: C) -> Result<(), Memory>
        requires running { IsRunning self.old.work }
        requires granted { bytes_next self.old.work ≡ Some (C.amount charge) }
        ensures ok { OnOk result (self.new ≡ with_charge charge self.old) }
        ensures running { OnOk result (IsRunning self.new.work) }
        ensures same { (self.new.mode ≡ self.old.mode) × (self.new.last ≡ self.old.last) }
        ensures weight { (w : C → ℕ) → weight_of_all w self.new.lane self.new.frags ≡ weight_of_all w self.old.lane self.old.frags + w charge }
    {
        if let Work::Runs { start, mut waits } = mem::replace(&mut self.work, Work::Failed) {
            let bytes = take_run(&mut self.store, start, &mut waits, charge);
            self.under.counts = with_taken(self.under.counts, bytes);
            reserve_for(&mut self.store, &waits)?;
            self.work = Work::Runs { start, waits };
        }
        Ok(())
    }

    /// Sheds the runs that wait.
    fn shed(&mut self)
        requires { IsRunning self.old.work }
        ensures kept { self.new ≡ with_none self.old }
        ensures running { IsRunning self.new.work }
    {
        if let Work::Runs { waits, .. } = &mut self.work {
            waits.clear();
        }
    }

    /// Asks for the next run that waits; behind the last one the entry passes and cuts.
    pub(crate) fn ask_next(&mut self, alloc: Global, shape: &Shape) -> Result<Step<C>, Memory>
        requires running { IsRunning self.old.work }
        ensures asks { IfOk result (λ step. AsksNext (cuts_for shape.now.chunk shape.now.overlap) shape.now.reorder self.old self.new step) }
        ensures leaves { IfOk result (λ step. Leaves step self.new.work) }
        ensures weight { IfOk result (λ step. (w : C → ℕ) → weight_of_all w self.new.lane self.new.frags + weight_of_step w step ≡ weight_of_all w self.old.lane self.old.frags) }
        ensures same { (self.new.mode ≡ self.old.mode) × (self.new.last ≡ self.old.last) }
        ensures err { OnErr result ((w : C → ℕ) → weight_of_all w self.new.lane self.new.frags ≡ weight_of_all w self.old.lane self.old.frags) }
    {
        if let Some(bytes) = self.asked() {
            return Ok(Step::Ask { bytes });
        }
        let way = Advance::From {
            at: self.passed.front(),
            rule: rule(self.mode, shape),
        };
        self.finish(alloc, way, cuts(shape))?;
        Ok(self.go_on())
    }

    /// A run is granted by a charge, or the runs that wait are shed.
    fn answer(&mut self, granted: Option<C>) -> Result<(), Memory>
        requires running { IsRunning self.old.work }
        requires granted { IfSome granted (λ charge. bytes_next self.old.work ≡ Some (C.amount charge)) }
        ensures ok { OnOk result (self.new ≡ with_answer granted self.old) }
        ensures running { OnOk result (IsRunning self.new.work) }
        ensures same { (self.new.mode ≡ self.old.mode) × (self.new.last ≡ self.old.last) }
        ensures weight { (w : C → ℕ) → weight_of_all w self.new.lane self.new.frags ≡ weight_of_all w self.old.lane self.old.frags + weight_of w granted }
    {
        match granted {
            Some(charge) => self.take(charge),
            None => {
                self.shed();
                Ok(())
            }
        }
    }

    /// The ask for a run is answered.
    fn answer_run(
        &mut self,
        alloc: Global,
        shape: &Shape,
        granted: Option<C>,
    ) -> Result<Step<C>, Memory>
        requires running { IsRunning self.old.work }
        requires granted { IfSome granted (λ charge. bytes_next self.old.work ≡ Some (C.amount charge)) }
        requires asked { IsSome (bytes_next self.old.work) }
        ensures running { IsRunning self.old.work }
        ensures left { IfOk result (λ step. Lowers granted self.old self.new) }
        ensures asks { IfOk result (λ step. AsksNext (cuts_for shape.now.chunk shape.now.overlap) shape.now.reorder (with_answer granted self.old) self.new step) }
        ensures leaves { IfOk result (λ step. Leaves step self.new.work) }
        ensures weight { IfOk result (λ step. (w : C → ℕ) → weight_of_all w self.new.lane self.new.frags + weight_of_step w step ≡ weight_of_all w self.old.lane self.old.frags + weight_of w granted) }
        ensures err { OnErr result ((w : C → ℕ) → weight_of_all w self.new.lane self.new.frags ≡ weight_of_all w self.old.lane self.old.frags + weight_of w granted) }
        ensures same { (self.new.mode ≡ self.old.mode) × (self.new.last ≡ self.old.last) }
    {
        self.answer(granted)?;
        self.ask_next(alloc, shape)
    }

    /// The copy waits for the next chunk, where it is granted.
    #[tactic(auto, using(crate::proofs::Sound::bare_there))]
    fn put_copy(&mut self, granted: Option<C>)
        requires copying { IsCopying self.old.work }
        requires granted { IfSome granted (λ charge. bytes_next self.old.work ≡ Some (C.amount charge)) }
        ensures kept { self.new ≡ with_answer granted self.old }
        ensures giving { self.new.work ≡ Working.Giving }
        ensures weight { (w : C → ℕ) → weight_of_all w self.new.lane self.new.frags ≡ weight_of_all w self.old.lane self.old.frags + weight_of w granted }
    {
        if let Work::Copies { bytes } = mem::replace(&mut self.work, Work::Giving)
            && let Some(charge) = granted
        {
            self.passed.put_copy(Part::new(bytes, charge));
        }
    }

    /// The ask for a copy is answered.
    #[tactic(auto, using(crate::proofs::Leaving::gives_leaves, crate::proofs::StepWeights::gives_weight, crate::proofs::Lefts::copy_lowers))]
    fn answer_copy(&mut self, granted: Option<C>) -> Step<C>
        requires copying { IsCopying self.old.work }
        requires granted { IfSome granted (λ charge. bytes_next self.old.work ≡ Some (C.amount charge)) }
        ensures gives { GivesNext (with_answer granted self.old) self.new result }
        ensures copying { IsCopying self.old.work }
        ensures left { Lowers granted self.old self.new }
        ensures leaves { Leaves result self.new.work }
        ensures weight { (w : C → ℕ) → weight_of_all w self.new.lane self.new.frags + weight_of_step w result ≡ weight_of_all w self.old.lane self.old.frags + weight_of w granted }
        ensures same { (self.new.mode ≡ self.old.mode) × (self.new.last ≡ self.old.last) }
    {
        self.put_copy(granted);
        self.give_next()
    }

    /// The ask is answered.
    pub(crate) fn hear(
        &mut self,
        alloc: Global,
        shape: &Shape,
        granted: Option<C>,
    ) -> Result<Step<C>, Memory>
        requires granted { IfSome granted (λ charge. bytes_next self.old.work ≡ Some (C.amount charge)) }
        requires asked { IsSome (bytes_next self.old.work) }
        ensures step { IfOk result (λ step. (paid : C → Owed) (t : Terms) (d : Direction) (deed : Deed) (given : ℕ) (pieces : List Piece) (look : LookEntry) (request : Request)
            → HasShape shape.now t → IsPaidBy C.amount paid → StandsFor paid self.old d (Works t deed given) pieces
            → next_by t (kind_of self.old.mode) d deed given ≡ Asks request → IsLookOf paid granted look
            → IsStep paid (StandsFor paid self.new) t (kind_of self.old.mode) d (with_one_look look deed) given pieces step) }
        ensures left { IfOk result (λ step. Lowers granted self.old self.new) }
        ensures leaves { IfOk result (λ step. Leaves step self.new.work) }
        ensures weight { IfOk result (λ step. (w : C → ℕ) → weight_of_all w self.new.lane self.new.frags + weight_of_step w step ≡ weight_of_all w self.old.lane self.old.frags + weight_of w granted) }
        ensures err { OnErr result ((w : C → ℕ) → weight_of_all w self.new.lane self.new.frags ≡ weight_of_all w self.old.lane self.old.frags + weight_of w granted) }
        ensures same { (self.new.mode ≡ self.old.mode) × (self.new.last ≡ self.old.last) }
    {
        if self.is_copying() {
            return Ok(self.answer_copy(granted));
        }
        self.answer_run(alloc, shape, granted)
    }
}

/// Which holes a direction jumps as its segments come.
fn rule(mode: DirMode, shape: &Shape) -> Rule
    ensures { result ≡ rule_for mode shape.now.reorder }
{
    match mode {
        DirMode::Strict => Rule::Above(shape.reorder),
        DirMode::Fast | DirMode::Udp => Rule::Always,
    }
}

/// When a segment's entry hands over.
pub(crate) fn cuts(shape: &Shape) -> Cuts
    ensures { result ≡ cuts_for shape.now.chunk shape.now.overlap }
{
    Cuts {
        chunk: shape.chunk,
        overlap: shape.overlap,
        flush: 0,
        at: 0,
    }
}

/// Makes room for the first run that waits, where there is one.
pub(crate) fn reserve_for<C: Charge>(
    store: &mut Store<C>,
    waits: &VecDeque<Waiting>,
) -> Result<(), Memory>
    ensures room { OnOk result (HasRoom store.new.room (waits_of waits.now.items)) }
    ensures same { store.new.frags ≡ store.old.frags }
{
    if waits.is_empty() {
        return Ok(());
    }
    store.reserve()
}

/// The counts with so many bytes taken.
fn with_taken(counts: Counts, bytes: u64) -> Counts
    requires { counts.taken + bytes < 2 ^ 64 }
    ensures { classes_of result ≡ counts_taken bytes (classes_of counts) }
{
    Counts {
        taken: counts.taken + bytes,
        shed: counts.shed.saturating_sub(bytes),
        ..counts
    }
}
