// What falls due in a direction.
ghost use Rattle.std.specs.Prelude.{◌≡◌, ℕ, true, false, max, IsTrue, suc, ◌+◌, ◌*◌, ◌<◌, ◌≤◌, ◌^◌, List, [], ◌∷◌, ◌++◌, drop, length, Option, Some, None, option_map, option_to_list, IsNone, IsSome, IfSome, IfOk, OnOk, OnErr, IsFalse, unsigned_abs};
ghost use Rattle.histbook.specs.declared.look_entry.LookEntry.{LookEntry};
ghost use Rattle.streamdefs.specs.Terms.{Terms};
ghost use Rattle.streamdefs.specs.Lists.{is_empty};
ghost use Rattle.streamdefs.specs.Pending.{Piece};
ghost use Rattle.streamdefs.specs.View.{Ask as Request};
ghost use Rattle.streamdefs.specs.Direction.{Direction, Segment, Deed, untouched, next_by, start_of, with_one_look, dues_in};
ghost use Rattle.streamdefs.specs.Direction.Deed.{Arrives, Falls_due, Ends};
ghost use Rattle.streamdefs.specs.Direction.{no_counts as none};
ghost use Rattle.streamdefs.specs.Direction.Next.{Asks, Gives};
ghost use Rattle.streamdefs.specs.Reorder.{Charge as Owed};
ghost use Rattle.reorder.specs.Frags.{weight_in};
ghost use Rattle.flowdir.specs.Lane.{weight_of_lane, LaneStands};
ghost use Rattle.flowdir.specs.Passing.{weight_of_all};
ghost use Rattle.flowdir.specs.Boundary.{HasShape, IsTimely, least_of, weight_of, weight_of_step, weight_of_chunk, asked_by, AsksSome, IsPaidBy, number_of, segment_of, kind_of, IsStep, IsLookOf, IsFirst};
ghost use Rattle.flowdir.specs.Boundary.Phase.{Rests, Works};
ghost use Rattle.flowdir.specs.Counting.{classes_of};
ghost use Rattle.flowdir.specs.Waits.{waits_of};
ghost use Rattle.flowdir.specs.Classes.{counts_taken, at_of};
ghost use Rattle.flowdir.specs.Meeting.{Meets, IsFor};
ghost use Rattle.flowdir.specs.declared.advance.Advance.TheVariants.{Stay};
ghost use Rattle.flowdir.specs.Left.{Adds, Lowers, due_at};
ghost use Rattle.flowdir.specs.Kept.{Leaves, IsEarly, late_of, entered, due_way, is_due, first_at, due_cuts, cuts_for, copying, advanced, ended_on, hole_now, rule_for, way_for, working_for, bytes_next, with_charge, with_none, with_answer, HasRoom, Working, IsLive, IsCopying, IsRunning, IsShut, IsFewNext, GivesNext, GoesOn, AsksNext, StandsFor, Enters, HeadIs};

use crate::advance::Advance;
use crate::counts::no_counts;
use crate::cuts::Cuts;
use crate::dir::Dir;
use crate::head::Head;
use crate::heading::aim;
use crate::passed::{Passed, charge_of, falls_at};
use crate::passing::{advance, pass_on};
use crate::rule::Rule;
use crate::running::start_runs;
use crate::under::Under;
use crate::waiting::{Waiting, take_run};
use crate::work::Work;
use crate::{Counts, DirMode, Memory, Seg, Step};
use chunkpart::Chunk;
use overpolicy::{Policy, Shape};
use prio_budget::{Charge, Part, PartBytes};
use reorder::Store;
use seqspace::Seq;
use std::alloc::Global;
use std::collections::VecDeque;
use std::marker::Model;
use std::mem;

impl<C: Charge> Dir<C> {
    /// A hole or a flush falls due at rest.
    pub(crate) fn fall_due(
        &mut self,
        alloc: Global,
        shape: &Shape,
        at: u64,
    ) -> Result<Step<C>, Memory>
        requires idle { self.old.work ≡ Working.Idle }
        requires soon { at ≤ 2 ^ 62 }
        ensures step { IfOk result (λ step. (paid : C → Owed) (t : Terms) (d : Direction) (pieces : List Piece) → HasShape shape.now t → StandsFor paid self.old d Rests pieces
            → IsStep paid (StandsFor paid self.new) t (kind_of self.old.mode) d (Falls_due at []) 0 pieces step) }
        ensures left { IfOk result (λ step. Adds 0 3 self.old self.new) }
        ensures due { IfOk result (λ step. due_at shape.now.hole shape.now.flush self.old ≡ Some at → Lowers {C = C} None self.old self.new) }
        ensures leaves { IfOk result (λ step. Leaves step self.new.work) }
        ensures weight { IfOk result (λ step. (w : C → ℕ) → weight_of_all w self.new.lane self.new.frags + weight_of_step w step ≡ weight_of_all w self.old.lane self.old.frags) }
        ensures err { OnErr result ((w : C → ℕ) → weight_of_all w self.new.lane self.new.frags ≡ weight_of_all w self.old.lane self.old.frags) }
        ensures same { (self.new.mode ≡ self.old.mode) × (self.new.last ≡ self.old.last) }
    {
        let _ = &self.store;
        self.after(alloc, shape, at)
    }

    /// What falls due is passed, and cut.
    fn after(&mut self, alloc: Global, shape: &Shape, at: u64) -> Result<Step<C>, Memory>
        requires idle { self.old.work ≡ Working.Idle }
        requires soon { at ≤ 2 ^ 62 }
        ensures goes_on { IfOk result (λ step. GoesOn (advanced (due_way shape.now.hole at self.old) (due_cuts shape.now.chunk shape.now.overlap shape.now.flush at) (entered at none self.old)) self.new step) }
        ensures leaves { IfOk result (λ step. Leaves step self.new.work) }
        ensures weight { IfOk result (λ step. (w : C → ℕ) → weight_of_all w self.new.lane self.new.frags + weight_of_step w step ≡ weight_of_all w self.old.lane self.old.frags) }
        ensures err { OnErr result ((w : C → ℕ) → weight_of_all w self.new.lane self.new.frags ≡ weight_of_all w self.old.lane self.old.frags) }
        ensures same { (self.new.mode ≡ self.old.mode) × (self.new.last ≡ self.old.last) }
    {
        let way = self.way_at(shape.hole, at);
        self.set_under(at, no_counts());
        self.finish(alloc, way, cuts_at(shape, at))?;
        Ok(self.go_on())
    }

    /// What a direction passes at a moment: where its hole falls due then, what is held up to the next hole.
    fn way_at(&self, hole: u64, at: u64) -> Advance
        ensures { result ≡ due_way hole at self.now }
    {
        if self.is_hole_due(hole, at) {
            Advance::From {
                at: self.first_at(),
                rule: Rule::Never,
            }
        } else {
            Advance::Stay
        }
    }

    fn is_hole_due(&self, hole: u64, at: u64) -> bool
        ensures { result ≡ is_due hole at self.now.hole }
    {
        match self.hole {
            Some(since) => falls_at(since, hole, at),
            None => false,
        }
    }

    /// Where the first part begins, or the front where none is held.
    #[tactic(auto, using(crate::proofs::DueHole::first_none, crate::proofs::DueHole::first_some))]
    fn first_at(&self) -> u64
        ensures { result ≡ first_at self.now.lane.front self.now.frags }
    {
        match self.store.least() {
            Some(at) => at,
            None => self.passed.front(),
        }
    }

    /// When the hole falls due.
    pub(crate) fn hole_due(&self, hole: u64) -> Option<u64>
        requires { hole ≤ 2 ^ 62 }
        ensures { result ≡ option_map (λ since. since + hole) self.now.hole }
    {
        match self.hole {
            Some(since) => Some(since + hole),
            None => None,
        }
    }
}

/// When an entry of time hands over.
fn cuts_at(shape: &Shape, at: u64) -> Cuts
    ensures { result ≡ due_cuts shape.now.chunk shape.now.overlap shape.now.flush at }
{
    Cuts {
        chunk: shape.chunk,
        overlap: shape.overlap,
        flush: shape.flush,
        at,
    }
}
