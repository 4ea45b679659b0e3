ghost use Rattle.convo.specs.Directions.{dir_kind};
ghost use Rattle.std.specs.Prelude.{◌≡◌, ℕ, ◌+◌, ◌*◌, List, [], not, cond, None, IsNone, IfSome};
ghost use Rattle.streamdefs.specs.Direction.{Direction};
ghost use Rattle.streamdefs.specs.Pending.{Piece};
ghost use Rattle.streamdefs.specs.Lists.{is_empty};
ghost use Rattle.flowdir.specs.Left.{count_of};
ghost use Rattle.convo.specs.Left.{Gives};
ghost use Rattle.convo.specs.Counted.{CountsTaken, IsUncounted, gaps_with};
ghost use Rattle.convo.specs.Talk.{kept_count};
ghost use Rattle.convo.specs.Weights.{weight_of_chunks};
ghost use Rattle.flowdir.specs.Boundary.{charge_by, IsFirst, weight_of_chunk};
ghost use Rattle.convo.specs.Halves.{Hands, HandsFirst, KeptIs, weight_of_half, weight_of_taken};

use crate::direction;
use chunkpart::Chunk;
use cutclass::Cut;
use evring::Kept;
use flowdir::{Counts, Dir};
use prio_budget::Charge;
use std::alloc::Global;
use std::mem;

/// What is kept of one direction of a conversation: what has come in it, the cutoff that advice set, the chunks that
/// are kept, the first chunk of those that are handed over, once it was looked for, and its sums.
#[derive(Drop)]
pub struct Half<C: Charge> {
    pub dir: Dir<C>,
    pub own: Cut,
    pub kept: Kept<C>,
    pub first: Option<Chunk<C>>,
    pub counts: Counts,
    pub gaps: u64,
    pub gap_bytes: u64,
}

/// One gap more, where there is one. A count stands still at its type's end.
#[tactic(auto, using(std::proofs::lemmas::Bool::Decides::nat_tests))]
fn with_gap(gaps: u64, gap: u64) -> u64
    ensures { result ≡ gaps_with gap gaps }
{
    if gap > 0 {
        gaps.saturating_add(1)
    } else {
        gaps
    }
}

impl<C: Charge> Half<C> {
    /// The next chunk that is handed over, where there is one.
    pub(crate) fn hand(&mut self) -> Option<Chunk<C>>
        ensures first { (d : Direction) (pieces : List Piece) → Hands (charge_by C.amount C.stamp) self.old d pieces → IsFirst (charge_by C.amount C.stamp) (Hands (charge_by C.amount C.stamp) self.new d) pieces result }
        ensures same { self.new ≡ record self.old { dir = self.new.dir; first = self.new.first } }
        ensures kind { dir_kind self.new.dir ≡ dir_kind self.old.dir }
        ensures last { self.new.dir.last ≡ self.old.dir.last }
        ensures none { IsNone result → self.new.first ≡ None }
        ensures left { Gives (8 * count_of result) self.old self.new }
        ensures weight { (w : C → ℕ) → weight_of_half w self.new + weight_of_chunk w result ≡ weight_of_half w self.old }
    {
        if let Some(chunk) = self.first.take() {
            return Some(chunk);
        }
        direction::take_closed(&mut self.dir)
    }

    /// Counts what stands before a chunk that is handed over.
    fn count_gap(&mut self, gap: u64)
        ensures { self.new ≡ record self.old { gaps = gaps_with gap self.old.gaps; gap_bytes = kept_count (self.old.gap_bytes + gap) } }
    {
        self.gaps = with_gap(self.gaps, gap);
        self.gap_bytes = self.gap_bytes.saturating_add(gap);
    }

    /// The next chunk that is handed over, with what is kept.
    pub(crate) fn hand_over(&mut self, alloc: Global) -> Option<(Kept<C>, Chunk<C>)>
        ensures first { (d : Direction) (pieces : List Piece) → Hands (charge_by C.amount C.stamp) self.old d pieces → HandsFirst (charge_by C.amount C.stamp) (Hands (charge_by C.amount C.stamp) self.new d) pieces result }
        ensures kept { KeptIs self.old.kept self.new.kept result }
        ensures sums { CountsTaken self.old self.new result }
        ensures own { self.new.own ≡ self.old.own }
        ensures kind { dir_kind self.new.dir ≡ dir_kind self.old.dir }
        ensures last { self.new.dir.last ≡ self.old.dir.last }
        ensures none { IsNone result → self.new.first ≡ None }
        ensures left { Gives (8 * count_of result) self.old self.new }
        ensures weight { (w : C → ℕ) → weight_of_half w self.new + weight_of_taken w result ≡ weight_of_half w self.old }
    {
        let chunk = self.hand()?;
        self.count_gap(chunk.gap());
        let kept = mem::replace(&mut self.kept, Kept::none(alloc));
        Some((kept, chunk))
    }

    /// Whether a chunk is handed over.
    pub(crate) fn look(&mut self) -> bool
        ensures hands { (d : Direction) (pieces : List Piece) → Hands (charge_by C.amount C.stamp) self.old d pieces
            → Hands (charge_by C.amount C.stamp) self.new d pieces × (result ≡ not (is_empty pieces)) }
        ensures same { self.new ≡ record self.old { dir = self.new.dir; first = self.new.first } }
        ensures kind { dir_kind self.new.dir ≡ dir_kind self.old.dir }
        ensures last { self.new.dir.last ≡ self.old.dir.last }
        ensures left { Gives 0 self.old self.new }
        ensures weight { (w : C → ℕ) → weight_of_half w self.new ≡ weight_of_half w self.old }
    {
        if self.first.is_some() {
            return true;
        }
        self.first = direction::take_closed(&mut self.dir);
        self.first.is_some()
    }

    /// What is kept and doesn't go with a chunk that is handed over.
    pub(crate) fn unshown(&mut self, alloc: Global) -> Kept<C>
        ensures hands { (d : Direction) (pieces : List Piece) → Hands (charge_by C.amount C.stamp) self.old d pieces
            → Hands (charge_by C.amount C.stamp) self.new d pieces × (result ≡ cond (is_empty pieces) self.old.kept []) × (self.new.kept ≡ cond (is_empty pieces) [] self.old.kept) }
        ensures sums { IsUncounted self.old self.new }
        ensures own { self.new.own ≡ self.old.own }
        ensures kind { dir_kind self.new.dir ≡ dir_kind self.old.dir }
        ensures last { self.new.dir.last ≡ self.old.dir.last }
        ensures left { Gives 0 self.old self.new }
        ensures weight { (w : C → ℕ) → weight_of_half w self.new + weight_of_chunks w result ≡ weight_of_half w self.old }
    {
        if self.look() {
            return Kept::none(alloc);
        }
        mem::replace(&mut self.kept, Kept::none(alloc))
    }
}
