// One direction's calls, as its conversation makes them: what it stands for by the amounts and stamps of its charges.
ghost use Rattle.std.specs.Prelude.{◌≡◌, ℕ, suc, ◌+◌, ◌*◌, true, false, ◌<◌, ◌≤◌, ◌^◌, [], ◌∷◌, List, length, Option, Some, None, IsNone, IfOk, IfSome, OnOk, OnErr};
ghost use Rattle.histbook.specs.declared.look_entry.LookEntry.{LookEntry};
ghost use Rattle.streamdefs.specs.Terms.{Terms};
ghost use Rattle.streamdefs.specs.Reorder.{Charge as ChargeMade};
ghost use Rattle.streamdefs.specs.View.{Ask as Request};
ghost use Rattle.streamdefs.specs.Pending.{Piece};
ghost use Rattle.streamdefs.specs.Direction.{Direction, Deed, untouched, next_by, with_one_look, dues_in};
ghost use Rattle.streamdefs.specs.Direction.Deed.{Arrives, Falls_due, Ends};
ghost use Rattle.streamdefs.specs.Direction.Next.{Asks, Gives};
ghost use Rattle.flowdir.specs.Boundary.{AsksSome, HasShape, IsFirst, IsLookOf, IsStep, IsTimely, charge_by, asked_by, kind_of, least_of, number_of, segment_of, weight_of, weight_of_chunk, weight_of_step};
ghost use Rattle.flowdir.specs.Boundary.Phase.{Rests, Works};
ghost use Rattle.convo.specs.Directions.{DirAdds, DirFalls, DirLowers, DirStands, IsAskedBehind, IsBehind, dir_asked, dir_due, dir_grants, dir_kind, dir_weight, dir_work};
ghost use Rattle.convo.specs.Settled.{IsSettled};
ghost use Rattle.flowdir.specs.Left.{count_of};

use chunkpart::Chunk;
use flowdir::{Counts, Dir, DirMode, Memory, Seg, Step};
use overpolicy::Shape;
use prio_budget::Charge;
use seqspace::Seq;
use std::alloc::Global;

/// The counts of an entry without bytes.
const NO_BYTES: Counts = Counts {
    duplicate: 0,
    late: 0,
    cut: 0,
    taken: 0,
    shed: 0,
};

/// The latest moment of a capture, and the longest time of the settings.
const LATEST: u64 = 1 << 62;

/// Before any segment.
#[tactic(auto, unfolding(crate::specs::Directions::dir_weight, crate::specs::Directions::dir_grants, crate::specs::Directions::dir_work))]
pub(crate) fn new<C: Charge>(alloc: Global, mode: DirMode) -> Dir<C>
    ensures stands { DirStands (charge_by C.amount C.stamp) result untouched Rests [] }
    ensures kind { dir_kind result ≡ kind_of mode }
    ensures asked { dir_asked result ≡ None }
    ensures last { result.last ≡ 0 }
    ensures grants { dir_grants result ≡ 0 }
    ensures work { dir_work result ≡ 0 }
    ensures weight { (w : C → ℕ) → dir_weight w result ≡ 0 }
{
    Dir::new(alloc, mode)
}

/// A segment comes, with the cutoff in force.
#[tactic(auto, unfolding(crate::specs::Directions::dir_weight, crate::specs::Directions::dir_grants, crate::specs::Directions::dir_work))]
pub(crate) fn begin<C: Charge>(
    dir: &mut Dir<C>,
    alloc: Global,
    shape: &Shape,
    seg: &Seg<'_>,
    cutoff: Option<u64>,
) -> Result<Step<C>, Memory>
    requires number { (dir.old.last < seg.now.number) × (seg.now.number ≤ 2 ^ 22) }
    requires now { seg.now.now ≤ 2 ^ 62 }
    requires few { length seg.now.payload.now ≤ 262144 }
    ensures step { IfOk result (λ step. (t : Terms) (d : Direction) (pieces : List Piece) → HasShape shape.now t → DirStands (charge_by C.amount C.stamp) dir.old d Rests pieces
        → IsStep (charge_by C.amount C.stamp) (DirStands (charge_by C.amount C.stamp) dir.new) t (dir_kind dir.old) d (Arrives (segment_of seg.entry.now cutoff) []) 0 pieces step) }
    ensures asked { IfOk result (λ step. dir_asked dir.new ≡ asked_by step) }
    ensures some { IfOk result AsksSome }
    ensures left { IfOk result (λ step. DirAdds (2 * length seg.entry.now.payload.now) (14 * length seg.entry.now.payload.now + 3) dir.old dir.new) }
    ensures kind { dir_kind dir.new ≡ dir_kind dir.old }
    ensures last { OnOk result (dir.new.last ≡ seg.entry.now.number) }
    ensures weight { IfOk result (λ step. (w : C → ℕ) → dir_weight w dir.new + weight_of_step w step ≡ dir_weight w dir.old) }
    ensures err { OnErr result ((w : C → ℕ) → dir_weight w dir.new ≡ dir_weight w dir.old) }
{
    dir.begin(alloc, shape, seg, cutoff)
}

/// The ask is answered: granted by a charge, or refused.
#[tactic(auto, unfolding(crate::specs::Directions::dir_weight, crate::specs::Directions::dir_grants, crate::specs::Directions::dir_work))]
pub(crate) fn told<C: Charge>(
    dir: &mut Dir<C>,
    alloc: Global,
    shape: &Shape,
    granted: Option<C>,
) -> Result<Step<C>, Memory>
    requires granted { IfSome granted (λ charge. dir_asked dir.old ≡ Some (C.amount charge)) }
    ensures step { IfOk result (λ step. (t : Terms) (d : Direction) (deed : Deed) (given : ℕ) (pieces : List Piece) (look : LookEntry) (request : Request) → HasShape shape.now t
        → DirStands (charge_by C.amount C.stamp) dir.old d (Works t deed given) pieces → next_by t (dir_kind dir.old) d deed given ≡ Asks request → IsLookOf (charge_by C.amount C.stamp) granted look
        → IsStep (charge_by C.amount C.stamp) (DirStands (charge_by C.amount C.stamp) dir.new) t (dir_kind dir.old) d (with_one_look look deed) given pieces step) }
    ensures asked { IfOk result (λ step. dir_asked dir.new ≡ asked_by step) }
    ensures some { IfOk result AsksSome }
    ensures left { IfOk result (λ step. DirLowers granted dir.old dir.new) }
    ensures kind { dir_kind dir.new ≡ dir_kind dir.old }
    ensures last { dir.new.last ≡ dir.old.last }
    ensures weight { IfOk result (λ step. (w : C → ℕ) → dir_weight w dir.new + weight_of_step w step ≡ dir_weight w dir.old + weight_of w granted) }
    ensures err { OnErr result ((w : C → ℕ) → dir_weight w dir.new ≡ dir_weight w dir.old + weight_of w granted) }
{
    dir.told(alloc, shape, granted)
}

/// The charge was given back.
#[tactic(auto, unfolding(crate::specs::Directions::dir_weight, crate::specs::Directions::dir_grants, crate::specs::Directions::dir_work))]
pub(crate) fn freed<C: Charge>(dir: &mut Dir<C>) -> Result<Step<C>, Memory>
    ensures step { IfOk result (λ step. (t : Terms) (d : Direction) (deed : Deed) (given : ℕ) (pieces : List Piece) (charge : ChargeMade)
        → DirStands (charge_by C.amount C.stamp) dir.old d (Works t deed given) pieces → next_by t (dir_kind dir.old) d deed given ≡ Gives charge
        → IsStep (charge_by C.amount C.stamp) (DirStands (charge_by C.amount C.stamp) dir.new) t (dir_kind dir.old) d deed (suc given) pieces step) }
    ensures asked { IfOk result (λ step. dir_asked dir.new ≡ asked_by step) }
    ensures some { IfOk result AsksSome }
    ensures left { IfOk result (λ step. DirLowers {C = C} None dir.old dir.new) }
    ensures kind { dir_kind dir.new ≡ dir_kind dir.old }
    ensures last { dir.new.last ≡ dir.old.last }
    ensures weight { IfOk result (λ step. (w : C → ℕ) → dir_weight w dir.new + weight_of_step w step ≡ dir_weight w dir.old) }
    ensures err { OnErr result ((w : C → ℕ) → dir_weight w dir.new ≡ dir_weight w dir.old) }
{
    dir.freed()
}

/// What falls due at a moment is passed. Where nothing does, nothing is done; where something fell due before, it is
/// answered with want of memory, since that comes first.
pub(crate) fn time<C: Charge>(
    dir: &mut Dir<C>,
    alloc: Global,
    shape: &Shape,
    at: u64,
) -> Result<Step<C>, Memory>
    requires at { at ≤ 2 ^ 62 }
    ensures step { IfOk result (λ step. (t : Terms) (d : Direction) → HasShape shape.now t → IsSettled t d → DirStands (charge_by C.amount C.stamp) dir.old d Rests []
        → IsStep (charge_by C.amount C.stamp) (DirStands (charge_by C.amount C.stamp) dir.new) t (dir_kind dir.old) d (Falls_due at []) 0 [] step) }
    ensures asked { IfOk result (IsAskedBehind dir.new) }
    ensures some { IfOk result AsksSome }
    ensures left { IfOk result (DirFalls shape.now.hole shape.now.flush at dir.old dir.new) }
    ensures kind { dir_kind dir.new ≡ dir_kind dir.old }
    ensures last { dir.new.last ≡ dir.old.last }
    ensures weight { IfOk result (λ step. (w : C → ℕ) → dir_weight w dir.new + weight_of_step w step ≡ dir_weight w dir.old) }
    ensures err { OnErr result ((w : C → ℕ) → dir_weight w dir.new ≡ dir_weight w dir.old) }
{
    if is_due(dir, shape, at)? {
        fall_due(dir, alloc, shape, at)
    } else {
        Ok(Step::Done(NO_BYTES))
    }
}

/// What is due at a moment is passed.
#[tactic(auto, unfolding(crate::specs::Directions::dir_weight, crate::specs::Directions::dir_grants, crate::specs::Directions::dir_work, crate::specs::Directions::dir_due))]
fn fall_due<C: Charge>(
    dir: &mut Dir<C>,
    alloc: Global,
    shape: &Shape,
    at: u64,
) -> Result<Step<C>, Memory>
    requires at { at ≤ 2 ^ 62 }
    requires due { dir_due shape.now.hole shape.now.flush dir.old ≡ Some at }
    ensures step { IfOk result (λ step. (t : Terms) (d : Direction) (pieces : List Piece) → HasShape shape.now t → DirStands (charge_by C.amount C.stamp) dir.old d Rests pieces
        → IsStep (charge_by C.amount C.stamp) (DirStands (charge_by C.amount C.stamp) dir.new) t (dir_kind dir.old) d (Falls_due at []) 0 pieces step) }
    ensures asked { IfOk result (λ step. dir_asked dir.new ≡ asked_by step) }
    ensures some { IfOk result AsksSome }
    ensures left { IfOk result (λ step. DirLowers {C = C} None dir.old dir.new) }
    ensures kind { dir_kind dir.new ≡ dir_kind dir.old }
    ensures last { dir.new.last ≡ dir.old.last }
    ensures weight { IfOk result (λ step. (w : C → ℕ) → dir_weight w dir.new + weight_of_step w step ≡ dir_weight w dir.old) }
    ensures err { OnErr result ((w : C → ℕ) → dir_weight w dir.new ≡ dir_weight w dir.old) }
{
    dir.time(alloc, shape, at)
}

/// Whether something is due at a moment, and nothing before. Answered with want of memory where something fell due
/// before, or where a time of the settings can't be added to a moment.
fn is_due<C: Charge>(dir: &Dir<C>, shape: &Shape, at: u64) -> Result<bool, Memory>
    ensures yes { IfOk result (λ b. b ≡ true → dir_due shape.now.hole shape.now.flush dir.now ≡ Some at) }
    ensures no { IfOk result (λ b. b ≡ false → IsBehind at (dir_due shape.now.hole shape.now.flush dir.now)) }
    ensures stands { IfOk result (λ b. (t : Terms) (d : Direction) (pieces : List Piece) → HasShape shape.now t → DirStands (charge_by C.amount C.stamp) dir.now d Rests pieces
        → dir_due shape.now.hole shape.now.flush dir.now ≡ least_of (dues_in t d)) }
{
    if !is_timely(shape) {
        return Err(Memory);
    }
    match due(dir, shape) {
        Some(first) if first < at => Err(Memory),
        Some(first) => Ok(first == at),
        None => Ok(false),
    }
}

/// The conversation ends.
#[tactic(auto, unfolding(crate::specs::Directions::dir_weight, crate::specs::Directions::dir_grants, crate::specs::Directions::dir_work))]
pub(crate) fn end<C: Charge>(dir: &mut Dir<C>, alloc: Global, at: u64) -> Result<Step<C>, Memory>
    requires at { at ≤ 2 ^ 62 }
    ensures step { IfOk result (λ step. (t : Terms) (d : Direction) (pieces : List Piece) → DirStands (charge_by C.amount C.stamp) dir.old d Rests pieces
        → IsStep (charge_by C.amount C.stamp) (DirStands (charge_by C.amount C.stamp) dir.new) t (dir_kind dir.old) d (Ends at) 0 pieces step) }
    ensures asked { IfOk result (λ step. dir_asked dir.new ≡ asked_by step) }
    ensures some { IfOk result AsksSome }
    ensures left { IfOk result (λ step. DirAdds 0 0 dir.old dir.new) }
    ensures kind { dir_kind dir.new ≡ dir_kind dir.old }
    ensures last { dir.new.last ≡ dir.old.last }
    ensures weight { IfOk result (λ step. (w : C → ℕ) → dir_weight w dir.new + weight_of_step w step ≡ dir_weight w dir.old) }
    ensures err { OnErr result ((w : C → ℕ) → dir_weight w dir.new ≡ dir_weight w dir.old) }
{
    dir.end(alloc, at)
}

/// The next delivery, where there is one. It takes no memory, and comes while nothing is under way.
#[tactic(auto, unfolding(crate::specs::Directions::dir_weight, crate::specs::Directions::dir_grants, crate::specs::Directions::dir_work))]
pub(crate) fn take_closed<C: Charge>(dir: &mut Dir<C>) -> Option<Chunk<C>>
    ensures first { (d : Direction) (pieces : List Piece) → DirStands (charge_by C.amount C.stamp) dir.old d Rests pieces → IsFirst (charge_by C.amount C.stamp) (DirStands (charge_by C.amount C.stamp) dir.new d Rests) pieces result }
    ensures grants { dir_grants dir.new ≡ dir_grants dir.old }
    ensures work { dir_work dir.new + count_of result ≡ dir_work dir.old }
    ensures kept { (dir_kind dir.new ≡ dir_kind dir.old) × (dir_asked dir.new ≡ dir_asked dir.old) × (dir.new.last ≡ dir.old.last) }
    ensures weight { (w : C → ℕ) → dir_weight w dir.new + weight_of_chunk w result ≡ dir_weight w dir.old }
{
    dir.take_closed()
}

/// Whether the times of the settings can be added to a moment.
pub(crate) fn is_timely(shape: &Shape) -> bool
    ensures yes { result ≡ true → IsTimely shape.now }
    ensures no { result ≡ false → IsTimely shape.now → ⊥ }
{
    shape.hole <= LATEST && shape.flush <= LATEST
}

/// When a hole or a flush falls due.
#[tactic(auto, unfolding(crate::specs::Directions::dir_due))]
pub(crate) fn due<C: Charge>(dir: &Dir<C>, shape: &Shape) -> Option<u64>
    requires timely { IsTimely shape.now }
    ensures at { result ≡ dir_due shape.now.hole shape.now.flush dir.now }
    ensures stands { (t : Terms) (d : Direction) (pieces : List Piece) → HasShape shape.now t → DirStands (charge_by C.amount C.stamp) dir.now d Rests pieces → result ≡ least_of (dues_in t d) }
{
    dir.due(shape)
}

/// The position before which all was passed.
pub(crate) fn front<C: Charge>(dir: &Dir<C>) -> u64
    ensures { (d : Direction) (pieces : List Piece) → DirStands (charge_by C.amount C.stamp) dir.now d Rests pieces → result ≡ d.view.front }
{
    dir.front()
}

/// Where its first segment with FIN ends.
pub(crate) fn fin<C: Charge>(dir: &Dir<C>) -> Option<u64>
    ensures { (d : Direction) (pieces : List Piece) → DirStands (charge_by C.amount C.stamp) dir.now d Rests pieces → result ≡ d.fin }
{
    dir.fin()
}

/// The sequence number of the first byte of its first segment.
pub(crate) fn base<C: Charge>(dir: &Dir<C>) -> Option<Seq>
    ensures { (d : Direction) (pieces : List Piece) → DirStands (charge_by C.amount C.stamp) dir.now d Rests pieces → number_of result ≡ d.base }
{
    dir.base()
}

/// One of the charges that it has, none where none is left. It takes no memory, and may be called at any time.
#[tactic(auto, unfolding(crate::specs::Directions::dir_weight, crate::specs::Directions::dir_grants, crate::specs::Directions::dir_work))]
pub(crate) fn drain<C: Charge>(dir: &mut Dir<C>) -> Option<C>
    ensures weight { (w : C → ℕ) → dir_weight w dir.new + weight_of w result ≡ dir_weight w dir.old }
    ensures none { IsNone result → (w : C → ℕ) → dir_weight w dir.old ≡ 0 }
{
    dir.drain()
}
