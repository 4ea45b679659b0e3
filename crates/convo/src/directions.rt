// One direction of a conversation at work.
ghost use Rattle.convo.specs.Directions.{DirFalls, DirStands, IsAskedBehind, dir_kind, dir_asked, dir_weight};
ghost use Rattle.std.specs.Prelude.{◌≡◌, ⊤, ℕ, suc, ◌+◌, ◌*◌, ◌<◌, ◌≤◌, ◌^◌, [], ◌∷◌, List, length, Option, Some, None, IfOk, IfSome, OnOk, OnErr};
ghost use Rattle.histbook.specs.declared.look_entry.LookEntry.{LookEntry};
ghost use Rattle.streamdefs.specs.Terms.{Terms};
ghost use Rattle.streamdefs.specs.Reorder.{Charge as ChargeMade};
ghost use Rattle.streamdefs.specs.View.{Ask as Request};
ghost use Rattle.streamdefs.specs.Pending.{Piece};
ghost use Rattle.streamdefs.specs.Direction.{Direction, Deed, next_by, with_one_look};
ghost use Rattle.streamdefs.specs.Direction.Deed.{Arrives, Falls_due, Ends};
ghost use Rattle.streamdefs.specs.Direction.Next.{Asks, Gives};
ghost use Rattle.flowdir.specs.Boundary.{AsksSome, HasShape, IsStep, IsLookOf, IsTimely, charge_by, asked_by, weight_of, weight_of_step};
ghost use Rattle.flowdir.specs.Boundary.Phase.{Rests as DirRests, Works};
ghost use Rattle.convo.specs.Left.{Adds, Lowers};
ghost use Rattle.convo.specs.Seen.{packet_of};
ghost use Rattle.convo.specs.Settled.{IsSettled};
ghost use Rattle.convo.specs.Standing.{arrival, half_of, with_dir, weight_of_convo};

use crate::flags::{has_fin, has_rst, has_syn};
use crate::{Convo, ConvoSet, direction};
use evring::Way;
use flowdir::{Memory, Seg, Step};
use prio_budget::Charge;
use seqspace::Seq;
use streamkey::Packet;

impl<C: Charge> Convo<C> {
    /// A packet comes to its direction.
    pub(crate) fn begin_way(
        &mut self,
        set: &ConvoSet,
        way: Way,
        packet: &Packet,
    ) -> Result<Step<C>, Memory>
        requires number { (half_of way self.old).dir.last < packet.now.number }
        ensures step { IfOk result (λ step. (t : Terms) (d : Direction) (pieces : List Piece) → HasShape set.now.shape t → DirStands (charge_by C.amount C.stamp) (half_of way self.old).dir d DirRests pieces
            → IsStep (charge_by C.amount C.stamp) (DirStands (charge_by C.amount C.stamp) (half_of way self.new).dir) t (dir_kind (half_of way self.old).dir) d (Arrives (arrival self.old set.now way (packet_of packet.entry.now)) []) 0 pieces step) }
        ensures same { self.new ≡ with_dir way (half_of way self.new).dir self.old }
        ensures asked { IfOk result (λ step. dir_asked (half_of way self.new).dir ≡ asked_by step) }
        ensures some { IfOk result AsksSome }
        ensures left { IfOk result (λ step. Adds (2 * length packet.entry.now.payload) (112 * length packet.entry.now.payload + 24) self.old self.new) }
        ensures kind { dir_kind (half_of way self.new).dir ≡ dir_kind (half_of way self.old).dir }
        ensures last { OnOk result ((half_of way self.new).dir.last ≡ packet.entry.now.number) }
        ensures weight { IfOk result (λ step. (w : C → ℕ) → dir_weight w (half_of way self.new).dir + weight_of_step w step ≡ dir_weight w (half_of way self.old).dir) }
        ensures err { OnErr result ((w : C → ℕ) → dir_weight w (half_of way self.new).dir ≡ dir_weight w (half_of way self.old).dir) }
    {
        let cutoff = self.cutoff(set, way);
        let live = self.ended.is_none() && !has_rst(packet);
        let seg = Seg {
            number: packet.number,
            now: packet.now,
            seq: Seq(packet.seq),
            syn: has_syn(packet),
            fin: has_fin(packet),
            live,
            declared: packet.declared,
            payload: packet.payload.as_slice(),
        };
        match way {
            Way::Fore => direction::begin(&mut self.fore.dir, self.alloc, &set.shape, &seg, cutoff),
            Way::Back => direction::begin(&mut self.back.dir, self.alloc, &set.shape, &seg, cutoff),
        }
    }

    /// The ask of a direction is answered.
    pub(crate) fn told_way(
        &mut self,
        set: &ConvoSet,
        way: Way,
        granted: Option<C>,
    ) -> Result<Step<C>, Memory>
        requires granted { IfSome granted (λ charge. dir_asked (half_of way self.old).dir ≡ Some (C.amount charge)) }
        ensures step { IfOk result (λ step. (t : Terms) (d : Direction) (deed : Deed) (given : ℕ) (pieces : List Piece) (look : LookEntry) (request : Request) → HasShape set.now.shape t
            → DirStands (charge_by C.amount C.stamp) (half_of way self.old).dir d (Works t deed given) pieces → next_by t (dir_kind (half_of way self.old).dir) d deed given ≡ Asks request → IsLookOf (charge_by C.amount C.stamp) granted look
            → IsStep (charge_by C.amount C.stamp) (DirStands (charge_by C.amount C.stamp) (half_of way self.new).dir) t (dir_kind (half_of way self.old).dir) d (with_one_look look deed) given pieces step) }
        ensures same { self.new ≡ with_dir way (half_of way self.new).dir self.old }
        ensures asked { IfOk result (λ step. dir_asked (half_of way self.new).dir ≡ asked_by step) }
        ensures some { IfOk result AsksSome }
        ensures left { IfOk result (λ step. Lowers granted self.old self.new) }
        ensures kind { dir_kind (half_of way self.new).dir ≡ dir_kind (half_of way self.old).dir }
        ensures last { (half_of way self.new).dir.last ≡ (half_of way self.old).dir.last }
        ensures weight { IfOk result (λ step. (w : C → ℕ) → dir_weight w (half_of way self.new).dir + weight_of_step w step ≡ dir_weight w (half_of way self.old).dir + weight_of w granted) }
        ensures err { OnErr result ((w : C → ℕ) → dir_weight w (half_of way self.new).dir ≡ dir_weight w (half_of way self.old).dir + weight_of w granted) }
    {
        match way {
            Way::Fore => direction::told(&mut self.fore.dir, self.alloc, &set.shape, granted),
            Way::Back => direction::told(&mut self.back.dir, self.alloc, &set.shape, granted),
        }
    }

    /// A direction's charge was given back.
    pub(crate) fn freed_way(&mut self, way: Way) -> Result<Step<C>, Memory>
        ensures step { IfOk result (λ step. (t : Terms) (d : Direction) (deed : Deed) (given : ℕ) (pieces : List Piece) (charge : ChargeMade) → DirStands (charge_by C.amount C.stamp) (half_of way self.old).dir d (Works t deed given) pieces → next_by t (dir_kind (half_of way self.old).dir) d deed given ≡ Gives charge
            → IsStep (charge_by C.amount C.stamp) (DirStands (charge_by C.amount C.stamp) (half_of way self.new).dir) t (dir_kind (half_of way self.old).dir) d deed (suc given) pieces step) }
        ensures same { self.new ≡ with_dir way (half_of way self.new).dir self.old }
        ensures asked { IfOk result (λ step. dir_asked (half_of way self.new).dir ≡ asked_by step) }
        ensures some { IfOk result AsksSome }
        ensures left { IfOk result (λ step. Lowers {C = C} None self.old self.new) }
        ensures kind { dir_kind (half_of way self.new).dir ≡ dir_kind (half_of way self.old).dir }
        ensures last { (half_of way self.new).dir.last ≡ (half_of way self.old).dir.last }
        ensures weight { IfOk result (λ step. (w : C → ℕ) → dir_weight w (half_of way self.new).dir + weight_of_step w step ≡ dir_weight w (half_of way self.old).dir) }
        ensures err { OnErr result ((w : C → ℕ) → dir_weight w (half_of way self.new).dir ≡ dir_weight w (half_of way self.old).dir) }
    {
        match way {
            Way::Fore => direction::freed(&mut self.fore.dir),
            Way::Back => direction::freed(&mut self.back.dir),
        }
    }

    /// A moment is due in a direction.
    pub(crate) fn time_way(&mut self, set: &ConvoSet, way: Way, at: u64) -> Result<Step<C>, Memory>
        requires at { at ≤ 2 ^ 62 }
        ensures step { IfOk result (λ step. (t : Terms) (d : Direction) → HasShape set.now.shape t → IsSettled t d → DirStands (charge_by C.amount C.stamp) (half_of way self.old).dir d DirRests []
            → IsStep (charge_by C.amount C.stamp) (DirStands (charge_by C.amount C.stamp) (half_of way self.new).dir) t (dir_kind (half_of way self.old).dir) d (Falls_due at []) 0 [] step) }
        ensures same { self.new ≡ with_dir way (half_of way self.new).dir self.old }
        ensures asked { IfOk result (IsAskedBehind (half_of way self.new).dir) }
        ensures some { IfOk result AsksSome }
        ensures left { IfOk result (DirFalls set.now.shape.hole set.now.shape.flush at (half_of way self.old).dir (half_of way self.new).dir) }
        ensures kind { dir_kind (half_of way self.new).dir ≡ dir_kind (half_of way self.old).dir }
        ensures last { (half_of way self.new).dir.last ≡ (half_of way self.old).dir.last }
        ensures weight { IfOk result (λ step. (w : C → ℕ) → dir_weight w (half_of way self.new).dir + weight_of_step w step ≡ dir_weight w (half_of way self.old).dir) }
        ensures err { OnErr result ((w : C → ℕ) → dir_weight w (half_of way self.new).dir ≡ dir_weight w (half_of way self.old).dir) }
    {
        match way {
            Way::Fore => direction::time(&mut self.fore.dir, self.alloc, &set.shape, at),
            Way::Back => direction::time(&mut self.back.dir, self.alloc, &set.shape, at),
        }
    }

    /// A direction ends.
    pub(crate) fn end_way(&mut self, way: Way, at: u64) -> Result<Step<C>, Memory>
        requires at { at ≤ 2 ^ 62 }
        ensures step { IfOk result (λ step. (t : Terms) (d : Direction) (pieces : List Piece) → DirStands (charge_by C.amount C.stamp) (half_of way self.old).dir d DirRests pieces
            → IsStep (charge_by C.amount C.stamp) (DirStands (charge_by C.amount C.stamp) (half_of way self.new).dir) t (dir_kind (half_of way self.old).dir) d (Ends at) 0 pieces step) }
        ensures same { self.new ≡ with_dir way (half_of way self.new).dir self.old }
        ensures asked { IfOk result (λ step. dir_asked (half_of way self.new).dir ≡ asked_by step) }
        ensures some { IfOk result AsksSome }
        ensures left { IfOk result (λ step. Adds 0 0 self.old self.new) }
        ensures kind { dir_kind (half_of way self.new).dir ≡ dir_kind (half_of way self.old).dir }
        ensures last { (half_of way self.new).dir.last ≡ (half_of way self.old).dir.last }
        ensures weight { IfOk result (λ step. (w : C → ℕ) → dir_weight w (half_of way self.new).dir + weight_of_step w step ≡ dir_weight w (half_of way self.old).dir) }
        ensures err { OnErr result ((w : C → ℕ) → dir_weight w (half_of way self.new).dir ≡ dir_weight w (half_of way self.old).dir) }
    {
        match way {
            Way::Fore => direction::end(&mut self.fore.dir, self.alloc, at),
            Way::Back => direction::end(&mut self.back.dir, self.alloc, at),
        }
    }
}
