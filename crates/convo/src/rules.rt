ghost use Rattle.flowdir.specs.Boundary.{charge_by};
// What the settings and what is kept decide of a conversation: cutoffs, marks, and when it closes.
ghost use Rattle.convo.specs.Directions.{DirStands};
ghost use Rattle.std.specs.Prelude.{◌≡◌, ◌≤◌, ℕ, ◌∷◌, [], List, Option, Some, None, unwrap_or};
ghost use Rattle.prio_budget.specs.Marks.{mark_of};
ghost use Rattle.cutclass.specs.InForce.{first_set};
ghost use Rattle.cutclass.specs.declared.cut.Cut.{Cut};
ghost use Rattle.streamdefs.specs.Both.{of_way};
ghost use Rattle.streamdefs.specs.Pending.{Piece};
ghost use Rattle.streamdefs.specs.Direction.{Direction};
ghost use Rattle.flowdir.specs.Boundary.Phase.{Rests as DirRests};
ghost use Rattle.convo.specs.Standing.{HasOrigin, half_of, own_of, done_by, way_by, cutoff_by};

use crate::{Convo, ConvoSet, direction};
use cutclass::in_force;
use evring::Way;
use flowdir::Dir;
use prio_budget::Charge;
use streamkey::{Packet, Toward};

/// Whether a FIN came, and the front is at least at its position or at the cutoff in force.
pub(crate) fn is_half_done<C: Charge>(dir: &Dir<C>, cutoff: Option<u64>) -> bool
    ensures { (d : Direction) (pieces : List Piece) → DirStands (charge_by C.amount C.stamp) dir.now d DirRests pieces → result ≡ done_by d.fin d.view.front cutoff }
{
    let front = direction::front(dir);
    match direction::fin(dir) {
        None => false,
        Some(fin) => {
            fin <= front
                || match cutoff {
                    None => false,
                    Some(cutoff) => cutoff <= front,
                }
        }
    }
}

impl<C: Charge> Convo<C> {
    /// The direction of a packet.
    pub(crate) fn way_of(&self, packet: &Packet) -> Way
        ensures { result ≡ way_by self.now.origin.toward packet.entry.now.toward }
    {
        match (self.origin.toward, packet.toward) {
            (Toward::Up, Toward::Up) => Way::Fore,
            (Toward::Down, Toward::Down) => Way::Fore,
            _ => Way::Back,
        }
    }

    /// The cutoff in force in a direction.
    pub(crate) fn cutoff(&self, set: &ConvoSet, way: Way) -> Option<u64>
        ensures { result ≡ cutoff_by (of_way way (own_of self.now)) self.now.origin.cut set.now.cutoffs way }
    {
        match way {
            Way::Fore => in_force(
                self.fore.own,
                self.origin.cut,
                set.cutoffs.fore,
                set.cutoffs.default,
            ),
            Way::Back => in_force(
                self.back.own,
                self.origin.cut,
                set.cutoffs.back,
                set.cutoffs.default,
            ),
        }
    }

    /// The mark of the priority in force.
    pub(crate) fn mark(&self, set: &ConvoSet) -> u32
        ensures mark { result ≡ mark_of set.now.marks (unwrap_or self.now.advised self.now.origin.priority) }
        ensures within { result ≤ set.now.marks.limit }
    {
        set.marks.mark(self.advised.unwrap_or(self.origin.priority))
    }

    /// Whether a direction is done.
    pub(crate) fn is_done(&self, set: &ConvoSet, way: Way) -> bool
        ensures { (d : Direction) (pieces : List Piece) → DirStands (charge_by C.amount C.stamp) (half_of way self.now).dir d DirRests pieces
            → result ≡ done_by d.fin d.view.front (cutoff_by (of_way way (own_of self.now)) self.now.origin.cut set.now.cutoffs way) }
    {
        let cutoff = self.cutoff(set, way);
        match way {
            Way::Fore => is_half_done(&self.fore.dir, cutoff),
            Way::Back => is_half_done(&self.back.dir, cutoff),
        }
    }
}
