// What can be asked of a conversation that rests.
ghost use Rattle.std.specs.Prelude.{◌≡◌, ℕ, false, IfSome, ◌+◌, ◌≤◌, ◌^◌, [], List, not, Option, Some, None};
ghost use Rattle.streamdefs.specs.Terms.{Terms};
ghost use Rattle.streamdefs.specs.Both.{of_way};
ghost use Rattle.streamdefs.specs.Convo.{has_other_base, is_live, time_dues};
ghost use Rattle.flowdir.specs.Boundary.{charge_by, least_of, number_of};
ghost use Rattle.convo.specs.Left.{due_at};
ghost use Rattle.convo.specs.Seen.{packet_of};
ghost use Rattle.convo.specs.Talk.{IsTotal, Talk, SetsUp, due_of, sooner_of};
ghost use Rattle.convo.specs.Standing.{IsResting, least_by};

use crate::flags::has_syn;
use crate::half::Half;
use crate::{Convo, ConvoSet, DirTotal, direction};
use evring::{Reason, Way};
use prio_budget::Charge;
use seqspace::{Seq, after};
use streamkey::Packet;

/// The lesser of two moments.
fn lesser(a: Option<u64>, b: Option<u64>) -> Option<u64>
    ensures { result ≡ least_by a b }
{
    match (a, b) {
        (Some(a), Some(b)) => Some(if a <= b { a } else { b }),
        (Some(a), None) => Some(a),
        (None, b) => b,
    }
}

/// The sooner of a moment that is due, if there is one, and that of the idle time.
fn sooner(time: Option<u64>, idle: u64) -> (u64, bool)
    ensures { Some result ≡ sooner_of time (Some idle) }
{
    match time {
        Some(time) => {
            if time <= idle {
                (time, false)
            } else {
                (idle, true)
            }
        }
        None => (idle, true),
    }
}

/// The totals of a direction, by what is kept of it.
fn total_of<C: Charge>(half: &Half<C>, conv: u32, way: Way) -> DirTotal
    ensures { result ≡ record { conv = conv; way = way; counts = half.now.counts; gaps = half.now.gaps; gap_bytes = half.now.gap_bytes } }
{
    DirTotal {
        conv,
        way,
        counts: half.counts,
        gaps: half.gaps,
        gap_bytes: half.gap_bytes,
    }
}

impl<C: Charge> Convo<C> {
    /// When it falls due, and whether for its End of `idle`.
    pub fn due(&self, set: &ConvoSet) -> Option<(u64, bool)>
        ensures stands { (t : Terms) (k : Talk) → SetsUp set.now t → IsResting (charge_by C.amount C.stamp) t self.now k → result ≡ due_of t k.convo }
        ensures at { (at : ℕ) → result ≡ Some (at, false) → due_at set.now.shape.hole set.now.shape.flush self.now ≡ Some at }
    {
        match self.ended {
            Some(_) => None,
            None => {
                let time = self.time_due(set);
                Some(sooner(time, self.clock.saturating_add(set.shape.idle)))
            }
        }
    }

    /// The End that its last entry made due.
    pub fn ending(&self) -> Option<(Reason, u64)>
        ensures { (t : Terms) (k : Talk) → IsResting (charge_by C.amount C.stamp) t self.now k → result ≡ k.owed }
    {
        self.owed
    }

    pub fn is_ended(&self) -> bool
        ensures { (t : Terms) (k : Talk) → IsResting (charge_by C.amount C.stamp) t self.now k → result ≡ not (is_live k.convo) }
    {
        self.ended.is_some()
    }

    /// When a hole or a flush falls due. None where a time of the settings can't be added to a moment.
    pub fn time_due(&self, set: &ConvoSet) -> Option<u64>
        ensures stands { (t : Terms) (k : Talk) → SetsUp set.now t → IsResting (charge_by C.amount C.stamp) t self.now k → result ≡ least_of (time_dues t k.convo) }
        ensures at { IfSome result (λ at. due_at set.now.shape.hole set.now.shape.flush self.now ≡ Some at) }
    {
        match self.ended {
            Some(_) => None,
            None => {
                if !direction::is_timely(&set.shape) {
                    return None;
                }
                let fore = direction::due(&self.fore.dir, &set.shape);
                let back = direction::due(&self.back.dir, &set.shape);
                lesser(fore, back)
            }
        }
    }

    /// What became of the bytes of a direction so far, and the gaps before the deliveries made so far. A count stands
    /// still at its type's end.
    pub fn total(&self, way: Way) -> DirTotal
        ensures { (t : Terms) (k : Talk) → IsResting (charge_by C.amount C.stamp) t self.now k → IsTotal k.convo.first way (of_way way k.sums) result }
    {
        match way {
            Way::Fore => total_of(&self.fore, self.origin.number, way),
            Way::Back => total_of(&self.back, self.origin.number, way),
        }
    }

    /// The base of a packet's direction.
    fn base_of(&self, way: Way) -> Option<Seq>
        ensures { (t : Terms) (k : Talk) → IsResting (charge_by C.amount C.stamp) t self.now k → number_of result ≡ (of_way way k.convo.directions).base }
    {
        match way {
            Way::Fore => direction::base(&self.fore.dir),
            Way::Back => direction::base(&self.back.dir),
        }
    }

    /// Whether a packet belongs to a new conversation, since it has SYN and another base.
    pub fn replaces(&self, packet: &Packet) -> bool
        ensures { (t : Terms) (k : Talk) → IsResting (charge_by C.amount C.stamp) t self.now k → result ≡ has_other_base k.convo (packet_of packet.entry.now) }
    {
        if !has_syn(packet) {
            return false;
        }
        match self.base_of(self.way_of(packet)) {
            None => false,
            Some(base) => base.0 != after(Seq(packet.seq), 1).0,
        }
    }
}
