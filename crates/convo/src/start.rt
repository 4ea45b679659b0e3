// A conversation before its first entry.
ghost use Rattle.convo.specs.Directions.{DirStands, dir_grants, dir_kind, dir_asked};
ghost use Rattle.std.specs.Prelude.{◌≡◌, ℕ, [], option_map, Some, None};
ghost use Rattle.cutclass.specs.InForce.{first_class};
ghost use Rattle.streamdefs.specs.Terms.{Terms};
ghost use Rattle.streamdefs.specs.Direction.{no_counts, untouched};
ghost use Rattle.flowdir.specs.Boundary.Phase.{Rests};
ghost use Rattle.convo.specs.Left.{grants_left, work_left, work_of_half};
ghost use Rattle.convo.specs.Halves.{weight_of_half};
ghost use Rattle.streamdefs.specs.Convo.{new_convo, class_cutoff, class_priority, kind_of as made_kind};
ghost use Rattle.flowdir.specs.Boundary.{charge_by, kind_of};
ghost use Rattle.convo.specs.Seen.{packet_of};
ghost use Rattle.convo.specs.Going.{charges_going};
ghost use Rattle.convo.specs.Talk.{SetsUp, given_by, kept_counts, new_talk};
ghost use Rattle.convo.specs.Standing.{HasOrigin, IsResting, asked_of, last_of, weight_of_convo};

use crate::flags::is_tcp;
use crate::going::Going;
use crate::half::Half;
use crate::origin::Origin;
use crate::stage::Stage;
use crate::{Convo, ConvoSet, direction};
use cutclass::{Classes, Cut};
use evring::Kept;
use flowdir::{Counts, DirMode};
use overpolicy::Mode;
use prio_budget::Charge;
use std::alloc::Global;
use streamkey::{Key, Packet, Toward};

/// The priority and the cutoff of the first class whose filter holds.
fn class_of(classes: &Classes, key: &Key, toward: Toward) -> (u8, Cut)
    ensures priority { result.0 ≡ class_priority (option_map given_by (first_class classes.now key.now toward)) }
    ensures cut { result.1 ≡ class_cutoff (option_map given_by (first_class classes.now key.now toward)) }
{
    match classes.find(key, toward) {
        Some(rule) => (rule.priority, rule.cut),
        None => (0, Cut::Unset),
    }
}

/// How directions of a packet's conversation go on.
fn mode_of(set: &ConvoSet, first: &Packet) -> DirMode
    ensures { (t : Terms) → t.mode ≡ set.now.shape.mode → kind_of result ≡ made_kind t (new_convo (packet_of first.entry.now)) }
{
    match (is_tcp(first), set.shape.mode) {
        (false, _) => DirMode::Udp,
        (true, Mode::Strict) => DirMode::Strict,
        (true, Mode::Fast) => DirMode::Fast,
    }
}

/// The origin of a packet's conversation.
fn origin_of(set: &ConvoSet, first: &Packet) -> Origin
    ensures { (t : Terms) → SetsUp set.now t → HasOrigin t result (packet_of first.entry.now) }
{
    let key = first.key;
    let (priority, cut) = class_of(&set.cutoffs.classes, &key, first.toward);
    Origin {
        number: first.number,
        key,
        toward: first.toward,
        priority,
        cut,
    }
}

impl<C: Charge> Half<C> {
    /// Before any entry.
    fn new(alloc: Global, mode: DirMode) -> Self
        ensures stands { DirStands (charge_by C.amount C.stamp) result.dir untouched Rests [] }
        ensures kind { dir_kind result.dir ≡ kind_of mode }
        ensures asked { dir_asked result.dir ≡ None }
        ensures last { result.dir.last ≡ 0 }
        ensures bare { (result.own ≡ Cut.Unset) × (result.kept ≡ []) × (result.first ≡ None) }
        ensures sums { (result.counts ≡ kept_counts no_counts) × (result.gaps ≡ 0) × (result.gap_bytes ≡ 0) }
        ensures grants { dir_grants result.dir ≡ 0 }
        ensures work { work_of_half result ≡ 0 }
        ensures weight { (w : C → ℕ) → weight_of_half w result ≡ 0 }
    {
        Half {
            dir: direction::new(alloc, mode),
            own: Cut::Unset,
            kept: Kept::none(alloc),
            first: None,
            counts: Counts {
                duplicate: 0,
                late: 0,
                cut: 0,
                taken: 0,
                shed: 0,
            },
            gaps: 0,
            gap_bytes: 0,
        }
    }
}

impl<C: Charge> Convo<C> {
    /// Before its first entry, which is the first packet's.
    pub fn new(alloc: Global, set: &ConvoSet, first: &Packet) -> Self
        ensures stands { (t : Terms) → SetsUp set.now t → IsResting (charge_by C.amount C.stamp) t result (new_talk (packet_of first.entry.now)) }
        ensures asked { asked_of result ≡ None }
        ensures idle { charges_going result.going ≡ [] }
        ensures last { last_of result ≡ 0 }
        ensures grants { grants_left result ≡ 0 }
        ensures work { work_left result ≡ 0 }
        ensures weight { (w : C → ℕ) → weight_of_convo w result ≡ 0 }
    {
        let mode = mode_of(set, first);
        Convo {
            alloc,
            origin: origin_of(set, first),
            fore: Half::new(alloc, mode),
            back: Half::new(alloc, mode),
            advised: None,
            clock: first.now,
            ended: None,
            owed: None,
            begun: false,
            opens: false,
            over: None,
            going: Going::none(alloc),
            stage: Stage::Resting,
        }
    }
}
