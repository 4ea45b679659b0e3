// A packet opens a conversation.
ghost use Rattle.std.specs.Prelude.{◌≡◌, ℕ, [], ◌∷◌, ◌++◌, Some, None, cond, length, IfOk, OnOk};
ghost use Rattle.streamdefs.specs.Terms.{Terms};
ghost use Rattle.streamdefs.specs.Lawful.{Handler};
ghost use Rattle.streamdefs.specs.Packet.{same_key};
ghost use Rattle.streamdefs.specs.Convo.Act.{Seg as SegAct};
ghost use Rattle.streamkey.specs.declared.key.Key.{Key as KeyOf};
ghost use Rattle.coretable.specs.Course.{Course, begun};
ghost use Rattle.coretable.specs.Lawfully.{IsSound};
ghost use Rattle.flowdir.specs.Boundary.{charge_by};
ghost use Rattle.coretable.specs.Held.{StandsFor};
ghost use Rattle.convo.specs.Talk.{SetsUp};
ghost use Rattle.convo.specs.Seen.{packet_of};
ghost use Rattle.streamkey.specs.declared.packet.Packet.{Packet as PacketKept};
ghost use Rattle.coretable.specs.declared.job.Job.TheVariants as job;
ghost use Rattle.coretable.specs.Standing.{place_of, Keeps};
ghost use Rattle.coretable.specs.Steps.{IsStep, nothing};
ghost use Rattle.coretable.specs.Weighed.{size_of_slots};
ghost use Rattle.coretable.specs.Turns.{Settles};

use crate::beginning::active_of;
use crate::beginning_packet::take_packet;
use crate::settling::settle;
use crate::{Desk, EntryKind, Hand, Held, Memory, Slot, Stage, Turn};
use convo::ConvoSet;
use prio_budget::Charge;
use std::alloc::Global;
use streamkey::Key;

/// Adds a slot behind the others, without what is kept of its conversation. The first live one is looked for anew.
fn add_slot<T: Drop>(desk: &mut Desk<T>, number: u32, key: Key, clock: u64) -> Result<usize, Memory>
    ensures place { IfOk result (λ place. place ≡ length desk.old.slots.items) }
    ensures slots { OnOk result (desk.new.slots.items ≡ desk.old.slots.items ++ record { number = number; key = key; clock = clock; talk = None } ∷ []) }
    ensures size { (size : T → ℕ) → size_of_slots size desk.new.slots.items ≡ size_of_slots size desk.old.slots.items }
    ensures rest { desk.new ≡ record desk.old { slots = desk.new.slots; cursor = 0 } }
{
    desk.cursor = 0;
    let place = desk.slots.len();
    desk.slots.push(Slot {
        number,
        key,
        clock,
        talk: None,
    })?;
    Ok(place)
}

/// From now on a key's last conversation is that at a place.
fn index_at<T: Drop>(desk: &mut Desk<T>, key: Key, place: usize) -> Result<(), Memory>
    ensures index { OnOk result ((other : KeyOf) → place_of desk.new other ≡ cond (same_key key other) (Some place) (place_of desk.old other)) }
    ensures rest { desk.new ≡ record desk.old { index = desk.new.index } }
{
    desk.index.insert(key, place)?;
    Ok(())
}

/// Begins the entry of the packet that waits, which opens a conversation.
pub(crate) fn begin_new<C: Charge>(
    alloc: Global,
    set: &ConvoSet,
    desk: &mut Desk<Held<C>>,
) -> Result<(Stage<C, Held<C>>, Option<Turn<C>>), Hand<C>>
    ensures turn { (t : Terms) (last : ℕ) (handler : Handler) (m : Course) (p : PacketKept) → SetsUp set.now t → IsSound t last handler m → m.under ≡ None → Keeps (StandsFor (charge_by C.amount C.stamp) t) t m desk.old
        → desk.old.job ≡ job.Takes p → IsSound t last handler (begun m (record { conv = p.number; act = SegAct (packet_of p) p.now [] [] }))
        → IfOk result (λ r. Settles (charge_by C.amount C.stamp) (StandsFor (charge_by C.amount C.stamp) t) t (begun m (record { conv = p.number; act = SegAct (packet_of p) p.now [] [] })) desk.new r.0 r.1) }
    ensures step { IsStep (charge_by C.amount C.stamp) set.now.marks.limit desk.old desk.new nothing result }
{
    let Ok(packet) = take_packet(desk) else {
        return Err(Hand::empty());
    };
    let Ok(place) = add_slot(desk, packet.number, packet.key, packet.now) else {
        return Err(Hand::empty());
    };
    let Ok(()) = index_at(desk, packet.key, place) else {
        return Err(Hand::empty());
    };
    let mut talk = Held::new(alloc, set, &packet);
    match talk.take(set, &packet) {
        Ok(want) => {
            let kind = EntryKind::Seg {
                packet: packet.number,
                now: packet.now,
            };
            let active = active_of(alloc, place, packet.number, packet.now, kind, talk);
            settle(set, desk, active, want)
        }
        Err(_) => Err(Hand::of(talk)),
    }
}
