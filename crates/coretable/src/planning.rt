// The entry that comes next for the packet that waits.
ghost use Rattle.std.specs.Prelude.{◌≡◌, ℕ, None, Some, slice_get, IfOk, IfSome};
ghost use Rattle.streamdefs.specs.Terms.{Terms};
ghost use Rattle.streamdefs.specs.Lawful.{Handler};
ghost use Rattle.coretable.specs.Course.{Course, core_of, packet_line};
ghost use Rattle.coretable.specs.Lawfully.{IsSound};
ghost use Rattle.flowdir.specs.Boundary.{charge_by};
ghost use Rattle.convo.specs.Seen.{packet_of};
ghost use Rattle.coretable.specs.Held.{StandsFor};
ghost use Rattle.convo.specs.Talk.{SetsUp};
ghost use Rattle.convo.specs.Talk.Phase.{Still};
ghost use Rattle.coretable.specs.Standing.{place_of, Keeps};
ghost use Rattle.coretable.specs.Verdicts.{verdict_line, IsPlan};

use crate::choosing::for_packet;
use crate::{Desk, Held, Memory, Slot, Verdict};
use convo::ConvoSet;
use prio_budget::Charge;
use streamkey::{Key, Packet};

/// The place of a key's last conversation.
fn place_in<T: Drop>(desk: &Desk<T>, key: &Key) -> Option<usize>
    ensures { result ≡ place_of desk.entry.now key.now }
{
    desk.index.get(key).copied()
}

/// What comes next by the slot of the packet's key. A slot without what is kept answers want of memory; none is asked for.
fn by_slot<C: Charge>(
    set: &ConvoSet,
    slot: &Slot<Held<C>>,
    packet: &Packet,
) -> Result<Verdict, Memory>
    ensures { (t : Terms) (k : _) (talk : _) (id : ℕ) → SetsUp set.now t → slot.entry.now.talk ≡ Some talk → StandsFor (charge_by C.amount C.stamp) t talk k Still → slot.entry.now.clock ≡ k.convo.clock
        → IfOk result (λ v. verdict_line (packet_of packet.entry.now) id v ≡ packet_line t (packet_of packet.entry.now) (Some (record { id = id; convo = k.convo }))) }
{
    match &slot.talk {
        Some(talk) => Ok(for_packet(set, talk, slot.clock, packet)),
        None => Err(Memory),
    }
}

/// The slot at a place.
pub(crate) fn slot_at<T: Drop>(desk: &Desk<T>, place: usize) -> Option<&Slot<T>>
    ensures { IfSome result (λ s. slice_get desk.entry.now.slots.items place ≡ Some s.now) }
{
    desk.slots.get(place)
}

/// What comes next, and at which place.
pub(crate) fn plan<C: Charge>(
    set: &ConvoSet,
    desk: &Desk<Held<C>>,
    packet: &Packet,
) -> Result<(usize, Verdict), Memory>
    ensures { (t : Terms) (last : ℕ) (handler : Handler) (m : Course) → SetsUp set.now t → IsSound t last handler m → m.under ≡ None → Keeps (StandsFor (charge_by C.amount C.stamp) t) t m desk.entry.now
        → IfOk result (λ r. IsPlan t (core_of t m) (packet_of packet.entry.now) r.0 r.1) }
{
    match place_in(desk, &packet.key) {
        Some(place) => match slot_at(desk, place) {
            Some(slot) => match by_slot(set, slot, packet) {
                Ok(verdict) => Ok((place, verdict)),
                Err(memory) => Err(memory),
            },
            None => Err(Memory),
        },
        None => Ok((0, Verdict::Open)),
    }
}
