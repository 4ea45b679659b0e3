// A packet's entry begins.
ghost use Rattle.std.specs.Prelude.{◌≡◌, ℕ, [], Some, None, cond, IfOk, OnOk, slice_get};
ghost use Rattle.streamdefs.specs.Terms.{Terms};
ghost use Rattle.streamdefs.specs.Lawful.{Handler};
ghost use Rattle.streamdefs.specs.Core.{Open};
ghost use Rattle.streamdefs.specs.Convo.Act.{Seg as SegAct};
ghost use Rattle.coretable.specs.Course.{Course, begun, core_of};
ghost use Rattle.coretable.specs.Lawfully.{IsSound};
ghost use Rattle.flowdir.specs.Boundary.{charge_by};
ghost use Rattle.coretable.specs.Held.{StandsFor};
ghost use Rattle.convo.specs.Talk.{SetsUp};
ghost use Rattle.convo.specs.Seen.{packet_of};
ghost use Rattle.streamkey.specs.declared.packet.Packet.{Packet as PacketKept};
ghost use Rattle.coretable.specs.declared.job.Job.TheVariants as job;
ghost use Rattle.coretable.specs.Standing.{Keeps};
ghost use Rattle.coretable.specs.Fits.{is_closing};
ghost use Rattle.coretable.specs.Steps.{IsStep, nothing};
ghost use Rattle.coretable.specs.Turns.{Settles};

use crate::beginning::{active_of, take_out};
use crate::settling::settle;
use crate::{Desk, EntryKind, Hand, Held, Job, Memory, Stage, Turn};
use convo::ConvoSet;
use prio_budget::Charge;
use std::alloc::Global;
use std::mem;
use streamkey::Packet;

/// Takes the packet that waits; then nothing waits.
pub(crate) fn take_packet<T: Drop>(desk: &mut Desk<T>) -> Result<Packet, Memory>
    ensures packet { (p : PacketKept) → desk.old.job ≡ job.Takes p → IfOk result (λ r. r ≡ p) }
    ensures job { OnOk result (desk.new.job ≡ job.Nothing) }
    ensures closing { is_closing desk.new.job ≡ is_closing desk.old.job }
    ensures rest { desk.new ≡ record desk.old { job = desk.new.job } }
{
    match mem::replace(&mut desk.job, Job::Nothing) {
        Job::Takes(packet) => Ok(packet),
        other => {
            desk.job = other;
            Err(Memory)
        }
    }
}

/// The clock of a conversation's last packet before its End, with a packet.
fn clock_with(ended: bool, now: u64, clock: u64) -> u64
    ensures { result ≡ cond ended clock now }
{
    if ended { clock } else { now }
}

/// Begins the entry of the packet that waits, under the conversation at a place.
pub(crate) fn begin_seg<C: Charge>(
    alloc: Global,
    set: &ConvoSet,
    desk: &mut Desk<Held<C>>,
    place: usize,
) -> Result<(Stage<C, Held<C>>, Option<Turn<C>>), Hand<C>>
    ensures turn { (t : Terms) (last : ℕ) (handler : Handler) (m : Course) (o : Open) (p : PacketKept) → SetsUp set.now t → IsSound t last handler m → m.under ≡ None → Keeps (StandsFor (charge_by C.amount C.stamp) t) t m desk.old
        → slice_get (core_of t m).convos place ≡ Some o → desk.old.job ≡ job.Takes p → IsSound t last handler (begun m (record { conv = o.id; act = SegAct (packet_of p) p.now [] [] }))
        → IfOk result (λ r. Settles (charge_by C.amount C.stamp) (StandsFor (charge_by C.amount C.stamp) t) t (begun m (record { conv = o.id; act = SegAct (packet_of p) p.now [] [] })) desk.new r.0 r.1) }
    ensures step { IsStep (charge_by C.amount C.stamp) set.now.marks.limit desk.old desk.new nothing result }
{
    let Ok(packet) = take_packet(desk) else {
        return Err(Hand::empty());
    };
    let Ok(taken) = take_out(desk, place) else {
        return Err(Hand::empty());
    };
    let mut talk = taken.talk;
    let clock = clock_with(talk.is_ended(), packet.now, taken.clock);
    match talk.take(set, &packet) {
        Ok(want) => {
            let kind = EntryKind::Seg {
                packet: packet.number,
                now: packet.now,
            };
            let active = active_of(alloc, place, taken.number, clock, kind, talk);
            settle(set, desk, active, want)
        }
        Err(_) => Err(Hand::of(talk)),
    }
}
