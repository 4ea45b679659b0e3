// An input is loaded, and its first entry begins; an ask and a release are answered.
ghost use Rattle.std.specs.Prelude.{◌≡◌, ℕ, None, Some, true, false, IfOk};
ghost use Rattle.streamdefs.specs.Terms.{Terms};
ghost use Rattle.streamdefs.specs.Lawful.{Handler};
ghost use Rattle.coretable.specs.Course.{Course, closing, due_by, loaded, core_of, has_room, looked, freed};
ghost use Rattle.coretable.specs.Lawfully.{IsSound};
ghost use Rattle.flowdir.specs.Boundary.{charge_by};
ghost use Rattle.coretable.specs.Held.{StandsFor};
ghost use Rattle.convo.specs.Talk.{SetsUp};
ghost use Rattle.convo.specs.Seen.{packet_of};
ghost use Rattle.streamkey.specs.declared.packet.Packet.{Packet as PacketKept};
ghost use Rattle.coretable.specs.declared.job.Job.TheVariants as job;
ghost use Rattle.coretable.specs.declared.stage.Stage.TheVariants as stage_of;
ghost use Rattle.coretable.specs.Standing.{Keeps};
ghost use Rattle.coretable.specs.Steps.{IsStep, nothing};
ghost use Rattle.coretable.specs.Turns.{AtWant, IsAt, Moves};
ghost use Rattle.coretable.specs.Verdicts.{IsPlan};
ghost use Rattle.streamdefs.specs.Want.Want.{Reserve, Release};
ghost use Rattle.streamdefs.specs.View.{Ask as Request};
ghost use Rattle.streamdefs.specs.Reorder.{Charge as ChargeMade};

use crate::beginning_planned::begin_planned;
use crate::planning::plan;
use crate::{Active, Desk, Hand, Held, Job, Memory, Stage, Turn, Verdict};
use convo::ConvoSet;
use histbook::LookEntry;
use prio_budget::{Charge, Free, Look};
use std::alloc::Global;
use streamkey::Packet;

/// Loads a packet.
pub fn load<C: Charge>(desk: &mut Desk<Held<C>>, packet: Packet)
    ensures rest { desk.new ≡ record desk.old { job = job.Takes packet } }
    ensures turn { (t : Terms) (m : Course) → m.under ≡ None → Keeps (StandsFor (charge_by C.amount C.stamp) t) t m desk.old → Keeps (StandsFor (charge_by C.amount C.stamp) t) t (loaded m (packet_of packet)) desk.new }
{
    desk.job = Job::Takes(packet);
}

/// Loads the end of the capture.
pub fn load_end<C: Charge>(desk: &mut Desk<Held<C>>, now: u64)
    ensures rest { desk.new ≡ record desk.old { job = job.Closes now } }
    ensures turn { (t : Terms) (m : Course) → m.under ≡ None → Keeps (StandsFor (charge_by C.amount C.stamp) t) t m desk.old → Keeps (StandsFor (charge_by C.amount C.stamp) t) t (closing m now) desk.new }
{
    desk.job = Job::Closes(now);
}

/// What comes next for the packet that waits.
fn plan_job<C: Charge>(set: &ConvoSet, desk: &Desk<Held<C>>) -> Result<(usize, Verdict), Memory>
    ensures { (t : Terms) (last : ℕ) (handler : Handler) (m : Course) (p : PacketKept) → SetsUp set.now t → IsSound t last handler m → m.under ≡ None → Keeps (StandsFor (charge_by C.amount C.stamp) t) t m desk.entry.now
        → desk.entry.now.job ≡ job.Takes p → IfOk result (λ r. IsPlan t (core_of t m) (packet_of p) r.0 r.1) }
{
    match &desk.job {
        Job::Takes(packet) => plan(set, desk, packet),
        Job::Nothing | Job::Closes(_) => Err(Memory),
    }
}

/// Begins the next entry for the packet that waits, whose clock is given, where no End is owed, nothing is due, and there is room.
pub(crate) fn begin_next<C: Charge>(
    alloc: Global,
    set: &ConvoSet,
    desk: &mut Desk<Held<C>>,
    now: u64,
) -> Result<(Stage<C, Held<C>>, Option<Turn<C>>), Hand<C>>
    ensures turn { (t : Terms) (last : ℕ) (handler : Handler) (m : Course) (p : PacketKept) → SetsUp set.now t → IsSound t last handler m → m.under ≡ None → Keeps (StandsFor (charge_by C.amount C.stamp) t) t m desk.old
        → desk.old.job ≡ job.Takes p → now ≡ p.now → (core_of t m).owed ≡ None → due_by t (core_of t m) now ≡ None → has_room (core_of t m) ≡ true
        → IfOk result (λ r. Moves (charge_by C.amount C.stamp) (StandsFor (charge_by C.amount C.stamp) t) t m desk.new r.0 r.1) }
    ensures step { IsStep (charge_by C.amount C.stamp) set.now.marks.limit desk.old desk.new nothing result }
{
    let Ok((place, verdict)) = plan_job(set, desk) else {
        return Err(Hand::empty());
    };
    begin_planned(alloc, set, desk, place, verdict, now)
}

/// The ask is granted.
pub fn grant<C: Charge>(
    desk: &Desk<Held<C>>,
    active: Active<Held<C>>,
    bytes: u32,
    charge: C,
    look: Look,
) -> Stage<C, Held<C>>
    ensures is { result ≡ stage_of.Told active (record { asked = bytes; granted = true; look = look }) (Some charge) }
    ensures turn { (t : Terms) (m : Course) (request : Request) (mark : ℕ) (at : AtWant (StandsFor (charge_by C.amount C.stamp) t) t m desk.entry.now active (Reserve request mark)) → C.amount charge ≡ bytes → C.stamp charge ≡ look.stamp
        → IsAt (charge_by C.amount C.stamp) (StandsFor (charge_by C.amount C.stamp) t) t (looked m at.u (record { asked = bytes; granted = true; look = look })) desk.entry.now result }
{
    Stage::Told {
        active,
        look: LookEntry {
            asked: bytes,
            granted: true,
            look,
        },
        granted: Some(charge),
    }
}

/// The ask is refused.
pub fn refuse<C: Charge>(
    desk: &Desk<Held<C>>,
    active: Active<Held<C>>,
    bytes: u32,
    look: Look,
) -> Stage<C, Held<C>>
    ensures is { result ≡ stage_of.Told active (record { asked = bytes; granted = false; look = look }) None }
    ensures turn { (t : Terms) (m : Course) (request : Request) (mark : ℕ) (at : AtWant (StandsFor (charge_by C.amount C.stamp) t) t m desk.entry.now active (Reserve request mark))
        → IsAt (charge_by C.amount C.stamp) (StandsFor (charge_by C.amount C.stamp) t) t (looked m at.u (record { asked = bytes; granted = false; look = look })) desk.entry.now result }
{
    Stage::Told {
        active,
        look: LookEntry {
            asked: bytes,
            granted: false,
            look,
        },
        granted: None,
    }
}

/// The charge was given back.
pub fn give_back<C: Charge>(
    desk: &Desk<Held<C>>,
    active: Active<Held<C>>,
    free: Free,
) -> Stage<C, Held<C>>
    ensures is { result ≡ stage_of.Freed active free }
    ensures turn { (t : Terms) (m : Course) (charge : ChargeMade) (at : AtWant (StandsFor (charge_by C.amount C.stamp) t) t m desk.entry.now active (Release charge))
        → IsAt (charge_by C.amount C.stamp) (StandsFor (charge_by C.amount C.stamp) t) t (freed m at.u free) desk.entry.now result }
{
    Stage::Freed { active, free }
}
