// The entry that was chosen for the packet that waits begins.
ghost use Rattle.std.specs.Prelude.{◌≡◌, ℕ, None, IfOk};
ghost use Rattle.streamdefs.specs.Terms.{Terms};
ghost use Rattle.streamdefs.specs.Lawful.{Handler};
ghost use Rattle.streamdefs.specs.Core.{latest_of};
ghost use Rattle.coretable.specs.Course.{Course, begun, core_of, packet_line};
ghost use Rattle.coretable.specs.Lawfully.{IsSound};
ghost use Rattle.flowdir.specs.Boundary.{charge_by};
ghost use Rattle.coretable.specs.Held.{StandsFor};
ghost use Rattle.convo.specs.Talk.{SetsUp};
ghost use Rattle.convo.specs.Seen.{packet_of};
ghost use Rattle.streamkey.specs.declared.packet.Packet.{Packet as PacketKept};
ghost use Rattle.coretable.specs.declared.job.Job.TheVariants as job;
ghost use Rattle.coretable.specs.Standing.{Keeps};
ghost use Rattle.coretable.specs.Steps.{IsStep, nothing};
ghost use Rattle.coretable.specs.Turns.{Settles};
ghost use Rattle.coretable.specs.Verdicts.{IsPlan};

use crate::beginning::begin_end;
use crate::beginning_packet::begin_seg;
use crate::opening::begin_new;
use crate::{Desk, Hand, Held, Stage, Turn, Verdict};
use convo::ConvoSet;
use evring::Reason;
use prio_budget::Charge;
use std::alloc::Global;

/// Begins the entry that was chosen for the packet that waits, whose clock is given.
pub(crate) fn begin_planned<C: Charge>(
    alloc: Global,
    set: &ConvoSet,
    desk: &mut Desk<Held<C>>,
    place: usize,
    verdict: Verdict,
    now: u64,
) -> Result<(Stage<C, Held<C>>, Option<Turn<C>>), Hand<C>>
    ensures turn { (t : Terms) (last : ℕ) (handler : Handler) (m : Course) (p : PacketKept) → SetsUp set.now t → IsSound t last handler m → m.under ≡ None → Keeps (StandsFor (charge_by C.amount C.stamp) t) t m desk.old
        → desk.old.job ≡ job.Takes p → now ≡ p.now → IsPlan t (core_of t m) (packet_of p) place verdict
        → IsSound t last handler (begun m (packet_line t (packet_of p) (latest_of p.key (core_of t m).convos)))
        → IfOk result (λ r. Settles (charge_by C.amount C.stamp) (StandsFor (charge_by C.amount C.stamp) t) t (begun m (packet_line t (packet_of p) (latest_of p.key (core_of t m).convos))) desk.new r.0 r.1) }
    ensures step { IsStep (charge_by C.amount C.stamp) set.now.marks.limit desk.old desk.new nothing result }
{
    match verdict {
        Verdict::Open => begin_new(alloc, set, desk),
        Verdict::Seg => begin_seg(alloc, set, desk, place),
        Verdict::Replaces => begin_end(alloc, set, desk, place, now, Reason::Replaced),
    }
}
