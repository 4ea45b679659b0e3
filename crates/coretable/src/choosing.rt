// Which entry comes next for a packet.
ghost use Rattle.std.specs.Prelude.{◌≡◌, ◌+◌, ℕ, nat_lt, not, ◌&&◌, cond, Some};
ghost use Rattle.streamdefs.specs.Terms.{Terms};
ghost use Rattle.streamdefs.specs.Packet.{is_tcp, has_syn};
ghost use Rattle.coretable.specs.Course.{packet_line};
ghost use Rattle.flowdir.specs.Boundary.{charge_by};
ghost use Rattle.convo.specs.Seen.{packet_of};
ghost use Rattle.coretable.specs.Held.{StandsFor};
ghost use Rattle.convo.specs.Talk.{Talk, SetsUp};
ghost use Rattle.convo.specs.Talk.Phase.{Still};
ghost use Rattle.coretable.specs.declared.choosing.Verdict.TheVariants as verdict;
ghost use Rattle.coretable.specs.Verdicts.{verdict_line};

use crate::Held;
use convo::ConvoSet;
use prio_budget::Charge;
use streamkey::Packet;

/// What comes next by a packet and its key's last conversation.
#[derive(Clone, Copy, Debug, PartialEq, Eq)]
pub enum Verdict {
    /// The packet's entry under that conversation.
    Seg,
    /// The packet opens a conversation.
    Open,
    /// That conversation's End, since the packet replaces it.
    Replaces,
}

/// Whether a packet comes late to a conversation that has ended.
fn is_late(packet: &Packet, clock: u64, idle: u64) -> bool
    ensures { result ≡ (is_tcp (packet_of packet.entry.now) && not (has_syn (packet_of packet.entry.now)) && nat_lt packet.entry.now.now (clock + idle)) }
{
    packet.is_tcp() && !packet.has_syn() && (packet.now < clock || packet.now - clock < idle)
}

/// Of a conversation that has ended.
fn of_ended(late: bool) -> Verdict
    ensures { result ≡ cond late verdict.Seg verdict.Open }
{
    if late { Verdict::Seg } else { Verdict::Open }
}

/// Of a live one.
fn of_live(replaces: bool) -> Verdict
    ensures { result ≡ cond replaces verdict.Replaces verdict.Seg }
{
    if replaces {
        Verdict::Replaces
    } else {
        Verdict::Seg
    }
}

/// What comes next by a packet and its key's last conversation, with the clock of that one's last packet before its End.
pub(crate) fn for_packet<C: Charge>(
    set: &ConvoSet,
    talk: &Held<C>,
    clock: u64,
    packet: &Packet,
) -> Verdict
    ensures { (t : Terms) (k : Talk) (id : ℕ) → SetsUp set.now t → StandsFor (charge_by C.amount C.stamp) t talk.now k Still → clock ≡ k.convo.clock
        → verdict_line (packet_of packet.entry.now) id result ≡ packet_line t (packet_of packet.entry.now) (Some (record { id = id; convo = k.convo })) }
{
    if talk.is_ended() {
        of_ended(is_late(packet, clock, set.shape.idle))
    } else {
        of_live(talk.replaces(packet))
    }
}
