// What a packet's header says, as the definitions have it.
ghost use Rattle.std.specs.Prelude.{◌≡◌};
ghost use Rattle.streamdefs.specs.Packet.{has_fin as fin_of, has_rst as rst_of, has_syn as syn_of, is_tcp as tcp_of};
ghost use Rattle.convo.specs.Seen.{packet_of};

use streamkey::Packet;

/// Whether it is a TCP segment.
#[tactic(auto, using(crate::proofs::FlagSteps::tcp_is))]
pub(crate) fn is_tcp(packet: &Packet) -> bool
    ensures { result ≡ tcp_of (packet_of packet.entry.now) }
{
    packet.is_tcp()
}

/// Whether it has FIN.
#[tactic(auto, using(crate::proofs::FlagSteps::fin_is))]
pub(crate) fn has_fin(packet: &Packet) -> bool
    ensures { result ≡ fin_of (packet_of packet.entry.now) }
{
    packet.has_fin()
}

/// Whether it has SYN.
#[tactic(auto, using(crate::proofs::FlagSteps::syn_is))]
pub(crate) fn has_syn(packet: &Packet) -> bool
    ensures { result ≡ syn_of (packet_of packet.entry.now) }
{
    packet.has_syn()
}

/// Whether it has RST.
#[tactic(auto, using(crate::proofs::FlagSteps::rst_is))]
pub(crate) fn has_rst(packet: &Packet) -> bool
    ensures { result ≡ rst_of (packet_of packet.entry.now) }
{
    packet.has_rst()
}
