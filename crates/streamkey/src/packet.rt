ghost use Rattle.std.specs.Prelude.{◌≡◌, ◌≤◌, ◌^◌, length};
ghost use Rattle.streamkey.specs.Packet.{IsWay};

use crate::{Key, Memory, PayBytes, Proto, Toward};
use std::alloc::Global;

/// An accepted packet of a capture: the number of its record, its clock in nanoseconds, its key and way, TCP's sequence
/// number and control bits (both 0 in a datagram), the length of its payload by the IP header, and the payload as it was
/// captured.
#[derive(Debug, Drop)]
pub struct Packet {
    pub number: u32,
    pub now: u64,
    pub key: Key,
    pub toward: Toward,
    pub seq: u32,
    pub flags: u8,
    pub declared: u32,
    pub payload: PayBytes,
    pub ghost numbered: { 1 ≤ number },
    pub ghost few: { number ≤ 2 ^ 22 },
    pub ghost timed: { now ≤ 2 ^ 62 },
    pub ghost way: { IsWay key toward },
    pub ghost short: { length payload ≤ 262144 },
}

impl Packet {
    ghost use Rattle.std.specs.Prelude.{IfOk};
    ghost use Rattle.streamkey.specs.Packet.{IsRead, has_fin, has_rst, has_syn, is_tcp};
    ghost use Rattle.streamkey.specs.PacketSeen.{packet_of};

    /// A packet with its own copy of a payload.
    pub fn copy(
        alloc: Global,
        number: u32,
        now: u64,
        key: Key,
        toward: Toward,
        seq: u32,
        flags: u8,
        declared: u32,
        payload: &[u8],
    ) -> Result<Packet, Memory>
        requires read { IsRead (record { number = number; now = now; key = key; toward = toward; seq = seq; flags = flags; declared = declared; payload = payload.now }) }
        ensures { IfOk result (λ packet. packet_of packet ≡ record { number = number; now = now; key = key; toward = toward; seq = seq; flags = flags; declared = declared; payload = payload.now }) }
    {
        Ok(Packet {
            number,
            now,
            key,
            toward,
            seq,
            flags,
            declared,
            payload: PayBytes::of(payload.to_vec(alloc)?),
        })
    }

    /// Whether it is a TCP segment.
    pub fn is_tcp(&self) -> bool
        ensures { result ≡ is_tcp (packet_of self.entry.now) }
    {
        match self.key.proto {
            Proto::Tcp => true,
            Proto::Udp => false,
        }
    }

    /// Whether it is a segment with FIN.
    pub fn has_fin(&self) -> bool
        ensures { result ≡ has_fin (packet_of self.entry.now) }
    {
        self.is_tcp() && self.flags % 2 == 1
    }

    /// Whether it is a segment with SYN.
    pub fn has_syn(&self) -> bool
        ensures { result ≡ has_syn (packet_of self.entry.now) }
    {
        self.is_tcp() && (self.flags / 2) % 2 == 1
    }

    /// Whether it is a segment with RST.
    pub fn has_rst(&self) -> bool
        ensures { result ≡ has_rst (packet_of self.entry.now) }
    {
        self.is_tcp() && (self.flags / 4) % 2 == 1
    }
}
