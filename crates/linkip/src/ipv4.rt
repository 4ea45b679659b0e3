// IPv4 (RFC 791, section 3.1).
ghost use Rattle.std.specs.Prelude.{◌≡◌, ◌+◌, ◌^◌, ◌<◌, ◌≤◌, length, false};
ghost use Rattle.linkip.specs.Ipv4.{header_length, declared_length, is_short as says_short, is_fragment as says_fragment, ipv4 as ipv4_of};
ghost use Rattle.linkip.specs.Views.{carried};

use crate::Net;
use crate::fields::{front, ipv4_address, is_transport, short};

/// The bytes of a header without options.
const LEAST_HEADER: usize = 20;

const MORE_FRAGMENTS: u16 = 0x2000;

const FRAGMENT_OFFSET: u16 = 0x1fff;

fn header_size(packet: &[u8]) -> usize
    requires { 1 ≤ length packet.now }
    ensures exact { result ≡ header_length packet.now }
    ensures bound { result ≤ 60 }
{
    (packet[0] % 16) as usize * 4
}

#[tactic(auto, unfolding(crate::specs::Ipv4::is_short))]
fn is_short(packet: &[u8]) -> bool
    ensures exact { result ≡ says_short packet.now }
    ensures least { result ≡ false → 20 ≤ length packet.now }
    ensures whole { result ≡ false → header_length packet.now ≤ length packet.now }
{
    if packet.len() < LEAST_HEADER {
        return true;
    }
    let header = header_size(packet);
    let total = short(packet, 2) as usize;
    packet[0] / 16 != 4
        || header < LEAST_HEADER
        || packet.len() < header
        || (total != 0 && total < header)
}

#[tactic(auto, unfolding(crate::specs::Ipv4::is_fragment))]
fn is_fragment(packet: &[u8]) -> bool
    requires { 20 ≤ length packet.now }
    ensures { result ≡ says_fragment packet.now }
{
    let bits = short(packet, 6);
    bits & MORE_FRAGMENTS != 0 || bits & FRAGMENT_OFFSET != 0
}

/// The length that the header declares for what follows it.
fn declared_size(packet: &[u8]) -> u32
    requires least { 20 ≤ length packet.now }
    requires room { length packet.now < 2 ^ 32 }
    ensures { result ≡ declared_length packet.now }
{
    let total = short(packet, 2) as usize;
    let all = if total == 0 { packet.len() } else { total };
    all.saturating_sub(header_size(packet)) as u32
}

/// What a packet of IPv4 carries.
#[tactic(auto, unfolding(crate::specs::Ipv4::ipv4))]
pub(crate) fn ipv4(packet: &[u8]) -> Net<'_>
    requires { length packet.now < 2 ^ 32 }
    ensures { carried result ≡ ipv4_of packet.now }
{
    if is_short(packet) {
        return Net::Short;
    }
    if is_fragment(packet) {
        return Net::Fragment;
    }
    let proto = packet[9];
    if !is_transport(proto) {
        return Net::Other;
    }
    let declared = declared_size(packet);
    let rest = &packet[header_size(packet)..];
    Net::Ip {
        proto,
        source: ipv4_address(packet, 12),
        target: ipv4_address(packet, 16),
        declared,
        body: front(rest, declared),
    }
}
