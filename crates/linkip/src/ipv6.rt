// IPv6 (RFC 8200, sections 3 and 4).
ghost use Rattle.std.specs.Prelude.{◌≡◌, ◌+◌, ◌^◌, ◌<◌, ◌≤◌, length, drop, slice_index, true, false, Some, None, IfSome, MatchOption};
ghost use Rattle.linkip.specs.Ipv6.{declared_length, payload_of, is_short as says_short, is_extension as says_extension, is_cut, extension_length, upper_in, fragment as fragment_of, by_next as by_next_of, ipv6 as ipv6_of};
ghost use Rattle.linkip.specs.Views.{carried};

use crate::Net;
use crate::fields::{front, ipv6_address, is_transport, short};
use streamkey::Addr;

const HEADER: usize = 40;

/// Extension headers have a multiple of so many bytes, and the header of a fragment has just these.
const UNIT: usize = 8;

const HOP_BY_HOP: u8 = 0;

const ROUTING: u8 = 43;

const FRAGMENT: u8 = 44;

const DESTINATION: u8 = 60;

/// A header in the chain: its number, and the bytes from it on.
#[derive(Clone, Copy)]
struct Upper<'a> {
    next: u8,
    left: &'a [u8],
}

#[tactic(auto, unfolding(crate::specs::Ipv6::is_short))]
fn is_short(packet: &[u8]) -> bool
    ensures exact { result ≡ says_short packet.now }
    ensures least { result ≡ false → 40 ≤ length packet.now }
{
    packet.len() < HEADER || packet[0] / 16 != 6
}

/// The length that the header declares for the payload.
fn declared_size(packet: &[u8]) -> u32
    requires least { 40 ≤ length packet.now }
    requires room { length packet.now < 2 ^ 32 }
    ensures { result ≡ declared_length packet.now }
{
    let said = short(packet, 4) as usize;
    let size = if said == 0 {
        packet.len() - HEADER
    } else {
        said
    };
    size as u32
}

/// What was captured of the payload.
fn payload(packet: &[u8]) -> &[u8]
    requires least { 40 ≤ length packet.now }
    requires room { length packet.now < 2 ^ 32 }
    ensures exact { result.now ≡ payload_of packet.now }
    ensures within { length result.now ≤ declared_length packet.now }
{
    front(&packet[HEADER..], declared_size(packet))
}

fn is_extension(next: u8) -> bool
    ensures { result ≡ says_extension next }
{
    next == HOP_BY_HOP || next == ROUTING || next == DESTINATION
}

/// What stands behind the extension header with which the bytes begin, where that is whole.
fn behind_extension(bytes: &[u8]) -> Option<Upper<'_>>
    ensures whole { MatchOption result (is_cut bytes.now ≡ true) (λ _. is_cut bytes.now ≡ false) }
    ensures next { IfSome result (λ u. u.next ≡ slice_index bytes.now 0) }
    ensures left { IfSome result (λ u. u.left.now ≡ drop (extension_length bytes.now) bytes.now) }
    ensures shorter { IfSome result (λ u. length u.left.now < length bytes.now) }
{
    if bytes.len() < UNIT {
        return None;
    }
    let size = (bytes[1] as usize + 1) * UNIT;
    if bytes.len() < size {
        return None;
    }
    Some(Upper {
        next: bytes[0],
        left: &bytes[size..],
    })
}

/// The first header in a chain that is no extension header, where none before it is cut.
fn behind_extensions(first: u8, payload: &[u8]) -> Option<Upper<'_>>
    ensures exact { MatchOption result (upper_in first payload.now ≡ None)
        (λ u. upper_in first payload.now ≡ Some (record { next = u.next; left = u.left.now })) }
    ensures within { IfSome result (λ u. length u.left.now ≤ length payload.now) }
{
    let mut upper = Upper {
        next: first,
        left: payload,
    };
    while is_extension(upper.next) {
        upper = behind_extension(upper.left)?;
    }
    Some(upper)
}

/// What the header of a fragment carries.
fn fragment(header: &[u8]) -> Net<'_>
    ensures { carried result ≡ fragment_of header.now }
{
    if header.len() < UNIT {
        Net::Short
    } else {
        Net::Fragment
    }
}

/// What the header carries that stands behind all extension headers, where so many bytes are declared from it on.
#[tactic(auto, unfolding(crate::specs::Ipv6::by_next))]
fn by_next(source: Addr, target: Addr, upper: Upper<'_>, declared: u32) -> Net<'_>
    ensures { carried result
        ≡ by_next_of source target declared (record { next = upper.entry.next; left = upper.entry.left.now }) }
{
    if upper.next == FRAGMENT {
        return fragment(upper.left);
    }
    if !is_transport(upper.next) {
        return Net::Other;
    }
    Net::Ip {
        proto: upper.next,
        source,
        target,
        declared,
        body: upper.left,
    }
}

/// What a packet of IPv6 carries.
pub(crate) fn ipv6(packet: &[u8]) -> Net<'_>
    requires { length packet.now < 2 ^ 32 }
    ensures { carried result ≡ ipv6_of packet.now }
{
    if is_short(packet) {
        return Net::Short;
    }
    let source = ipv6_address(packet, 8);
    let target = ipv6_address(packet, 24);
    let declared = declared_size(packet);
    let payload = payload(packet);
    let Some(upper) = behind_extensions(packet[6], payload) else {
        return Net::Short;
    };
    let passed = payload.len() - upper.left.len();
    by_next(source, target, upper, declared - passed as u32)
}
