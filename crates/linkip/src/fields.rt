ghost use Rattle.std.specs.Prelude.{◌≡◌, ◌+◌, ◌≤◌, length, take};
ghost use Rattle.linkip.specs.Fields.{short_at, bytes_at};
ghost use Rattle.linkip.specs.Carried.{is_transport as says_transport};

use byteorder::{BigEndian, ByteOrder};
use streamkey::Addr;

const PROTO_TCP: u8 = 6;

const PROTO_UDP: u8 = 17;

/// The number in the two bytes at a place.
pub(crate) fn short(bytes: &[u8], at: usize) -> u16
    requires { at + 2 ≤ length bytes.now }
    ensures { result ≡ short_at bytes.now at }
{
    BigEndian::read_u16(&bytes[at..])
}

/// At most so many of the first bytes.
pub(crate) fn front(bytes: &[u8], most: u32) -> &[u8]
    ensures { result.now ≡ take most bytes.now }
{
    let most = most as usize;
    if most < bytes.len() {
        &bytes[..most]
    } else {
        bytes
    }
}

/// The address of version 4 at a place.
pub(crate) fn ipv4_address(packet: &[u8], at: usize) -> Addr
    requires { at + 4 ≤ length packet.now }
    ensures { result ≡ Addr.V4 (bytes_at packet.now at 4) }
{
    let mut bytes = [0; 4];
    bytes.copy_from_slice(&packet[at..at + 4]);
    Addr::V4(bytes)
}

/// The address of version 6 at a place.
pub(crate) fn ipv6_address(packet: &[u8], at: usize) -> Addr
    requires { at + 16 ≤ length packet.now }
    ensures { result ≡ Addr.V6 (bytes_at packet.now at 16) }
{
    let mut bytes = [0; 16];
    bytes.copy_from_slice(&packet[at..at + 16]);
    Addr::V6(bytes)
}

/// Whether the number is that of TCP or UDP.
pub(crate) fn is_transport(proto: u8) -> bool
    ensures { result ≡ says_transport proto }
{
    proto == PROTO_TCP || proto == PROTO_UDP
}
