// UDP (RFC 768).
ghost use Rattle.std.specs.Prelude.{◌≡◌, ◌≤◌, length, take, drop, false};
ghost use Rattle.porthdr.specs.Udp.{payload_length, is_short as says_short, udp as udp_of};
ghost use Rattle.porthdr.specs.Kind.{IsWithin};
ghost use Rattle.porthdr.specs.Views.{kind};

use crate::ends::end_at;
use crate::{Seen, Skip};
use byteorder::{BigEndian, ByteOrder};
use streamkey::{Addr, Key, Proto};

const HEADER: usize = 8;

#[tactic(auto, unfolding(crate::specs::Udp::is_short))]
fn is_short(datagram: &[u8]) -> bool
    ensures exact { result ≡ says_short datagram.now }
    ensures least { result ≡ false → 8 ≤ length datagram.now }
{
    if datagram.len() < HEADER {
        return true;
    }
    let said = BigEndian::read_u16(&datagram[4..]) as usize;
    said != 0 && said < HEADER
}

/// The length that is declared for the payload.
fn payload_size(declared: u32, datagram: &[u8]) -> u32
    requires { 8 ≤ length datagram.now }
    ensures { result ≡ payload_length declared datagram.now }
{
    let said = u32::from(BigEndian::read_u16(&datagram[4..]));
    let size = if said == 0 || declared < said {
        declared
    } else {
        said
    };
    size.saturating_sub(HEADER as u32)
}

/// What was captured of the payload, for which so many bytes are declared.
fn payload(datagram: &[u8], declared: u32) -> &[u8]
    requires { 8 ≤ length datagram.now }
    ensures { result.now ≡ take declared (drop 8 datagram.now) }
{
    let rest = &datagram[HEADER..];
    let most = declared as usize;
    if most < rest.len() {
        &rest[..most]
    } else {
        rest
    }
}

/// What the body of a packet of UDP is.
#[tactic(auto, unfolding(crate::specs::Udp::udp))]
pub(crate) fn udp(source: Addr, target: Addr, declared: u32, body: &[u8]) -> Seen<'_>
    ensures exact { kind result ≡ udp_of source target declared body.now }
    ensures within { IsWithin (kind result) }
{
    if is_short(body) {
        return Seen::Skipped(Skip::Short);
    }
    let (key, toward) = Key::of(Proto::Udp, end_at(source, body, 0), end_at(target, body, 2));
    let declared = payload_size(declared, body);
    Seen::Accepted {
        key,
        toward,
        seq: 0,
        flags: 0,
        declared,
        payload: payload(body, declared),
    }
}
