// TCP (RFC 9293, section 3.1).
ghost use Rattle.std.specs.Prelude.{◌≡◌, ◌≤◌, length, false};
ghost use Rattle.porthdr.specs.Tcp.{header_length, is_short as says_short, tcp as tcp_of};
ghost use Rattle.porthdr.specs.Kind.{IsWithin};
ghost use Rattle.porthdr.specs.Views.{kind};

use crate::ends::end_at;
use crate::{Seen, Skip};
use byteorder::{BigEndian, ByteOrder};
use streamkey::{Addr, Key, Proto};

/// The bytes of a header without options.
const LEAST_HEADER: usize = 20;

fn header_size(segment: &[u8]) -> usize
    requires { 13 ≤ length segment.now }
    ensures exact { result ≡ header_length segment.now }
    ensures bound { result ≤ 60 }
{
    (segment[12] / 16) as usize * 4
}

#[tactic(auto, unfolding(crate::specs::Tcp::is_short))]
fn is_short(segment: &[u8]) -> bool
    ensures exact { result ≡ says_short segment.now }
    ensures least { result ≡ false → 20 ≤ length segment.now }
    ensures whole { result ≡ false → header_length segment.now ≤ length segment.now }
{
    if segment.len() < LEAST_HEADER {
        return true;
    }
    let header = header_size(segment);
    header < LEAST_HEADER || segment.len() < header
}

/// What the body of a packet of TCP is.
#[tactic(auto, unfolding(crate::specs::Tcp::tcp))]
pub(crate) fn tcp(source: Addr, target: Addr, declared: u32, body: &[u8]) -> Seen<'_>
    requires { length body.now ≤ declared }
    ensures exact { kind result ≡ tcp_of source target declared body.now }
    ensures within { IsWithin (kind result) }
{
    if is_short(body) {
        return Seen::Skipped(Skip::Short);
    }
    let header = header_size(body);
    let (key, toward) = Key::of(Proto::Tcp, end_at(source, body, 0), end_at(target, body, 2));
    Seen::Accepted {
        key,
        toward,
        seq: BigEndian::read_u32(&body[4..]),
        flags: body[13],
        declared: declared - header as u32,
        payload: &body[header..],
    }
}
