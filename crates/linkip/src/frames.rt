ghost use Rattle.std.specs.Prelude.{◌≡◌, ◌+◌, ◌^◌, ◌<◌, ◌≤◌, length, drop, Some, None, IfSome, MatchOption};
ghost use Rattle.linkip.specs.Frames.{Typed as Tagged, behind_tag as behind_tag_of, behind_tags as behind_tags_of, by_ether_type as by_ether_type_of, behind_header as behind_header_of, by_version as by_version_of, network as network_of};
ghost use Rattle.linkip.specs.Carried.{IsWithinDeclared};
ghost use Rattle.linkip.specs.Views.{carried};

use crate::Net;
use crate::fields::short;
use crate::ipv4::ipv4;
use crate::ipv6::ipv6;
use pcapfile::Link;

const ETHER_TYPE_IPV4: u16 = 0x0800;

const ETHER_TYPE_IPV6: u16 = 0x86dd;

const ETHER_TYPE_TAG: u16 = 0x8100;

const ETHER_TYPE_SERVICE_TAG: u16 = 0x88a8;

/// The bytes of a tag behind its EtherType.
const TAG: usize = 4;

/// An EtherType, and the bytes that it is said of.
#[derive(Clone, Copy)]
struct Typed<'a> {
    ether_type: u16,
    bytes: &'a [u8],
}

/// What stands behind a tag, where a tag stands there; none where the bytes end inside it.
#[tactic(auto, unfolding(crate::specs::Frames::behind_tag))]
fn behind_tag(ether_type: u16, bytes: &[u8]) -> Option<Typed<'_>>
    ensures exact { let tag : Tagged = record { ether_type = ether_type; bytes = bytes.now } in
        MatchOption result (behind_tag_of tag ≡ None)
        (λ t. behind_tag_of tag ≡ Some (record { ether_type = t.ether_type; bytes = t.bytes.now })) }
    ensures within { IfSome result (λ t. length t.bytes.now ≤ length bytes.now) }
{
    match ether_type {
        ETHER_TYPE_TAG | ETHER_TYPE_SERVICE_TAG => {
            if bytes.len() < TAG {
                return None;
            }
            Some(Typed {
                ether_type: short(bytes, 2),
                bytes: &bytes[TAG..],
            })
        }
        _ => Some(Typed { ether_type, bytes }),
    }
}

/// What an EtherType leads to.
#[tactic(auto, unfolding(crate::specs::Frames::by_ether_type))]
fn by_ether_type(ether_type: u16, bytes: &[u8]) -> Net<'_>
    requires { length bytes.now < 2 ^ 32 }
    ensures { carried result ≡ by_ether_type_of (Some (record { ether_type = ether_type; bytes = bytes.now })) }
{
    match ether_type {
        ETHER_TYPE_IPV4 => ipv4(bytes),
        ETHER_TYPE_IPV6 => ipv6(bytes),
        _ => Net::Other,
    }
}

/// What an EtherType leads to behind at most two tags.
#[tactic(auto, unfolding(crate::specs::Frames::by_ether_type))]
fn behind_tags(ether_type: u16, bytes: &[u8]) -> Net<'_>
    requires { length bytes.now < 2 ^ 32 }
    ensures { carried result ≡ by_ether_type_of (behind_tags_of (record { ether_type = ether_type; bytes = bytes.now })) }
{
    let Some(first) = behind_tag(ether_type, bytes) else {
        return Net::Short;
    };
    let Some(second) = behind_tag(first.ether_type, first.bytes) else {
        return Net::Short;
    };
    by_ether_type(second.ether_type, second.bytes)
}

/// What a frame carries that has a link header of so many bytes, with an EtherType at a place.
#[tactic(auto, unfolding(crate::specs::Frames::behind_header))]
fn behind_header(size: usize, at: usize, frame: &[u8]) -> Net<'_>
    requires inside { at + 2 ≤ size }
    requires room { length frame.now < 2 ^ 32 }
    ensures { carried result ≡ behind_header_of size at frame.now }
{
    if frame.len() < size {
        return Net::Short;
    }
    behind_tags(short(frame, at), &frame[size..])
}

/// What a packet of the internet protocol carries, by its version.
#[tactic(auto, unfolding(crate::specs::Frames::by_version))]
fn by_version(packet: &[u8]) -> Net<'_>
    requires { length packet.now < 2 ^ 32 }
    ensures { carried result ≡ by_version_of packet.now }
{
    if packet.is_empty() {
        return Net::Short;
    }
    match packet[0] / 16 {
        4 => ipv4(packet),
        6 => ipv6(packet),
        _ => Net::Other,
    }
}

/// What a frame of a link carries (IEEE 802.3 and 802.1Q, LINKTYPE_LINUX_SLL, LINKTYPE_LINUX_SLL2, LINKTYPE_RAW).
pub fn network(link: Link, frame: &[u8]) -> Net<'_>
    requires { length frame.now < 2 ^ 32 }
    ensures exact { carried result ≡ network_of link frame.now }
    ensures within { IsWithinDeclared (carried result) }
{
    match link {
        Link::Ethernet => behind_header(14, 12, frame),
        Link::Cooked => behind_header(16, 14, frame),
        Link::Cooked2 => behind_header(20, 0, frame),
        Link::Raw => by_version(frame),
    }
}
