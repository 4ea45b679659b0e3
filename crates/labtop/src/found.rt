// What becomes of one record.
ghost use Rattle.std.specs.Prelude.{◌≡◌, ◌<◌, ◌^◌, true, length, MatchOption};
ghost use Rattle.labtop.specs.Found.{IsFound};
ghost use Rattle.labtop.specs.Scapconf.{fate_of, has_segment, holds, packet_in};
ghost use Rattle.porthdr.specs.Transport.{kind_of};

use datagrams::Datagram;
use linkip::network;
use pcapfile::{Frame, Link};
use porthdr::{Seen, Skip, transport};
use scapconf::Settings;
use streamkey::{Key, Proto, Toward};

/// What becomes of a record: its datagram is taken, the filter refuses its packet, or it has none.
#[derive(Clone, Copy)]
pub(crate) enum Found<'a> {
    Taken(Datagram<'a>),
    Filtered,
    Passed(Skip),
}

/// Whether the filter holds of a packet with that key and way.
fn accepts(settings: &Settings, key: &Key, toward: Toward) -> bool
    ensures { result ≡ holds settings.now.filter key.now toward }
{
    match &settings.filter {
        Some(filter) => filter.matches(key, toward),
        None => true,
    }
}

/// What becomes of a record with that number and clock, but for a segment of TCP, which is not built yet.
pub(crate) fn found_in<'a>(
    settings: &Settings,
    number: u32,
    clock: u64,
    link: Link,
    frame: &'a Frame,
) -> Option<Found<'a>>
    requires { length frame.now.bytes < 2 ^ 32 }
    ensures { MatchOption result (has_segment (packet_in (fate_of settings.now.filter number clock (kind_of link frame.now.bytes))) ≡ true)
        (λ found. IsFound found (fate_of settings.now.filter number clock (kind_of link frame.now.bytes))) }
{
    match transport(network(link, frame.bytes.as_slice())) {
        Seen::Accepted {
            key,
            toward,
            declared,
            payload,
            ..
        } => {
            if !accepts(settings, &key, toward) {
                return Some(Found::Filtered);
            }
            match key.proto {
                Proto::Udp => Some(Found::Taken(Datagram {
                    number,
                    clock,
                    key,
                    toward,
                    declared,
                    payload,
                })),
                Proto::Tcp => None,
            }
        }
        Seen::Skipped(skip) => Some(Found::Passed(skip)),
    }
}
