ghost use Rattle.std.specs.Prelude.{◌≡◌};
ghost use Rattle.linkip.specs.Carried.{IsWithinDeclared};
ghost use Rattle.linkip.specs.Views.{carried};
ghost use Rattle.porthdr.specs.Kind.{IsWithin};
ghost use Rattle.porthdr.specs.Transport.{transport as transport_of};
ghost use Rattle.porthdr.specs.Views.{kind};

use crate::tcp::tcp;
use crate::udp::udp;
use crate::{Seen, Skip};
use linkip::Net;

const PROTO_TCP: u8 = 6;

const PROTO_UDP: u8 = 17;

/// What a record is by what its frame carries: a segment of TCP (RFC 9293), a datagram of UDP (RFC 768), or skipped.
pub fn transport(net: Net<'_>) -> Seen<'_>
    requires { IsWithinDeclared (carried net) }
    ensures exact { kind result ≡ transport_of (carried net.entry) }
    ensures within { IsWithin (kind result) }
{
    match net {
        Net::Ip {
            proto: PROTO_TCP,
            source,
            target,
            declared,
            body,
        } => tcp(source, target, declared, body),
        Net::Ip {
            proto: PROTO_UDP,
            source,
            target,
            declared,
            body,
        } => udp(source, target, declared, body),
        Net::Ip { .. } | Net::Other => Seen::Skipped(Skip::Other),
        Net::Fragment => Seen::Skipped(Skip::Fragment),
        Net::Short => Seen::Skipped(Skip::Short),
    }
}
