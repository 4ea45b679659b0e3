// Primitives and what they say of a packet.
ghost use Rattle.std.specs.Prelude.{◌≡◌, length};
ghost use Rattle.capfilter.specs.Truth.{agree, same_address, in_net, holds_at, holds_on, is_tcp, is_version_4, prim_holds};

use crate::end_test::EndTest;
use streamkey::{Addr, End, Key, Proto, Toward};

/// The end of a packet that is looked at: one of the two, its source, or its target.
#[derive(Clone, Copy, Debug)]
pub(crate) enum Side {
    Either,
    Source,
    Target,
}

/// What is asked of a packet: its protocol, the version of its addresses, or something of its ends.
#[derive(Clone, Copy, Debug)]
pub(crate) enum Primitive {
    Tcp,
    Udp,
    Ip,
    Ip6,
    OfEnd(Side, EndTest),
}

/// Whether the first bits are the same.
fn first_bits_agree(a: &[u8], b: &[u8], bits: u8) -> bool
    requires { length a.now ≡ length b.now }
    ensures { result ≡ agree bits a.now b.now }
{
    let mut left = bits;
    for i in 0..a.len() {
        if left < 8 {
            let rest = 8 - left;
            return u32::from(a[i]) >> rest == u32::from(b[i]) >> rest;
        }
        if a[i] != b[i] {
            return false;
        }
        left -= 8;
    }
    true
}

fn is_same_address(a: Addr, b: Addr) -> bool
    ensures { result ≡ same_address a b }
{
    match (a, b) {
        (Addr::V4(a), Addr::V4(b)) => a == b,
        (Addr::V6(a), Addr::V6(b)) => a == b,
        _ => false,
    }
}

fn is_in_net(net: Addr, bits: u8, address: Addr) -> bool
    ensures { result ≡ in_net net bits address }
{
    match (net, address) {
        (Addr::V4(a), Addr::V4(b)) => first_bits_agree(&a, &b, bits),
        (Addr::V6(a), Addr::V6(b)) => first_bits_agree(&a, &b, bits),
        _ => false,
    }
}

fn is_of_version_4(address: Addr) -> bool
    ensures { result ≡ is_version_4 address }
{
    match address {
        Addr::V4(_) => true,
        Addr::V6(_) => false,
    }
}

fn is_of_tcp(proto: Proto) -> bool
    ensures { result ≡ is_tcp proto }
{
    match proto {
        Proto::Tcp => true,
        Proto::Udp => false,
    }
}

fn end_passes(test: EndTest, end: End) -> bool
    ensures { result ≡ holds_at test end }
{
    match test {
        EndTest::Host(address) => is_same_address(address, end.addr),
        EndTest::Net(address, bits) => is_in_net(address, bits, end.addr),
        EndTest::Port(port) => port == end.port,
    }
}

fn ends_pass(side: Side, test: EndTest, source: End, target: End) -> bool
    ensures { result ≡ holds_on side test source target }
{
    match side {
        Side::Either => end_passes(test, source) || end_passes(test, target),
        Side::Source => end_passes(test, source),
        Side::Target => end_passes(test, target),
    }
}

impl Primitive {
    /// Whether it holds of a packet of that key and way.
    pub(crate) fn holds(self, key: &Key, toward: Toward) -> bool
        ensures { result ≡ prim_holds self key.now toward }
    {
        match self {
            Primitive::Tcp => is_of_tcp(key.proto),
            Primitive::Udp => !is_of_tcp(key.proto),
            Primitive::Ip => is_of_version_4(key.source(toward).addr),
            Primitive::Ip6 => !is_of_version_4(key.source(toward).addr),
            Primitive::OfEnd(side, test) => {
                ends_pass(side, test, key.source(toward), key.target(toward))
            }
        }
    }
}
