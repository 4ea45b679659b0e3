// Hosts, nets and ports in a text.
ghost use Rattle.std.specs.Prelude.{◌≡◌, ◌≤◌, [], ◌∷◌, IfSome};
ghost use Rattle.capfilter.specs.Ends.{width, bits, net_parts, end_test, is_end_test, has_leading_zero};
ghost use Rattle.capfilter.specs.Numbers.{parts};

use crate::address::address_of;
use crate::parts::cut;
use streamkey::Addr;
use textout::read_number;

/// What is asked of one end of a packet: its address, the first bits of its address, or its port.
#[derive(Clone, Copy, Debug)]
pub(crate) enum EndTest {
    Host(Addr),
    Net(Addr, u8),
    Port(u16),
}

/// The words that such a test begins with.
#[derive(Clone, Copy, Debug)]
pub(crate) enum Field {
    Host,
    Net,
    Port,
}

fn width_of(address: Addr) -> u64
    ensures { result ≡ width address }
{
    match address {
        Addr::V4(_) => 32,
        Addr::V6(_) => 128,
    }
}

fn leads_with_zero(digits: &[u8]) -> bool
    ensures { result ≡ has_leading_zero digits.now }
{
    match digits {
        [first, _, ..] => *first == b'0',
        _ => false,
    }
}

fn bits_of(text: &[u8], most: u64) -> Option<u64>
    requires { most ≤ 128 }
    ensures bits { result ≡ bits most text.now }
    ensures within { IfSome result (λ n. n ≤ most) }
{
    if leads_with_zero(text) {
        return None;
    }
    read_number(text, 10, 3, most)
}

fn net_between(front: &[u8], back: &[u8]) -> Option<EndTest>
    ensures { result ≡ net_parts (front.now ∷ back.now ∷ []) }
{
    let address = address_of(front)?;
    let bits = bits_of(back, width_of(address))?;
    Some(EndTest::Net(address, bits as u8))
}

fn net_of(text: &[u8]) -> Option<EndTest>
    ensures { result ≡ net_parts (parts 47 text.now) }
{
    let (front, rest) = cut(text, b'/');
    let (back, more) = cut(rest?, b'/');
    match more {
        None => net_between(front, back),
        Some(_) => None,
    }
}

/// What a text says behind that word.
#[tactic(auto, unfolding(crate::specs::Ends::end_test))]
pub(crate) fn end_test_of(field: Field, text: &[u8]) -> Option<EndTest>
    ensures { result ≡ end_test field text.now }
{
    match field {
        Field::Host => Some(EndTest::Host(address_of(text)?)),
        Field::Net => net_of(text),
        Field::Port => Some(EndTest::Port(read_number(text, 10, 5, 65_535)? as u16)),
    }
}

/// Whether a text can stand behind one of these words.
#[tactic(auto, unfolding(crate::specs::Ends::is_end_test))]
pub(crate) fn can_be_end_test(text: &[u8]) -> bool
    ensures { result ≡ is_end_test text.now }
{
    end_test_of(Field::Host, text).is_some()
        || end_test_of(Field::Net, text).is_some()
        || end_test_of(Field::Port, text).is_some()
}
