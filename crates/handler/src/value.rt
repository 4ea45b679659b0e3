// What words stand for.
ghost use Rattle.std.specs.Prelude.{◌≡◌};
ghost use Rattle.handler.specs.Values.{port, position, priority};

use textout::read_number;

/// The most digits of a number, and of a position.
const DIGITS: usize = 10;

const POSITION_DIGITS: usize = 20;

const GREATEST_PRIORITY: u64 = 15;

#[tactic(auto, unfolding(crate::specs::Values::port))]
pub(crate) fn port(word: &[u8]) -> Option<u16>
    ensures { result ≡ port word.now }
{
    let port = read_number(word, 10, DIGITS, u64::from(u16::MAX))?;
    Some(port as u16)
}

#[tactic(auto, unfolding(crate::specs::Values::position))]
pub(crate) fn position(word: &[u8]) -> Option<u64>
    ensures { result ≡ position word.now }
{
    read_number(word, 10, POSITION_DIGITS, u64::MAX)
}

#[tactic(auto, unfolding(crate::specs::Values::priority))]
pub(crate) fn priority(word: &[u8]) -> Option<u8>
    ensures { result ≡ priority word.now }
{
    let priority = read_number(word, 10, DIGITS, GREATEST_PRIORITY)?;
    Some(priority as u8)
}
