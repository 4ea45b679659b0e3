// What words stand for.
ghost use Rattle.std.specs.Prelude.{◌≡◌, Some, None, MatchOption};
ghost use Rattle.scapconf.specs.Values.{mode, policy, size, time, cutoff, class_cut, class_priority, budget};

use crate::number::number;
use crate::size::Size;
use crate::time::Time;
use cutclass::Cut;
use overpolicy::{Mode, Policy};

/// The most digits of a number, and of a cutoff.
const DIGITS: usize = 10;

const CUTOFF_DIGITS: usize = 20;

const GREATEST_PRIORITY: u64 = 15;

const NANOSECONDS_OF_MILLISECOND: u64 = 1_000_000;

#[tactic(auto, unfolding(crate::specs::Values::mode))]
pub(crate) fn mode(word: &[u8]) -> Option<Mode>
    ensures { result ≡ mode word.now }
{
    if word == "strict".as_bytes() {
        Some(Mode::Strict)
    } else if word == "fast".as_bytes() {
        Some(Mode::Fast)
    } else {
        None
    }
}

#[tactic(auto, unfolding(crate::specs::Values::policy))]
pub(crate) fn policy(word: &[u8]) -> Option<Policy>
    ensures { result ≡ policy word.now }
{
    if word == "first".as_bytes() {
        Some(Policy::First)
    } else if word == "last".as_bytes() {
        Some(Policy::Last)
    } else if word == "bsd".as_bytes() {
        Some(Policy::Bsd)
    } else if word == "linux".as_bytes() {
        Some(Policy::Linux)
    } else {
        None
    }
}

#[tactic(auto, unfolding(crate::specs::Values::size))]
pub(crate) fn size(which: Size, word: &[u8]) -> Option<u32>
    ensures { result ≡ size which word.now }
{
    let bytes = number(word, DIGITS, which.least(), which.greatest())?;
    Some(bytes as u32)
}

/// In nanoseconds.
#[tactic(auto, unfolding(crate::specs::Values::time))]
pub(crate) fn time(which: Time, word: &[u8]) -> Option<u64>
    ensures { result ≡ time which word.now }
{
    let milliseconds = number(word, DIGITS, which.least(), which.greatest())?;
    Some(milliseconds * NANOSECONDS_OF_MILLISECOND)
}

#[tactic(auto, unfolding(crate::specs::Values::cutoff))]
pub(crate) fn cutoff(word: &[u8]) -> Option<Cut>
    ensures { result ≡ cutoff word.now }
{
    if word == "none".as_bytes() {
        return Some(Cut::Endless);
    }
    let at = number(word, CUTOFF_DIGITS, 0, u64::MAX)?;
    Some(Cut::At(at))
}

#[tactic(auto, unfolding(crate::specs::Values::class_cut))]
pub(crate) fn class_cut(word: &[u8]) -> Option<Cut>
    ensures { result ≡ class_cut word.now }
{
    if word == "-".as_bytes() {
        return Some(Cut::Unset);
    }
    cutoff(word)
}

#[tactic(auto, unfolding(crate::specs::Values::class_priority))]
pub(crate) fn class_priority(word: &[u8]) -> Option<u8>
    ensures { result ≡ class_priority word.now }
{
    let priority = number(word, DIGITS, 0, GREATEST_PRIORITY)?;
    Some(priority as u8)
}

/// The limit, the base and the count of a budget.
#[tactic(auto, unfolding(crate::specs::Values::budget))]
pub(crate) fn budget(limit: &[u8], base: &[u8], count: &[u8]) -> Option<(u32, u32, u8)>
    ensures { MatchOption result (budget limit.now base.now count.now ≡ None)
        (λ n. budget limit.now base.now count.now ≡ Some (record { limit = n.0; base = n.1; count = n.2 })) }
{
    let limit = number(limit, DIGITS, 0, u64::from(u32::MAX))?;
    let base = number(base, DIGITS, 0, u64::from(u32::MAX))?;
    let count = number(count, DIGITS, 0, u64::from(u8::MAX))?;
    Some((limit as u32, base as u32, count as u8))
}
