// Numbers.
ghost use Rattle.std.specs.Prelude.{◌≡◌, ◌≤◌, IfSome};
ghost use Rattle.scapconf.specs.Numbers.{number};

use textout::read_number;

/// The number in a range that one to `most` decimal digits write.
pub(crate) fn number(text: &[u8], most: usize, least: u64, greatest: u64) -> Option<u64>
    ensures number { result ≡ number most least greatest text.now }
    ensures within { IfSome result (λ n. (least ≤ n) × (n ≤ greatest)) }
{
    let value = read_number(text, 10, most, greatest)?;
    if value < least {
        return None;
    }
    Some(value)
}
