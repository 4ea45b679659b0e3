// Numbers in a text.
ghost use Rattle.std.specs.Prelude.{◌≡◌, ◌≤◌, ◌+◌, ◌*◌, ◌^◌, ◌⊎◌, MatchOption, IfSome, true, false};
ghost use Rattle.std.specs.Char.{digit_value, is_digit};
ghost use Rattle.std.specs.List.{list_all};
ghost use Rattle.std.specs.Str.Parse.{digits_value};
ghost use Rattle.textout.specs.Numbers.{number};

/// A number with one digit more.
fn with_digit(value: u64, radix: u32, byte: u8) -> Option<u64>
    requires low { 2 ≤ radix }
    requires high { radix ≤ 36 }
    ensures { MatchOption result
        ((is_digit byte radix ≡ false) ⊎ (2 ^ 64 ≤ value * radix + digit_value byte))
        (λ more. (is_digit byte radix ≡ true) × (more ≡ value * radix + digit_value byte)) }
{
    let digit = char::from(byte).to_digit(radix)?;
    let shifted = value.checked_mul(u64::from(radix))?;
    shifted.checked_add(u64::from(digit))
}

/// The number that digits of a radix write.
fn value_of(text: &[u8], radix: u32) -> Option<u64>
    requires low { 2 ≤ radix }
    requires high { radix ≤ 36 }
    ensures { MatchOption result
        ((list_all (λ c. is_digit c radix) text.now ≡ false) ⊎ (2 ^ 64 ≤ digits_value radix text.now))
        (λ value. (list_all (λ c. is_digit c radix) text.now ≡ true) × (value ≡ digits_value radix text.now)) }
{
    let mut value: u64 = 0;
    for byte in text {
        value = with_digit(value, radix, *byte)?;
    }
    Some(value)
}

/// The number that one to `most` digits of a radix write, where it is at most `greatest`. Zeros may lead, and letters
/// are of either case.
pub fn read_number(text: &[u8], radix: u32, most: usize, greatest: u64) -> Option<u64>
    requires low { 2 ≤ radix }
    requires high { radix ≤ 36 }
    ensures number { result ≡ number radix most greatest text.now }
    ensures within { IfSome result (λ n. n ≤ greatest) }
{
    if text.is_empty() {
        return None;
    }
    if most < text.len() {
        return None;
    }
    let value = value_of(text, radix)?;
    if greatest < value {
        return None;
    }
    Some(value)
}
