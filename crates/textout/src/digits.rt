// Hexadecimal digits.
ghost use Rattle.std.specs.Prelude.{◌≡◌, ◌<◌, ◌+◌, ◌∷◌, ◌++◌, ◌/◌, ◌%◌, [], OnOk, OnErr, slice_index};
ghost use Rattle.hex.specs.Hex.{encode_lower, lower_digits};

use crate::Memory;

const DIGITS: &[u8; 16] = b"0123456789abcdef";

fn digit_of(n: u8) -> u8
    requires { n < 16 }
    ensures { result ≡ slice_index lower_digits n }
{
    DIGITS[n as usize]
}

/// Appends bytes as hexadecimal digits in lower case, two for each.
pub fn put_hex(out: &mut Vec<u8>, bytes: &[u8]) -> Result<(), Memory>
    ensures ok { OnOk result (out.new.items ≡ out.old.items ++ encode_lower bytes.now) }
    ensures err { OnErr result (out.new.items ≡ out.old.items) }
{
    out.reserve(2 * bytes.len())?;
    for byte in bytes {
        out.push(digit_of(*byte / 16))?;
        out.push(digit_of(*byte % 16))?;
    }
    Ok(())
}
