// Words and decimal numbers.
ghost use Rattle.std.specs.Prelude.{◌≡◌, ◌++◌, OnOk, OnErr};
ghost use Rattle.std.specs.Fmt.{decimal};
ghost use Rattle.textout.specs.Front.{IsFront};
ghost use Rattle.textout.specs.Texts.{spaced};

use crate::Memory;
use itoa::Buffer;

/// Appends a text.
pub fn put_text(out: &mut Vec<u8>, text: &str) -> Result<(), Memory>
    ensures ok { OnOk result (out.new.items ≡ out.old.items ++ text.now) }
    ensures err { OnErr result (out.new.items ≡ out.old.items) }
{
    out.extend_from_slice(text.as_bytes())?;
    Ok(())
}

/// Appends a number in decimal digits.
pub fn put_number(out: &mut Vec<u8>, n: u64) -> Result<(), Memory>
    ensures ok { OnOk result (out.new.items ≡ out.old.items ++ decimal n) }
    ensures err { OnErr result (out.new.items ≡ out.old.items) }
{
    let mut digits = Buffer::new();
    put_text(out, digits.format(n))
}

/// Appends a number behind a label.
pub fn put_count(out: &mut Vec<u8>, label: &str, n: u64) -> Result<(), Memory>
    ensures ok { OnOk result (out.new.items ≡ out.old.items ++ label.now ++ decimal n) }
    ensures err { OnErr result (IsFront out.old.items out.new.items) }
{
    put_text(out, label)?;
    put_number(out, n)
}

/// Appends numbers, each behind a space.
pub fn put_numbers(out: &mut Vec<u8>, numbers: &[u64]) -> Result<(), Memory>
    ensures ok { OnOk result (out.new.items ≡ out.old.items ++ spaced numbers.now) }
    ensures err { OnErr result (IsFront out.old.items out.new.items) }
{
    for n in numbers {
        put_count(out, " ", *n)?;
    }
    Ok(())
}
