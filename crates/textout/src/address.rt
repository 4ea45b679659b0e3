// Addresses of the internet protocol.
ghost use Rattle.std.specs.Prelude.{◌≡◌, ◌<◌, ◌++◌, OnOk, OnErr};
ghost use Rattle.textout.specs.Front.{IsFront};
ghost use Rattle.textout.specs.Addresses.{dotted, grouped, group_at};

use crate::Memory;
use crate::digits::put_hex;
use crate::numbers::{put_number, put_text};

/// Appends an address of version 4: its octets as decimal numbers, joined by dots.
#[tactic(auto, unfolding(crate::specs::Addresses::dotted))]
pub fn put_dotted(out: &mut Vec<u8>, octets: [u8; 4]) -> Result<(), Memory>
    ensures ok { OnOk result (out.new.items ≡ out.old.items ++ dotted octets) }
    ensures err { OnErr result (IsFront out.old.items out.new.items) }
{
    let [a, b, c, d] = octets;
    put_number(out, u64::from(a))?;
    put_text(out, ".")?;
    put_number(out, u64::from(b))?;
    put_text(out, ".")?;
    put_number(out, u64::from(c))?;
    put_text(out, ".")?;
    put_number(out, u64::from(d))
}

fn put_group(out: &mut Vec<u8>, octets: &[u8; 16], i: usize) -> Result<(), Memory>
    requires { i < 8 }
    ensures ok { OnOk result (out.new.items ≡ out.old.items ++ group_at octets.now i) }
    ensures err { OnErr result (out.new.items ≡ out.old.items) }
{
    put_hex(out, &[octets[2 * i], octets[2 * i + 1]])
}

/// Appends an address of version 6: eight groups of four hexadecimal digits in lower case, joined by colons.
#[tactic(auto, unfolding(crate::specs::Addresses::grouped))]
pub fn put_groups(out: &mut Vec<u8>, octets: &[u8; 16]) -> Result<(), Memory>
    ensures ok { OnOk result (out.new.items ≡ out.old.items ++ grouped octets.now) }
    ensures err { OnErr result (IsFront out.old.items out.new.items) }
{
    for i in 0..7 {
        put_group(out, octets, i)?;
        put_text(out, ":")?;
    }
    put_group(out, octets, 7)
}
