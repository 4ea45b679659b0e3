ghost use Rattle.std.specs.Prelude.{◌≡◌, ◌+◌, ◌≤◌, length};
ghost use Rattle.porthdr.specs.Kind.{end_at as end_of};

use byteorder::{BigEndian, ByteOrder};
use streamkey::{Addr, End};

/// The end of an address with the port in the two bytes at a place.
pub(crate) fn end_at(addr: Addr, body: &[u8], at: usize) -> End
    requires { at + 2 ≤ length body.now }
    ensures { result ≡ end_of addr body.now at }
{
    End {
        addr,
        port: BigEndian::read_u16(&body[at..]),
    }
}
