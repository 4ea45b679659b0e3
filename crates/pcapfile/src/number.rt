ghost use Rattle.std.specs.Prelude.{◌≡◌, ◌≤◌, length};
ghost use Rattle.pcapfile.specs.Head.{number as number_in};

use byteorder::{BigEndian, ByteOrder, LittleEndian};

/// The number in the first two bytes, in the file's order.
pub(crate) fn u16_of(big: bool, bytes: &[u8]) -> u16
    requires { 2 ≤ length bytes.now }
    ensures { result ≡ number_in big 2 bytes.now }
{
    if big {
        BigEndian::read_u16(bytes)
    } else {
        LittleEndian::read_u16(bytes)
    }
}

/// The number in the first four bytes, in the file's order.
pub(crate) fn u32_of(big: bool, bytes: &[u8]) -> u32
    requires { 4 ≤ length bytes.now }
    ensures { result ≡ number_in big 4 bytes.now }
{
    if big {
        BigEndian::read_u32(bytes)
    } else {
        LittleEndian::read_u32(bytes)
    }
}
