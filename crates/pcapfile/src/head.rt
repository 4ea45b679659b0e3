ghost use Rattle.std.specs.Prelude.{◌≡◌, ◌≤◌, OnOk, length};

use crate::limits::HEAD_SIZE;
use crate::number::{u16_of, u32_of};
use crate::{HeadFault, Link};

/// The major version that is read.
const MAJOR: u16 = 2;

const BIG_MICROS: [u8; 4] = [0xa1, 0xb2, 0xc3, 0xd4];

const LITTLE_MICROS: [u8; 4] = [0xd4, 0xc3, 0xb2, 0xa1];

const BIG_NANOS: [u8; 4] = [0xa1, 0xb2, 0x3c, 0x4d];

const LITTLE_NANOS: [u8; 4] = [0x4d, 0x3c, 0xb2, 0xa1];

const NEWER_FORMAT: [u8; 4] = [0x0a, 0x0d, 0x0d, 0x0a];

/// The file header of pcap 2.4.
#[derive(Clone, Copy, Debug, PartialEq, Eq)]
pub struct FileHead {
    /// Whether numbers are big-endian.
    pub big: bool,
    /// Whether fractions of a second are nanoseconds; else they are microseconds.
    pub nanos: bool,
    pub link: Link,
}

impl FileHead {
    ghost use Rattle.pcapfile.specs.Head.{head_of, magic_of};

    /// Reads the file header of a capture, which stands in the first 24 bytes. Of several faults the first in the
    /// order of `HeadFault` is answered.
    #[tactic(auto, unfolding(crate::specs::Head::head_of))]
    pub fn read(bytes: &[u8]) -> Result<FileHead, HeadFault>
        ensures first { result ≡ head_of bytes.now }
        ensures whole { OnOk result (24 ≤ length bytes.now) }
    {
        if bytes.len() < HEAD_SIZE {
            return Err(HeadFault::Short);
        }
        if &bytes[..4] == NEWER_FORMAT.as_slice() {
            return Err(HeadFault::PcapNg);
        }
        let Some((big, nanos)) = FileHead::magic(bytes) else {
            return Err(HeadFault::Magic);
        };
        if u16_of(big, &bytes[4..]) != MAJOR {
            return Err(HeadFault::Major);
        }
        match Link::of(u32_of(big, &bytes[20..]) % 65_536) {
            Some(link) => Ok(FileHead { big, nanos, link }),
            None => Err(HeadFault::Link),
        }
    }

    /// Whether numbers are big-endian and fractions nanoseconds, by the first four bytes.
    fn magic(bytes: &[u8]) -> Option<(bool, bool)>
        requires { 4 ≤ length bytes.now }
        ensures { result ≡ magic_of bytes.now }
    {
        let magic = &bytes[..4];
        if magic == BIG_MICROS.as_slice() {
            Some((true, false))
        } else if magic == LITTLE_MICROS.as_slice() {
            Some((false, false))
        } else if magic == BIG_NANOS.as_slice() {
            Some((true, true))
        } else if magic == LITTLE_NANOS.as_slice() {
            Some((false, true))
        } else {
            None
        }
    }
}
