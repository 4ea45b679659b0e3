ghost use Rattle.std.specs.Prelude.{◌≤◌};

use crate::{Generator, Memory, write_made};
use scap_world::{MemShelf, Shelf, WorldFault};
use std::alloc::Global;

/// The first record of seed 0: way 1 of flow 62, whose server has port 443; the payload begins at position 75.
const FIRST: [u8; 145] = [
    0x00, 0x00, 0x00, 0x00, 0x00, 0x00, 0x00, 0x00, 0x81, 0x00, 0x00, 0x00, 0x81, 0x00, 0x00, 0x00,
    0x02, 0x00, 0x00, 0x00, 0x00, 0x02, 0x02, 0x00, 0x00, 0x00, 0x00, 0x01, 0x08, 0x00, 0x45, 0x00,
    0x00, 0x73, 0x00, 0x00, 0x00, 0x00, 0x40, 0x06, 0x00, 0x00, 0x0a, 0x01, 0x00, 0x01, 0x0a, 0x00,
    0x00, 0x3f, 0x01, 0xbb, 0x9c, 0x7e, 0xff, 0xff, 0xfc, 0x04, 0x00, 0x00, 0x00, 0x00, 0x50, 0x18,
    0xff, 0xff, 0x00, 0x00, 0x00, 0x00, 0x14, 0x15, 0x16, 0x17, 0x18, 0x19, 0x1a, 0x1b, 0x1c, 0x1d,
    0x1e, 0x1f, 0x20, 0x21, 0x22, 0x23, 0x24, 0x25, 0x26, 0x27, 0x28, 0x29, 0x2a, 0x2b, 0x2c, 0x2d,
    0x2e, 0x2f, 0x30, 0x31, 0x32, 0x33, 0x34, 0x35, 0x36, 0x37, 0x38, 0x39, 0x3a, 0x3b, 0x3c, 0x3d,
    0x3e, 0x3f, 0x40, 0x41, 0x42, 0x43, 0x44, 0x45, 0x46, 0x47, 0x48, 0x49, 0x4a, 0x4b, 0x4c, 0x4d,
    0x4e, 0x4f, 0x50, 0x51, 0x52, 0x53, 0x54, 0x55, 0x56, 0x57, 0x58, 0x59, 0x5a, 0x5b, 0x5c, 0x5d,
    0x5e,
];

/// A digest of bytes (FNV-1a, 64 bits).
fn digest(bytes: &[u8]) -> u64 {
    let mut sum: u64 = 0xcbf2_9ce4_8422_2325;
    for byte in bytes {
        sum = (sum ^ u64::from(*byte)).wrapping_mul(0x100_0000_01b3);
    }
    sum
}

/// A file of so many records of a seed.
fn file_of(alloc: Global, seed: u64, count: u32) -> Result<Vec<u8>, Memory>
    requires { count ≤ 1000000 }
{
    let mut out = Vec::new(alloc);
    pcapfile::put_head(&mut out)?;
    let mut generator = Generator::new(alloc, seed);
    for made in 0..count {
        generator.put_next(&mut out)?;
    }
    Ok(out)
}

/// The file that is written of them.
fn written_of(alloc: Global, seed: u64, count: u32) -> Result<Vec<u8>, WorldFault>
    requires { count ≤ 1000000 }
{
    let mut shelf = MemShelf::new(alloc);
    let mut sink = shelf.create("made")?;
    write_made(alloc, &mut sink, seed, count)?;
    if shelf.finish("made", sink).is_err() {
        return Err(WorldFault::Failed);
    }
    match shelf.file("made") {
        Some(bytes) => Ok(Vec::from_slice(alloc, bytes)?),
        None => Err(WorldFault::Failed),
    }
}

/// Whether it has that length and digest.
fn has_sum<E: Drop>(file: Result<Vec<u8>, E>, len: usize, sum: u64) -> bool {
    match file {
        Ok(bytes) => bytes.len() == len && digest(&bytes) == sum,
        Err(_) => false,
    }
}

#[test]
fn files_are_those_worked_out(rt: HostRuntime) {
    // Length and digest, worked out by another program from the format's words.
    let rows = [
        (0, 0, 24, 0x4cba_59b6_23d9_4d76),
        (0, 2000, 328863, 0xf850_48d9_0e21_75cc),
        (7, 2000, 331444, 0x2420_d00c_3595_43b5),
        (u64::MAX, 500, 82344, 0x5673_15ed_2441_482b),
    ];
    for (seed, count, len, sum) in rows {
        assert!(rt; has_sum(file_of(rt.alloc(), seed, count), len, sum));
        assert!(rt; has_sum(written_of(rt.alloc(), seed, count), len, sum));
    }
}

#[test]
fn the_first_record_is_as_written_out(rt: HostRuntime) {
    let is_right = match &file_of(rt.alloc(), 0, 1) {
        Ok(bytes) => bytes.len() == 169 && &bytes[24..] == FIRST.as_slice(),
        Err(_) => false,
    };
    assert!(rt; is_right);
}
