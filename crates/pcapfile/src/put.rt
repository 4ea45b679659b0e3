// The captures that are written, for whoever makes some: little-endian, microseconds, Ethernet.
ghost use Rattle.std.specs.Prelude.{◌≡◌, ◌≤◌, ◌++◌, OnOk, OnErr, length, take, vec_len};
ghost use Rattle.byteorder.specs.Endian.{little_bytes};
ghost use Rattle.pcapfile.specs.Written.{written_head, written_frame};

use crate::Memory;
use crate::limits::{HEAD_SIZE, LONGEST_RECORD};

/// Version 2.4, snap length 262,144, link type 1.
const HEAD: [u8; HEAD_SIZE] = [
    0xd4, 0xc3, 0xb2, 0xa1, 2, 0, 4, 0, 0, 0, 0, 0, 0, 0, 0, 0, 0, 0, 4, 0, 1, 0, 0, 0,
];

/// Appends the file header of a little-endian capture of Ethernet with microseconds, pcap 2.4.
pub fn put_head(out: &mut Vec<u8>) -> Result<(), Memory>
    ensures ok { OnOk result (out.new.items ≡ out.old.items ++ written_head) }
    ensures err { OnErr result (out.new.items ≡ out.old.items) }
{
    out.extend_from_slice(&HEAD)?;
    Ok(())
}

/// Appends a record of such a capture, all of whose bytes were captured; the fraction is in microseconds.
pub fn put_frame(out: &mut Vec<u8>, seconds: u32, fraction: u32, bytes: &[u8]) -> Result<(), Memory>
    requires { length bytes.now ≤ LONGEST_RECORD }
    ensures ok { OnOk result (out.new.items ≡ out.old.items ++ written_frame seconds fraction bytes.now) }
    ensures err { OnErr result (out.new.items ≡ out.old.items) }
{
    let before = out.len();
    let done = append_frame(out, seconds, fraction, bytes);
    if done.is_err() {
        out.truncate(before);
    }
    done
}

/// Appends a number in four bytes, little-endian.
fn append_number(out: &mut Vec<u8>, number: u32) -> Result<(), Memory>
    ensures ok { OnOk result (out.new.items ≡ out.old.items ++ little_bytes 4 number) }
    ensures err { OnErr result (out.new.items ≡ out.old.items) }
{
    out.extend_from_slice(&number.to_le_bytes())?;
    Ok(())
}

/// Appends the parts of a record, as many as there is memory for.
fn append_frame(out: &mut Vec<u8>, seconds: u32, fraction: u32, bytes: &[u8]) -> Result<(), Memory>
    requires { length bytes.now ≤ LONGEST_RECORD }
    ensures ok { OnOk result (out.new.items ≡ out.old.items ++ written_frame seconds fraction bytes.now) }
    ensures err { OnErr result (take (vec_len out.old) out.new.items ≡ out.old.items) }
{
    let len = bytes.len() as u32;
    append_number(out, seconds)?;
    append_number(out, fraction)?;
    append_number(out, len)?;
    append_number(out, len)?;
    out.extend_from_slice(bytes)?;
    Ok(())
}
