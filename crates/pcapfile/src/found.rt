ghost use Rattle.std.specs.Prelude.{◌≡◌, ◌+◌, ◌≤◌, ◌<◌, ◌^◌, length};
ghost use Rattle.pcapfile.specs.Capture.{moment_of, is_past as passes, place_of, record_at};
ghost use Rattle.pcapfile.specs.Reading.{Finds};

use crate::limits::{HEADER_SIZE, LONGEST_RECORD};
use crate::number::u32_of;
use crate::{FileHead, FrameFault};

/// The nanoseconds of a second, and of a microsecond.
const SECOND: u64 = 1_000_000_000;

const MICROSECOND: u64 = 1000;

/// What stands at a place.
#[derive(Clone, Copy)]
pub(crate) enum Found {
    /// Too few bytes to tell.
    Open,
    Fault(FrameFault),
    /// A record with so many bytes behind its header.
    Record { moment: u64, len: usize },
}

/// Whether so many bytes from an offset end past the most bytes, and the file has a byte past them.
fn is_past(most_bytes: u64, at: u64, len: u64, rest: &[u8]) -> bool
    requires len { at + len < 2 ^ 64 }
    requires rest { at + length rest.now < 2 ^ 64 }
    ensures { result ≡ passes most_bytes at len rest.now }
{
    most_bytes < at + len && most_bytes < at + rest.len() as u64
}

/// The moment in the header of a record, in nanoseconds.
fn moment_in(head: FileHead, header: &[u8]) -> u64
    requires { 16 ≤ length header.now }
    ensures { result ≡ moment_of head header.now }
{
    let seconds = u64::from(u32_of(head.big, header));
    let fraction = u64::from(u32_of(head.big, &header[4..]));
    seconds * SECOND
        + if head.nanos {
            fraction
        } else {
            fraction * MICROSECOND
        }
}

/// What the header of a record begins, whose bytes and all behind them are given.
#[tactic(auto, unfolding(crate::specs::Capture::record_at))]
fn record_in(head: FileHead, most_frames: u32, most_bytes: u64, at: u64, rest: &[u8]) -> Found
    requires header { 16 ≤ length rest.now }
    requires fits { at + length rest.now + 2 ^ 20 < 2 ^ 64 }
    ensures { Finds (record_at head (record { frames = most_frames; bytes = most_bytes }) at rest.now) at rest.now result }
{
    let len = u32_of(head.big, &rest[8..]);
    if len > LONGEST_RECORD {
        return Found::Fault(FrameFault::TooBig { at, len });
    }
    let size = HEADER_SIZE as u64 + u64::from(len);
    if is_past(most_bytes, at, size, rest) {
        return Found::Fault(FrameFault::TooLong);
    }
    if (rest.len() as u64) < size {
        return Found::Open;
    }
    Found::Record {
        moment: moment_in(head, rest),
        len: len as usize,
    }
}

/// What stands at an offset behind so many records, where these bytes are left of the file so far.
#[tactic(auto, unfolding(crate::specs::Capture::place_of))]
pub(crate) fn found_at(
    head: FileHead,
    most_frames: u32,
    most_bytes: u64,
    at: u64,
    count: u32,
    rest: &[u8],
) -> Found
    requires { at + length rest.now + 2 ^ 20 < 2 ^ 64 }
    ensures { Finds (place_of head (record { frames = most_frames; bytes = most_bytes }) at count rest.now) at rest.now result }
{
    if rest.is_empty() {
        return Found::Open;
    }
    if count >= most_frames {
        return Found::Fault(FrameFault::TooLong);
    }
    if is_past(most_bytes, at, HEADER_SIZE as u64, rest) {
        return Found::Fault(FrameFault::TooLong);
    }
    if rest.len() < HEADER_SIZE {
        return Found::Open;
    }
    record_in(head, most_frames, most_bytes, at, rest)
}
