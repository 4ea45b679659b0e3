ghost use Rattle.std.specs.Prelude.{◌≡◌, ◌+◌, ◌%◌, ◌<◌, ◌^◌, pos, ◌+ℤ◌, ◌-ℤ◌, ◌≤ℤ◌, ◌<ℤ◌};
ghost use Rattle.streamdefs.specs.Seqspace.{place as position};

/// A sequence number of TCP. They count the bytes of a direction modulo 2^32.
#[derive(Clone, Copy, Debug, PartialEq, Eq)]
pub struct Seq(pub u32);

/// How many sequence numbers there are.
const NUMBERS: u64 = 0x1_0000_0000;

/// Half of them: how far from the front a position may lie.
const HALF: u32 = 0x8000_0000;

/// The sequence number so many bytes later.
pub fn after(seq: Seq, n: u32) -> Seq
    ensures { result.0 ≡ (seq.0 + n) % 2 ^ 32 }
{
    Seq(seq.0.wrapping_add(n))
}

/// The position of a sequence number in a direction whose position 0 has the number `base`, as seen from the front: the front's
/// own position is the one before which all bytes were passed. It is negative where the number lies before the base.
pub fn place(base: Seq, seq: Seq, front: u64) -> i64
    requires { front < 2 ^ 62 }
    ensures is { result ≡ position base.0 seq.0 front }

    // It lies within 2^31 of the front, the front less 2^31 among them.
    ensures from { (pos front -ℤ pos (2 ^ 31)) ≤ℤ result }
    ensures until { result <ℤ (pos front +ℤ pos (2 ^ 31)) }
{
    let of_front = base.0.wrapping_add((front % NUMBERS) as u32);
    let beyond = seq.0.wrapping_add(HALF).wrapping_sub(of_front);
    (front + u64::from(beyond)) as i64 - i64::from(HALF)
}
