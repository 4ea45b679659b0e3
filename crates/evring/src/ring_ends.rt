ghost use Rattle.std.specs.Prelude.{◌≡◌, ◌≤◌, [], ◌++◌, length, IfOk};

use crate::{Giver, Memory, Taker};
use rtrb::RingBuffer;
use std::alloc::Global;

/// A ring with so many places: what its one end gives, its other end takes in the same order.
pub fn ring<T: Drop>(alloc: Global, places: usize) -> Result<(Giver<T>, Taker<T>), Memory>
    requires { (1 ≤ places) × (places ≤ 256) }
    ensures one { IfOk result (λ r. r.0.ring ≡ r.1.ring) }
    ensures empty { IfOk result (λ r. (r.0.given ≡ []) × (r.1.taken ≡ []) × (r.1.known ≡ [])) }
    ensures free { IfOk result (λ r. r.0.free ≡ places) }
{
    let (producer, consumer) = RingBuffer::new(alloc, places)?;
    Ok((Giver { end: producer }, Taker { end: consumer }))
}

/// The number of items that wait between the two ends of a ring, which the taker knows from then on.
/// What was taken followed by what waits is what was given.
pub fn settle<T>(giver: &mut Giver<T>, taker: &mut Taker<T>) -> usize
    requires { giver.old.ring ≡ taker.old.ring }
    ensures giver { (giver.new.ring ≡ giver.old.ring) × (giver.new.given ≡ giver.old.given) }
    ensures free { giver.old.free ≤ giver.new.free }
    ensures taker { (taker.new.ring ≡ taker.old.ring) × (taker.new.taken ≡ taker.old.taken) }
    ensures waiting { result ≡ length taker.new.known }
    ensures fifo { taker.new.taken ++ taker.new.known ≡ giver.new.given }
{
    taker.end.slots_beside(&mut giver.end)
}
