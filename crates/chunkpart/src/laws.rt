//! What the definitions of a chunk mean, each as the contract of a function that does nothing.
ghost use Rattle.std.specs.Prelude.{◌≡◌, ℕ, ◌+◌, All, length, option_map, slice_get};
ghost use Rattle.std.specs.List.{enumerate_from};
ghost use Rattle.chunkpart.specs.Parts.{IsPaid, charged_bytes};
ghost use Rattle.chunkpart.specs.ChunkParts.{copied_bytes, fresh_bytes, parts_of, shown_bytes};
ghost use Rattle.chunkpart.specs.Positions.{placed_bytes};

use crate::Chunk;
use prio_budget::Charge;

/// The fresh bytes of a chunk of which none was taken stand at the positions from its start on without a break, and are
/// shown behind the copy.
pub fn fresh_bytes_stand_from_the_start<C: Charge>(chunk: &Chunk<C>)
    ensures unbroken { placed_bytes chunk.now.start chunk.now.fresh ≡ enumerate_from chunk.now.start (fresh_bytes chunk.now) }
    ensures placed { (k : ℕ) → slice_get (placed_bytes chunk.now.start chunk.now.fresh) k ≡ option_map (λ byte. (chunk.now.start + k, byte)) (slice_get (fresh_bytes chunk.now) k) }
    ensures shown { (k : ℕ) → slice_get (shown_bytes chunk.now) (length (copied_bytes chunk.now) + k) ≡ slice_get (fresh_bytes chunk.now) k }
{}

/// Each part's charge has one byte for each byte of the part.
pub fn each_charge_pays_for_its_part<C: Charge>(chunk: &Chunk<C>)
    ensures { All (IsPaid C.amount) (parts_of chunk.now) }
{
    if let Some(copy) = &chunk.tail {
        let _ = copy.bytes();
    }
    let _ = chunk.fresh_len;
}

/// The charges of a chunk add up to the bytes that it shows.
pub fn charges_pay_for_the_bytes<C: Charge>(chunk: &Chunk<C>)
    ensures { charged_bytes C.amount (parts_of chunk.now) ≡ length (shown_bytes chunk.now) }
{
    each_charge_pays_for_its_part(chunk);
}
