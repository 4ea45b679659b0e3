// Releasing what a chunk holds.
ghost use Rattle.std.specs.Prelude.{◌≡◌, ◌≤◌, None, IfOk};
ghost use Rattle.datagrams.specs.Flow.{chunk_of, size};
ghost use Rattle.datagrams.specs.Released.{frees_from, freed_of};

use crate::Memory;
use chunkpart::Chunk;
use prio_budget::{Free, PlainBudget, PlainCharge};
use std::alloc::Global;

/// Releases all charges of a chunk, in order, and tells what each release found. At want of memory all are released too.
pub fn release_chunk(
    alloc: Global,
    budget: &mut PlainBudget,
    mut chunk: Chunk<PlainCharge>,
) -> Result<Vec<Free>, Memory>
    requires bare { chunk.tail ≡ None }
    requires held { size (chunk_of chunk).parts ≤ budget.old.used }
    ensures budget { budget.new ≡ freed_of (chunk_of chunk).parts budget.old }
    ensures frees { IfOk result (λ frees. frees.items ≡ frees_from budget.old.stamp (chunk_of chunk).parts) }
{
    let mut frees = Vec::new(alloc);
    let mut full = false;
    while let Some(part) = chunk.take_part() {
        let (_, charge) = part.unpack();
        let free = budget.release(charge);
        if !full && frees.push(free).is_err() {
            full = true;
        }
    }
    if full {
        return Err(Memory);
    }
    Ok(frees)
}
