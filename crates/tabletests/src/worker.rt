// What a worker makes of an event: it gives the charges back, or keeps the chunks, and answers.
ghost use Rattle.std.specs.Prelude.{◌≡◌, IfOk};

use crate::steps::Said;
use chunkpart::Chunk;
use evring::{Advice, Answer, Event, Frees, Kept};
use prio_budget::{Charge, Free, PlainBudget, PlainCharge};
use std::alloc::Global;
use std::test::Fail;

/// A charge is given back.
pub(crate) fn release(budget: &mut PlainBudget, charge: PlainCharge) -> Result<Free, Fail>
    ensures bytes { IfOk result (λ free. free.bytes ≡ charge.amount) }
    ensures limit { budget.new.limit ≡ budget.old.limit }
{
    if charge.amount() > budget.used() {
        return Err("more is given back than is in use".into());
    }
    Ok(budget.release(charge))
}

/// The advice on the event of that number.
pub(crate) fn advice_on(says: &[(u64, Said)], event: u64) -> Advice {
    let none = Advice::none();
    let Some((_, said)) = says.iter().find(|(of, _)| *of == event) else {
        return none;
    };
    match *said {
        Said::Keep => Advice { keep: true, ..none },
        Said::Discard => Advice {
            discard: true,
            ..none
        },
        Said::CutAt(position) => Advice {
            cutoff: Some(position),
            ..none
        },
        Said::Priority(priority) => Advice {
            priority: Some(priority),
            ..none
        },
    }
}

/// The charges of a chunk are given back.
fn give_chunk(
    budget: &mut PlainBudget,
    mut chunk: Chunk<PlainCharge>,
    frees: &mut Vec<Free>,
) -> Result<(), Fail>
    ensures { budget.new.limit ≡ budget.old.limit }
{
    'parts: for _ in 0..chunk.parts() {
        let Some(part) = chunk.take_part() else {
            return Ok(());
        };
        let (_, charge) = part.unpack();
        frees.push(release(budget, charge)?)?;
    }
    Ok(())
}

/// The charges of chunks are given back.
fn give_chunks(
    budget: &mut PlainBudget,
    chunks: Vec<Chunk<PlainCharge>>,
    frees: &mut Vec<Free>,
) -> Result<(), Fail>
    ensures { budget.new.limit ≡ budget.old.limit }
{
    'chunks: for chunk in chunks {
        give_chunk(budget, chunk, frees)?;
    }
    Ok(())
}

/// The chunks of an event, those that were kept before its own.
fn chunks_of(alloc: Global, event: Event<PlainCharge>) -> Result<Vec<Chunk<PlainCharge>>, Fail> {
    match event {
        Event::Chunk { kept, chunk, .. } => {
            let mut chunks = kept.into_vec();
            chunks.push(chunk)?;
            Ok(chunks)
        }
        Event::New { .. } | Event::Ended { .. } => Ok(Vec::new(alloc)),
    }
}

/// The answer to an event.
pub(crate) fn answer_to(
    alloc: Global,
    budget: &mut PlainBudget,
    event: Event<PlainCharge>,
    advice: Advice,
) -> Result<Answer<PlainCharge>, Fail>
    ensures { budget.new.limit ≡ budget.old.limit }
{
    let mut frees = Vec::new(alloc);
    let mut back = Kept::none(alloc);
    let chunks = chunks_of(alloc, event)?;
    if advice.keep {
        back = Kept::of(chunks);
    } else {
        give_chunks(budget, chunks, &mut frees)?;
    }
    Ok(Answer {
        advice,
        frees: Frees::of(frees),
        kept: back,
        drained: false,
    })
}
