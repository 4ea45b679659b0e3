ghost use Rattle.std.specs.Prelude.{◌≡◌, None, OnOk};
ghost use Rattle.workrun.specs.Boundary.{core_in_hand};

use crate::Fault;
use crate::dirs::Granted;
use chunkpart::Chunk;
use evring::{Event, Kept, Way};
use handler::{RuleHandler, RuleList};
use prio_budget::{Charge, Free, Part, PartBytes};
use scap_world::{Sink, WorldFault};
use std::alloc::Global;
use streamkey::{Addr, End, Key, Proto};
use workrun::{WorkTurn, Worker};

/// Counts the bytes that it is given, and keeps none.
#[derive(Drop)]
struct Counter {
    bytes: u64,
}

impl Sink for Counter {
    ghost use Rattle.std.specs.Prelude.{None};

    ghost held = { λ _. None };

    ghost faults = { λ _. 0 };

    fn write(&mut self, piece: &[u8]) -> Result<usize, WorldFault> {
        self.bytes = self.bytes.saturating_add(piece.len() as u64);
        Ok(piece.len())
    }
}

fn key() -> Key {
    let source = End {
        addr: Addr::V4([10, 0, 0, 1]),
        port: 40_000,
    };
    let target = End {
        addr: Addr::V4([10, 0, 0, 2]),
        port: 80,
    };
    let (key, _) = Key::of(Proto::Tcp, source, target);
    key
}

/// A chunk of one part.
fn chunk_of(alloc: Global, start: u64, payload: &[u8]) -> Result<Chunk<Granted>, Fault> {
    let len = u32::try_from(payload.len()).map_err(|_| Fault::Words)?;
    let bytes = PartBytes::of(payload.to_vec(alloc)?);
    let mut chunk = Chunk::new(alloc, start, 0, None);
    if chunk.append(Part::new(bytes, Granted(len))).is_err() {
        return Err(Fault::Memory);
    }
    Ok(chunk)
}

/// So many chunks of a conversation, each behind the one before.
pub fn chunks(alloc: Global, count: u32, payload: &[u8]) -> Result<Vec<Event<Granted>>, Fault> {
    let mut events = Vec::new(alloc);
    let mut start: u64 = 0;
    for _ in 0..count {
        events.push(Event::Chunk {
            conv: 1,
            way: Way::Fore,
            key: key(),
            kept: Kept::none(alloc),
            chunk: chunk_of(alloc, start, payload)?,
        })?;
        start = start.saturating_add(payload.len() as u64);
    }
    Ok(events)
}

/// Serves an event to its answer.
fn serve(
    worker: &mut Worker<RuleHandler, Counter, Granted>,
    event: Event<Granted>,
) -> Result<(), Fault>
    requires { core_in_hand worker.old ≡ None }
    ensures { OnOk result (core_in_hand worker.new ≡ None) }
{
    worker.load(0, event);
    'turns: for _ in 0..1_000_000 {
        match worker.next() {
            Ok(WorkTurn::Free(charge)) => {
                let bytes = charge.amount();
                worker.freed(Free { stamp: 0, bytes });
            }
            Ok(WorkTurn::Answer { .. }) => return Ok(()),
            Ok(WorkTurn::Ready) | Err(_) => return Err(Fault::Memory),
        }
    }
    Err(Fault::Memory)
}

/// Serves events by a worker whose handler wants nothing. Tells how many bytes it wrote.
pub fn served(alloc: Global, events: Vec<Event<Granted>>) -> Result<u64, Fault> {
    let handler = RuleHandler::new(RuleList::none(alloc));
    let mut worker = Worker::new(alloc, handler, Counter { bytes: 0 }, 0, 1, 1);
    'events: for event in events {
        serve(&mut worker, event)?;
    }
    let (sink, _) = worker.into_parts();
    Ok(sink.bytes)
}

/// Copies a text so many times to the same place. Tells how many bytes that are.
pub fn copied(alloc: Global, count: u32, text: &[u8]) -> Result<u64, Fault> {
    let mut copy = Vec::new(alloc);
    let mut bytes: u64 = 0;
    for _ in 0..count {
        copy.clear();
        copy.extend_from_slice(text)?;
        bytes = bytes.saturating_add(copy.len() as u64);
    }
    Ok(bytes)
}
