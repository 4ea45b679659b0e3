// A replay over all packets of a capture, from nothing to the journal and the texts.
ghost use Rattle.std.specs.Prelude.{◌≡◌, ℕ, ◌+◌, ◌<◌, ◌^◌, List, [], ◌∷◌, length, map, All, IfOk, OnOk, replicate};
ghost use Rattle.histbook.specs.Runs.{HasShortRuns};
ghost use Rattle.streamdefs.specs.Lists.{Each, total};
ghost use Rattle.streamdefs.specs.Packet.{Packet};
ghost use Rattle.streamdefs.specs.Terms.{Terms};
ghost use Rattle.datagrams.specs.Capture.{marks_of, packet_for, IsCapture, IsReplay};
ghost use Rattle.datagrams.specs.Sound.{came_bytes, IsEven};
ghost use Rattle.datagrams.specs.Stands.{IsShut, Stands};

use crate::course::{end_all, take_all};
use crate::{Datagram, Made, Memory, Replay, WholeReplay};
use histbook::{Books, CoreEntry, EntryList, Journal, Served, WorkList};
use prio_budget::{Marks, PlainBudget};
use std::alloc::Global;

/// The list of a worker that served core 0 so many times.
fn served_by(alloc: Global, times: u64) -> Result<WorkList, Memory>
    ensures { IfOk result (λ list. list ≡ replicate times 0) }
{
    let mut list = WorkList::new(alloc);
    if times > 0 && list.push(0, times).is_err() {
        return Err(Memory);
    }
    Ok(list)
}

/// The journal of one core and one worker.
#[tactic(auto, using(crate::proofs::WholeLemmas::short_workers))]
fn journal_of(alloc: Global, book: Vec<CoreEntry>, answered: u64) -> Result<Journal, Memory>
    ensures journal { IfOk result (λ journal. (journal.cores ≡ book.items ∷ []) × (journal.workers ≡ replicate answered 0 ∷ [])) }
    ensures short { IfOk result (λ journal. All HasShortRuns journal.workers) }
{
    let list = served_by(alloc, answered)?;
    let mut cores = Vec::new(alloc);
    cores.push(EntryList::of(book))?;
    let mut workers = Vec::new(alloc);
    workers.push(list)?;
    Ok(Journal {
        cores: Books::of(cores),
        workers: Served::of(workers),
    })
}

/// What is known of a replay whose conversations have ended, and whose events are told.
fn whole_of(alloc: Global, made: Made, stamps: u32) -> Result<WholeReplay, Memory>
    ensures journal { IfOk result (λ whole. (whole.journal.cores ≡ made.book.items ∷ []) × (whole.journal.workers ≡ replicate made.answered 0 ∷ [])) }
    ensures same { IfOk result (λ whole. (whole.text.items ≡ made.text.items) × (whole.table ≡ made.table) × (whole.stamps ≡ stamps) × (whole.peak ≡ made.peak) × (whole.refused ≡ made.refused)) }
    ensures short { IfOk result (λ whole. All HasShortRuns whole.journal.workers) }
{
    let journal = journal_of(alloc, made.book, made.answered)?;
    Ok(WholeReplay {
        text: made.text,
        journal,
        table: made.table,
        stamps,
        peak: made.peak,
        refused: made.refused,
    })
}

/// Puts together what a replay made, which holds nothing any more.
fn finish(alloc: Global, replay: Replay) -> (PlainBudget, Result<WholeReplay, Memory>)
    requires calm { replay.waiting ≡ [] }
    requires shut { Each IsShut replay.table }
    ensures used { result.0.used ≡ 0 }
    ensures even { IfOk result.1 (λ whole. Each IsEven whole.table) }
    ensures came { IfOk result.1 (λ whole. total came_bytes whole.table < 2 ^ 64) }
    ensures short { IfOk result.1 (λ whole. All HasShortRuns whole.journal.workers) }
    ensures whole { IfOk result.1 (λ whole. (t : Terms) (last first : ℕ) (packets : List Packet) → Stands t last first packets packets (length replay.table) replay
        → IsReplay t packets last whole.journal whole.text.items whole.table whole.stamps whole.peak whole.refused) }
{
    let (budget, made) = replay.into_parts();
    let stamps = budget.stamp();
    let whole = whole_of(alloc, made, stamps);
    (budget, whole)
}

/// Takes all packets and ends all conversations.
fn run(
    alloc: Global,
    replay: &mut Replay,
    packets: &[Datagram<'_>],
    last: u64,
) -> Result<(), Memory>
    requires { replay.old.came + total (λ p. length p.payload.now) packets.now < 2 ^ 32 }
    ensures calm { OnOk result (replay.new.waiting ≡ []) }
    ensures shut { OnOk result (Each IsShut replay.new.table) }
    ensures stands { (t : Terms) (first : ℕ) → IsCapture t first (map packet_for packets.now) → last < first + t.idle → Stands t last first (map packet_for packets.now) [] 0 replay.old
        → OnOk result (Stands t last first (map packet_for packets.now) (map packet_for packets.now) (length replay.new.table) replay.new) }
{
    take_all(alloc, replay, packets)?;
    end_all(alloc, replay, last)
}

/// Replays a capture's datagrams on a fresh budget: asks for each, delivers chunks of at least `chunk_size` bytes, and ends all
/// conversations at the last clock. The budget comes back with nothing in use, also at want of memory.
pub fn replay_all(
    alloc: Global,
    marks: &Marks,
    chunk_size: u64,
    packets: &[Datagram<'_>],
    last: u64,
) -> (PlainBudget, Result<WholeReplay, Memory>)
    requires { total (λ p. length p.payload.now) packets.now < 2 ^ 32 }
    ensures used { result.0.used ≡ 0 }
    ensures even { IfOk result.1 (λ whole. Each IsEven whole.table) }
    ensures came { IfOk result.1 (λ whole. total came_bytes whole.table < 2 ^ 64) }
    ensures short { IfOk result.1 (λ whole. All HasShortRuns whole.journal.workers) }
    ensures whole { IfOk result.1 (λ whole. (t : Terms) (first : ℕ) → t.marks ≡ marks_of marks.now → t.chunk ≡ chunk_size
        → IsCapture t first (map packet_for packets.now) → last < first + t.idle
        → IsReplay t (map packet_for packets.now) last whole.journal whole.text.items whole.table whole.stamps whole.peak whole.refused) }
{
    let mut replay = Replay::new(alloc, marks, chunk_size);
    match run(alloc, &mut replay, packets, last) {
        Ok(()) => finish(alloc, replay),
        Err(memory) => (replay.close(alloc), Err(memory)),
    }
}
