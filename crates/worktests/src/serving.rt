ghost use Rattle.std.specs.Prelude.{◌≡◌, ◌<◌, ◌≤◌, None, IfOk, OnOk, true};
ghost use Rattle.workrun.specs.Boundary.{core_in_hand, pause};
ghost use Rattle.workrun.specs.Pause.Pause.{Still};

use chunkpart::Chunk;
use evring::{Advice, Answer, Event, Kept, Reason, Way};
use handler::{ChunkView, Handler};
use histbook::WorkList;
use prio_budget::{Answered, Charge, Free, Marks, Part, PartBytes, PlainBudget, PlainCharge};
use scap_world::{FailCall, MemShelf, MemSink, Shelf, Sink, WorldFault};
use std::alloc::Global;
use std::cell::Cell;
use std::mem;
use std::test::Fail;
use streamkey::{Addr, End, Key, Proto, Toward};
use textout::{put_count, put_text};
use workrun::{WorkFault, WorkTurn, Worker};

/// Keeps each chunk that starts below a position, wants nothing else, and counts how often it is asked.
#[derive(Drop)]
struct KeepsBefore<'a> {
    position: u64,
    asked: &'a Cell<u32>,
}

impl<'a> KeepsBefore<'a> {
    fn count(&self) {
        self.asked.set(self.asked.get().saturating_add(1));
    }
}

impl<'a> Handler for KeepsBefore<'a> {
    ghost use Rattle.streamdefs.specs.Rows.{keeps_before};

    ghost advice = { λ h. keeps_before h.position };

    fn created(&self, _conv: u32, _key: &Key, _toward: Toward) -> Advice {
        self.count();
        Advice::none()
    }

    fn chunk(&self, view: &ChunkView) -> Advice {
        self.count();
        if view.start < self.position {
            return Advice {
                keep: true,
                discard: false,
                cutoff: None,
                priority: None,
            };
        }
        Advice::none()
    }

    fn ended(&self, _conv: u32, _reason: Reason) -> Advice {
        self.count();
        Advice::none()
    }
}

/// Counts the bytes that it is given. It takes no memory.
#[derive(Drop)]
struct Counter {
    bytes: usize,
}

impl Sink for Counter {
    ghost use Rattle.std.specs.Prelude.{None};

    ghost held = { λ _. None };

    ghost faults = { λ _. 0 };

    fn write(&mut self, piece: &[u8]) -> Result<usize, WorldFault> {
        self.bytes = self.bytes.saturating_add(piece.len());
        Ok(piece.len())
    }
}

type Tried<'a, K> = Worker<KeepsBefore<'a>, K, PlainCharge>;

/// A chunk: its start, its copy, and its fresh parts, none where they are empty.
#[derive(Clone, Copy)]
struct Piece {
    start: u64,
    copy: &'static str,
    fresh: [&'static str; 2],
}

/// A conversation of datagrams from 10.0.0.1 to 10.0.0.2 with the chunks that its worker is told of; below which position the
/// handler keeps them; the lines; of each answer a word ('k': keep, '.': no advice, '!': drain mode) and its releases;
/// and how many events are served.
#[derive(Clone, Copy)]
struct Row {
    ports: (u16, u16),
    pieces: &'static [Piece],
    position: u64,
    lines: &'static str,
    answers: &'static str,
    served: u64,
}

const ONE_DATAGRAM: Row = Row {
    ports: (5_000, 53),
    pieces: &[Piece {
        start: 0,
        copy: "",
        fresh: ["hi", ""],
    }],
    position: 0,
    lines: "new 1 udp 10.0.0.1 5000 10.0.0.2 53
data 1 > 0 0 0 0 6869
end 1 finish
",
    answers: ".\n. ~2@1\n.\n",
    served: 3,
};

const OVERLAP: Row = Row {
    ports: (40_000, 80),
    pieces: &[
        Piece {
            start: 0,
            copy: "",
            fresh: ["abc", "def"],
        },
        Piece {
            start: 6,
            copy: "ef",
            fresh: ["ghi", ""],
        },
    ],
    position: 0,
    lines: "new 1 udp 10.0.0.1 40000 10.0.0.2 80
data 1 > 0 0 0 0 616263646566
data 1 > 6 0 2 0 6566676869
end 1 finish
",
    answers: ".\n. ~3@4 ~3@5\n. ~2@6 ~3@7\n.\n",
    served: 4,
};

/// As before, where the budget refused the copy.
const NO_COPY: Row = Row {
    pieces: &[
        Piece {
            start: 0,
            copy: "",
            fresh: ["abc", "def"],
        },
        Piece {
            start: 6,
            copy: "",
            fresh: ["ghi", ""],
        },
    ],
    lines: "new 1 udp 10.0.0.1 40000 10.0.0.2 80
data 1 > 0 0 0 0 616263646566
data 1 > 6 0 0 0 676869
end 1 finish
",
    answers: ".\n. ~3@3 ~3@4\n. ~3@5\n.\n",
    ..OVERLAP
};

const KEEP: Row = Row {
    ports: (40_000, 80),
    pieces: &[
        Piece {
            start: 0,
            copy: "",
            fresh: ["abcd", ""],
        },
        Piece {
            start: 4,
            copy: "",
            fresh: ["efgh", ""],
        },
    ],
    position: 4,
    lines: "new 1 udp 10.0.0.1 40000 10.0.0.2 80
data 1 > 0 0 0 0 61626364
data 1 > 4 0 0 4 65666768
end 1 finish
",
    answers: ".\nk\n. ~4@2 ~4@3\n.\n",
    served: 4,
};

/// A part of these bytes, with a charge of the budget.
fn part(alloc: Global, budget: &mut PlainBudget, bytes: &str) -> Result<Part<PlainCharge>, Fail>
    requires { 4096 ≤ budget.old.limit }
    ensures { budget.new.limit ≡ budget.old.limit }
{
    let asked = u32::try_from(bytes.len())?;
    if asked == 0 {
        return Err("no bytes".into());
    }
    let bytes = PartBytes::of(bytes.as_bytes().to_vec(alloc)?);
    let Answered::Granted { charge, .. } = budget.reserve(asked, 4096) else {
        return Err("no grant".into());
    };
    Ok(Part::new(bytes, charge))
}

/// Puts a part behind the others of a chunk, where there are bytes for one.
fn put_part(
    alloc: Global,
    budget: &mut PlainBudget,
    chunk: &mut Chunk<PlainCharge>,
    bytes: &str,
) -> Result<(), Fail>
    requires { 4096 ≤ budget.old.limit }
    ensures { budget.new.limit ≡ budget.old.limit }
{
    if bytes.is_empty() {
        return Ok(());
    }
    let part = part(alloc, budget, bytes)?;
    if part.bytes().len() > 4096 || chunk.fresh_len() > 4096 {
        return Err("too many bytes".into());
    }
    if chunk.append(part).is_err() {
        return Err("the part came back".into());
    }
    Ok(())
}

/// A chunk, whose parts are granted in order.
fn chunk_of(
    alloc: Global,
    budget: &mut PlainBudget,
    piece: Piece,
) -> Result<Chunk<PlainCharge>, Fail>
    requires { 4096 ≤ budget.old.limit }
    ensures { budget.new.limit ≡ budget.old.limit }
{
    let copy = if piece.copy.is_empty() {
        None
    } else {
        Some(part(alloc, budget, piece.copy)?)
    };
    let mut chunk = Chunk::new(alloc, piece.start, 0, copy);
    put_part(alloc, budget, &mut chunk, piece.fresh[0])?;
    put_part(alloc, budget, &mut chunk, piece.fresh[1])?;
    Ok(chunk)
}

/// The events of a row, but for the chunks that were kept before.
fn events_of(
    alloc: Global,
    budget: &mut PlainBudget,
    row: Row,
) -> Result<Vec<Event<PlainCharge>>, Fail>
    requires { 4096 ≤ budget.old.limit }
{
    let source = End {
        addr: Addr::V4([10, 0, 0, 1]),
        port: row.ports.0,
    };
    let target = End {
        addr: Addr::V4([10, 0, 0, 2]),
        port: row.ports.1,
    };
    let (key, _) = Key::of(Proto::Udp, source, target);
    let mut events = Vec::new(alloc);
    events.push(Event::New {
        conv: 1,
        proto: Proto::Udp,
        source,
        target,
    })?;
    for piece in row.pieces {
        events.push(Event::Chunk {
            conv: 1,
            way: Way::Fore,
            key,
            kept: Kept::none(alloc),
            chunk: chunk_of(alloc, budget, *piece)?,
        })?;
    }
    events.push(Event::Ended {
        conv: 1,
        reason: Reason::Finish,
    })?;
    Ok(events)
}

/// The same event, with the chunks that came back with the answer before.
fn with_kept(event: Event<PlainCharge>, back: Kept<PlainCharge>) -> Event<PlainCharge> {
    match event {
        Event::Chunk {
            conv,
            way,
            key,
            chunk,
            ..
        } => Event::Chunk {
            conv,
            way,
            key,
            kept: back,
            chunk,
        },
        other => other,
    }
}

/// What came of serving: the answers' words and releases, how many of them are of drain mode, the chunks that came back last,
/// the write faults, and how often there was no memory.
#[derive(Drop)]
struct Heard {
    alloc: Global,
    answers: Vec<u8>,
    drained: u32,
    kept: Kept<PlainCharge>,
    faults: u32,
    shortages: u32,
}

fn hear(heard: &mut Heard, answer: Answer<PlainCharge>) -> Result<(), Fail> {
    let word = match (answer.drained, answer.advice.keep) {
        (true, _) => "!",
        (false, true) => "k",
        (false, false) => ".",
    };
    put_text(&mut heard.answers, word)?;
    for free in answer.frees.as_slice() {
        put_count(&mut heard.answers, " ~", u64::from(free.bytes))?;
        put_count(&mut heard.answers, "@", u64::from(free.stamp))?;
    }
    put_text(&mut heard.answers, "\n")?;
    if answer.drained {
        heard.drained = heard.drained.saturating_add(1);
    }
    heard.kept = answer.kept;
    Ok(())
}

fn release(budget: &mut PlainBudget, charge: PlainCharge) -> Result<Free, Fail>
    ensures { IfOk result (λ free. free.bytes ≡ charge.amount) }
{
    if charge.amount() > budget.used() {
        return Err("more bytes than are in use".into());
    }
    Ok(budget.release(charge))
}

fn note(heard: &mut Heard, fault: WorkFault) {
    match fault {
        WorkFault::Memory => heard.shortages = heard.shortages.saturating_add(1),
        WorkFault::Write => heard.faults = heard.faults.saturating_add(1),
    }
}

/// One turn of a worker. True: it was the answer.
fn turn<K: Sink>(
    worker: &mut Tried<K>,
    budget: &mut PlainBudget,
    heard: &mut Heard,
) -> Result<bool, Fail>
    requires { pause worker.old ≡ Still }
    ensures still { OnOk result (pause worker.new ≡ Still) }
    ensures done { IfOk result (λ done. done ≡ true → core_in_hand worker.new ≡ None) }
{
    match worker.next() {
        Ok(WorkTurn::Free(charge)) => {
            let free = release(budget, charge)?;
            worker.freed(free);
            Ok(false)
        }
        Ok(WorkTurn::Answer { answer, .. }) => {
            hear(heard, answer)?;
            Ok(true)
        }
        Ok(WorkTurn::Ready) => Err("nothing is in hand".into()),
        Err(fault) => {
            note(heard, fault);
            Ok(false)
        }
    }
}

/// An event from the hand to its answer.
fn serve<K: Sink>(
    worker: &mut Tried<K>,
    budget: &mut PlainBudget,
    heard: &mut Heard,
    event: Event<PlainCharge>,
) -> Result<(), Fail>
    requires { core_in_hand worker.old ≡ None }
    ensures { OnOk result (core_in_hand worker.new ≡ None) }
{
    let back = mem::replace(&mut heard.kept, Kept::none(heard.alloc));
    worker.load(0, with_kept(event, back));
    'turns: for _ in 0..10 {
        if turn(worker, budget, heard)? {
            return Ok(());
        }
    }
    Err("no answer came".into())
}

/// What a row gives where the nth write of at most so many bytes fails.
#[derive(Drop)]
struct Outcome {
    lines: Vec<u8>,
    answers: Vec<u8>,
    drained: u32,
    served: WorkList,
    faults: u32,
    shortages: u32,
    asked: u32,
    used: u32,
}

fn outcome_of(alloc: Global, row: Row, most: usize, nth: u32) -> Result<Outcome, Fail>
    requires { 0 < most }
{
    let asked = Cell::new(0);
    let marks = Marks::new(4096, 4096, 1)?;
    let mut budget = PlainBudget::new(&marks, 0);
    let mut shelf = MemShelf::new(alloc);
    shelf.set_piece(most);
    shelf.fail("lines", FailCall::Write, nth)?;
    let sink = shelf.create("lines")?;
    let handler = KeepsBefore {
        position: row.position,
        asked: &asked,
    };
    let mut worker = Worker::new(alloc, handler, sink, 0, 1, 1);
    let mut heard = Heard {
        alloc,
        answers: Vec::new(alloc),
        drained: 0,
        kept: Kept::none(alloc),
        faults: 0,
        shortages: 0,
    };
    'events: for event in events_of(alloc, &mut budget, row)? {
        serve(&mut worker, &mut budget, &mut heard, event)?;
    }
    let (sink, served) = worker.into_parts();
    shelf.finish("lines", sink)?;
    let lines = shelf.file("lines").ok_or("no lines")?.to_vec(alloc)?;
    Ok(Outcome {
        lines,
        answers: heard.answers,
        drained: heard.drained,
        served,
        faults: heard.faults,
        shortages: heard.shortages,
        asked: asked.get(),
        used: budget.used(),
    })
}

#[test]
fn events_are_served(rt: HostRuntime) -> Result<(), Fail> {
    for row in [ONE_DATAGRAM, OVERLAP, NO_COPY, KEEP] {
        let outcome = outcome_of(rt.alloc(), row, usize::MAX, 9)?;
        assert_eq!(rt; outcome.lines.as_slice(), row.lines.as_bytes());
        assert_eq!(rt; outcome.answers.as_slice(), row.answers.as_bytes());
        assert_eq!(rt; outcome.served.runs(), [(0, row.served)].as_slice());
        assert_eq!(rt;
            (outcome.faults, outcome.shortages, outcome.used),
            (0, 0, 0)
        );
    }
    Ok(())
}

/// Where there is no memory for an event its handler isn't asked, unless it was the sink that had none. What comes behind it is
/// drained, and every charge is released. Here there is memory; `rt try --test --fail-alloc N` refuses the Nth request for some.
#[test]
fn want_of_memory_drains(rt: HostRuntime) -> Result<(), Fail> {
    let outcome = outcome_of(rt.alloc(), KEEP, usize::MAX, 9)?;
    let lines = KEEP.lines.as_bytes();
    assert!(rt; lines.starts_with(outcome.lines.as_slice()));
    let told = outcome.asked.saturating_add(outcome.drained);
    assert!(rt; 4 <= told && told <= 4 + outcome.shortages.min(1));
    assert_eq!(rt; (outcome.faults, outcome.used), (0, 0));
    Ok(())
}

/// Of a row over a sink that takes no memory: how often the handler was asked, how many answers are of drain mode, how often there
/// was no memory, how many bytes were written, and how many are in use at the end.
fn counted(alloc: Global, row: Row) -> Result<(u32, u32, u32, usize, u32), Fail> {
    let asked = Cell::new(0);
    let marks = Marks::new(4096, 4096, 1)?;
    let mut budget = PlainBudget::new(&marks, 0);
    let handler = KeepsBefore {
        position: row.position,
        asked: &asked,
    };
    let mut worker: Tried<Counter> = Worker::new(alloc, handler, Counter { bytes: 0 }, 0, 1, 1);
    let mut heard = Heard {
        alloc,
        answers: Vec::new(alloc),
        drained: 0,
        kept: Kept::none(alloc),
        faults: 0,
        shortages: 0,
    };
    'events: for event in events_of(alloc, &mut budget, row)? {
        serve(&mut worker, &mut budget, &mut heard, event)?;
    }
    let (sink, _) = worker.into_parts();
    Ok((
        asked.get(),
        heard.drained,
        heard.shortages,
        sink.bytes,
        budget.used(),
    ))
}

/// How long the first so many lines are.
fn length_of(lines: &str, count: u32) -> usize {
    let mut left = count;
    let mut length: usize = 0;
    for byte in lines.as_bytes() {
        if left > 0 {
            length = length.saturating_add(1);
            if *byte == b'\n' {
                left -= 1;
            }
        }
    }
    length
}

/// Where the sink takes no memory, the handler is asked of an event only once all its memory was taken: it is asked of each event
/// that isn't drained and of no other, and the lines of these are written whole. As above, `--fail-alloc N` refuses some.
#[test]
fn memory_is_taken_before_the_handler_is_asked(rt: HostRuntime) -> Result<(), Fail> {
    for row in [OVERLAP, KEEP] {
        let (asked, drained, shortages, written, used) = counted(rt.alloc(), row)?;
        assert_eq!(rt; asked.saturating_add(drained), 4);
        assert_eq!(rt;
            (shortages, written, used),
            (drained.min(1), length_of(row.lines, asked), 0)
        );
    }
    Ok(())
}

/// Behind a refused write nothing is written and the handler isn't asked any more, but every charge is released.
#[test]
fn each_write_is_refused(rt: HostRuntime) -> Result<(), Fail> {
    // the most bytes a write, which write fails, the bytes of the lines that are written, how often the handler is asked,
    // and the answers
    let rows = [
        (100, 1, 0, 1, "!\n!\n!\n!\n"),
        (100, 2, 37, 2, ".\n!\n!\n!\n"),
        (100, 3, 63, 3, ".\nk\n!\n!\n"),
        (100, 4, 89, 4, ".\nk\n. ~4@2 ~4@3\n!\n"),
        (16, 1, 0, 1, "!\n!\n!\n!\n"),
        (16, 2, 16, 1, "!\n!\n!\n!\n"),
        (16, 3, 32, 1, "!\n!\n!\n!\n"),
        (16, 4, 37, 2, ".\n!\n!\n!\n"),
        (16, 5, 53, 2, ".\n!\n!\n!\n"),
        (16, 6, 63, 3, ".\nk\n!\n!\n"),
        (16, 7, 79, 3, ".\nk\n!\n!\n"),
        (16, 8, 89, 4, ".\nk\n. ~4@2 ~4@3\n!\n"),
    ];
    for (most, nth, written, asked, answers) in rows {
        let outcome = outcome_of(rt.alloc(), KEEP, most, nth)?;
        let lines = KEEP.lines.as_bytes();
        assert_eq!(rt; outcome.lines.len(), written, "write {nth} of {most}");
        assert!(rt;
            lines.starts_with(outcome.lines.as_slice()),
            "write {nth} of {most}"
        );
        assert_eq!(rt;
            outcome.answers.as_slice(),
            answers.as_bytes(),
            "write {nth} of {most}"
        );
        assert_eq!(rt;
            (outcome.faults, outcome.asked, outcome.used),
            (1, asked, 0),
            "write {nth} of {most}"
        );
    }
    Ok(())
}

#[test]
fn cores_are_looked_at_round(rt: HostRuntime) -> Result<(), Fail> {
    let asked = Cell::new(0);
    let mut shelf = MemShelf::new(rt.alloc());
    let sink = shelf.create("lines")?;
    let handler = KeepsBefore {
        position: 0,
        asked: &asked,
    };
    let mut worker: Tried<MemSink> = Worker::new(rt.alloc(), handler, sink, 1, 2, 6);
    let least_first = [worker.wants(0), worker.wants(1), worker.wants(2)];
    assert_eq!(rt; least_first, [1, 3, 5]);
    worker.load(
        3,
        Event::Ended {
            conv: 1,
            reason: Reason::Finish,
        },
    );
    let next_first = [worker.wants(0), worker.wants(1), worker.wants(2)];
    assert_eq!(rt; next_first, [5, 1, 3]);
    Ok(())
}
