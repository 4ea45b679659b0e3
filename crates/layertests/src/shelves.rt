// Shelves by scripts: each step is a call, or several, with what they answer.
use scap_world::{FailCall, FileShelf, MemShelf, Shelf, Sink, Source, WorldFault, write_whole};
use std::alloc::Global;
use std::process::Abort;
use std::test::Fail;

type Bytes = &'static [u8];

#[derive(Clone, Copy)]
enum Step {
    Add(&'static str, Bytes),
    Fail(&'static str, FailCall, u32),
    /// At most so many bytes go in one read or write from here on.
    Piece(usize),
    /// What a file holds; None where it is not there.
    File(&'static str, Option<Bytes>),
    /// A file holds a front of these bytes.
    Front(&'static str, Bytes),
    /// The reads of one open: into how many bytes, and what they give.
    Read(&'static str, &'static [(usize, Bytes)]),
    /// Opening or the read is a fault.
    NoRead(&'static str),
    /// The writes of one create, and how many bytes each takes.
    Pieces(&'static str, &'static [(Bytes, usize)]),
    /// A whole file is written.
    Write(&'static str, Bytes),
    /// Creating, writing or finishing is a fault.
    NoWrite(&'static str, Bytes),
    /// `in` is read and `out` written, and that is done or a fault.
    Round(Bytes, bool),
}

/// Whether reads give these parts.
fn gives<S: Source>(source: &mut S, parts: &[(usize, Bytes)]) -> Result<bool, WorldFault> {
    for (room, part) in parts {
        let mut into = [0; 16];
        let n = source.read(&mut into[..(*room).min(16)])?;
        if into.get(..n) != Some(*part) {
            return Ok(false);
        }
    }
    Ok(true)
}

/// Whether writes take so many bytes.
fn takes<K: Sink>(sink: &mut K, parts: &[(Bytes, usize)]) -> Result<bool, WorldFault> {
    for (bytes, most) in parts {
        if sink.write(bytes)? != *most {
            return Ok(false);
        }
    }
    Ok(true)
}

fn read_parts<S: Shelf>(
    shelf: &mut S,
    name: &str,
    parts: &[(usize, Bytes)],
) -> Result<bool, WorldFault> {
    let mut source = shelf.open_read(name)?;
    let given = gives(&mut source, parts);
    shelf.end_read(name, source);
    given
}

fn write_parts<S: Shelf>(
    shelf: &mut S,
    name: &str,
    parts: &[(Bytes, usize)],
) -> Result<bool, WorldFault> {
    let mut sink = shelf.create(name)?;
    let taken = takes(&mut sink, parts);
    let finished = shelf.finish(name, sink);
    let taken = taken?;
    finished.map_err(|_| WorldFault::Failed)?;
    Ok(taken)
}

fn write_once<S: Shelf>(shelf: &mut S, name: &str, bytes: &[u8]) -> Result<(), WorldFault> {
    let mut sink = shelf.create(name)?;
    let written = write_whole(&mut sink, bytes);
    let finished = shelf.finish(name, sink);
    written?;
    finished.map_err(|_| WorldFault::Failed)
}

// A read of one file, and another file written.
fn round<S: Shelf>(shelf: &mut S, bytes: &[u8]) -> Result<(), WorldFault> {
    read_parts(shelf, "in", &[(16, b"abc")])?;
    write_once(shelf, "out", bytes)
}

/// Whether a step that any shelf takes has its answer.
fn fits_any<S: Shelf>(shelf: &mut S, step: &Step) -> bool {
    match *step {
        Step::Read(name, parts) => read_parts(shelf, name, parts) == Ok(true),
        Step::NoRead(name) => read_parts(shelf, name, &[(4, b"")]) == Err(WorldFault::Failed),
        Step::Pieces(name, parts) => write_parts(shelf, name, parts) == Ok(true),
        Step::Write(name, bytes) => write_once(shelf, name, bytes) == Ok(()),
        Step::NoWrite(name, bytes) => write_once(shelf, name, bytes) == Err(WorldFault::Failed),
        Step::Round(bytes, true) => round(shelf, bytes) == Ok(()),
        Step::Round(bytes, false) => round(shelf, bytes) == Err(WorldFault::Failed),
        _ => false,
    }
}

/// Whether a step has its answer.
fn fits(shelf: &mut MemShelf, step: &Step) -> bool {
    match *step {
        Step::Add(name, bytes) => shelf.add(name, bytes).is_ok(),
        Step::Fail(name, call, nth) => shelf.fail(name, call, nth).is_ok(),
        Step::Piece(most) => {
            shelf.set_piece(most.max(1));
            true
        }
        Step::File(name, held) => shelf.file(name) == held,
        Step::Front(name, bytes) => shelf.file(name).is_some_and(|held| bytes.starts_with(held)),
        _ => fits_any(shelf, step),
    }
}

/// Steps on an empty shelf, each with its answer.
fn expect(rt: &impl Abort, alloc: Global, script: &[Step], number: usize) {
    let mut shelf = MemShelf::new(alloc);
    for (i, step) in script.iter().enumerate() {
        assert!(rt; fits(&mut shelf, step), "step {i} of script {number}");
    }
}

fn expect_all(rt: &impl Abort, alloc: Global, scripts: &[&[Step]]) {
    for (number, script) in scripts.iter().enumerate() {
        expect(rt, alloc, script, number);
    }
}

const HELLO: Step = Step::Add("in", b"hello world");

const OUT: Step = Step::Write("out", b"hello world");

const IS_OUT: Step = Step::File("out", Some(b"hello world"));

const PIECES: [&[Step]; 4] = [
    &[
        HELLO,
        Step::Piece(1),
        Step::Read("in", &[(16, b"h"), (16, b"e"), (16, b"l")]),
        OUT,
        IS_OUT,
    ],
    &[
        HELLO,
        Step::Piece(7),
        Step::Read("in", &[(16, b"hello w"), (16, b"orld"), (16, b"")]),
        OUT,
        IS_OUT,
    ],
    &[
        HELLO,
        Step::Piece(100),
        Step::Read("in", &[(16, b"hello world"), (16, b""), (16, b"")]),
        OUT,
        IS_OUT,
    ],
    // A buffer or a piece may be smaller.
    &[
        Step::Add("in", b"hello"),
        Step::Read("in", &[(0, b""), (2, b"he")]),
        Step::Piece(3),
        Step::Pieces("out", &[(b"abcde", 3), (b"", 0), (b"de", 2)]),
        Step::File("out", Some(b"abcde")),
    ],
];

#[test]
fn reads_and_writes_in_pieces(rt: HostRuntime) {
    expect_all(&rt, rt.alloc(), &PIECES);
}

/// A call that fails, its name, the how manieth, and what `out` holds then.
type Call = (FailCall, &'static str, u32, Option<Bytes>);

const CALLS: [Call; 8] = [
    (FailCall::Open, "in", 1, None),
    (FailCall::Open, "in", 2, Some(b"first")),
    (FailCall::Read, "in", 1, None),
    (FailCall::Read, "in", 2, Some(b"first")),
    (FailCall::Create, "out", 1, None),
    (FailCall::Create, "out", 2, Some(b"first")),
    (FailCall::Write, "out", 1, Some(b"")),
    (FailCall::Write, "out", 2, Some(b"")),
];

fn script_of(case: &Call) -> [Step; 8] {
    let (call, name, nth, held) = *case;
    let first = if nth == 2 {
        Step::Round(b"first", true)
    } else {
        Step::File("out", None)
    };
    [
        Step::Add("in", b"abc"),
        Step::Fail(name, call, nth),
        first,
        Step::Round(b"other", false),
        Step::File("out", held),
        Step::File("in", Some(b"abc")),
        Step::Round(b"last", true),
        Step::File("out", Some(b"last")),
    ]
}

#[test]
fn the_named_call_fails_and_no_other(rt: HostRuntime) {
    for (number, case) in CALLS.iter().enumerate() {
        expect(&rt, rt.alloc(), &script_of(case), number);
    }
}

const FAULTS: [&[Step]; 5] = [
    // A failed finish leaves a front.
    &[
        Step::Fail("out", FailCall::Finish, 1),
        Step::NoWrite("out", b"second"),
        Step::Front("out", b"second"),
        Step::Write("out", b"last"),
        Step::File("out", Some(b"last")),
    ],
    &[
        Step::Fail("out", FailCall::Finish, 2),
        Step::Write("out", b"first"),
        Step::File("out", Some(b"first")),
        Step::NoWrite("out", b"second"),
        Step::Front("out", b"second"),
        Step::Write("out", b"last"),
        Step::File("out", Some(b"last")),
    ],
    // A name that is not there is a fault.
    &[
        Step::Add("in", b"abc"),
        Step::NoRead("out"),
        Step::File("out", None),
        Step::Read("in", &[(4, b"abc")]),
    ],
    // A file takes the place of one of its name.
    &[
        Step::Add("a", b"one"),
        Step::Add("b", b"two"),
        Step::Add("a", b"three"),
        Step::File("a", Some(b"three")),
        Step::File("b", Some(b"two")),
    ],
    // Each `fail` counts by itself.
    &[
        Step::Add("in", b"abc"),
        Step::Fail("in", FailCall::Open, 2),
        Step::Read("in", &[(4, b"abc")]),
        Step::Fail("in", FailCall::Open, 2),
        Step::NoRead("in"),
        Step::NoRead("in"),
        Step::Read("in", &[(4, b"abc")]),
    ],
];

#[test]
fn faults_are_answered_and_leave_the_rest(rt: HostRuntime) {
    expect_all(&rt, rt.alloc(), &FAULTS);
}

#[test]
fn reads_of_an_earlier_open_do_not_count(rt: HostRuntime) -> Result<(), Fail> {
    let mut shelf = MemShelf::new(rt.alloc());
    shelf.add("in", b"abc")?;
    let mut source = shelf.open_read("in")?;
    let told = shelf.fail("in", FailCall::Read, 1);
    let given = gives(&mut source, &[(4, b"abc")]);
    shelf.end_read("in", source);
    assert_eq!(rt; (told, given), (Ok(()), Ok(true)));
    assert!(rt; fits_any(&mut shelf, &Step::NoRead("in")));
    assert!(rt; fits_any(&mut shelf, &Step::Read("in", &[(4, b"abc")])));
    Ok(())
}

/// Reads of two sources of one file, in turn.
fn gives_in_turn<S: Source>(first: &mut S, second: &mut S) -> Result<bool, WorldFault> {
    let front = gives(first, &[(2, b"ab")])?;
    let whole = gives(second, &[(4, b"abc")])?;
    let rest = gives(first, &[(4, b"c")])?;
    Ok(front && whole && rest)
}

#[test]
fn several_may_be_out_at_once(rt: HostRuntime) -> Result<(), Fail> {
    let mut shelf = MemShelf::new(rt.alloc());
    shelf.add("in", b"abc")?;
    let mut first = shelf.open_read("in")?;
    let mut second = shelf.open_read("in")?;
    let mut out = shelf.create("out")?;
    let other = shelf.create("other")?;
    let given = gives_in_turn(&mut first, &mut second);
    let taken = takes(&mut out, &[(b"xyz", 3)]);
    shelf.end_read("in", first);
    shelf.end_read("in", second);
    let finished = (shelf.finish("other", other), shelf.finish("out", out));
    assert_eq!(rt;
        (given, taken, finished),
        (Ok(true), Ok(true), (Ok(()), Ok(())))
    );
    assert!(rt; fits(&mut shelf, &Step::File("out", Some(b"xyz"))));
    assert!(rt; fits(&mut shelf, &Step::File("other", Some(b""))));
    Ok(())
}

const REAL: [Step; 8] = [
    Step::Write("written.txt", b"hello"),
    Step::Read("written.txt", &[(16, b"hello")]),
    // A file of that name is emptied first.
    Step::Write("written.txt", b"hi"),
    Step::Read("written.txt", &[(16, b"hi")]),
    Step::NoRead("not_there.txt"),
    Step::NoRead("."),
    Step::NoWrite(".", b"hello"),
    // A device that is full is a fault.
    Step::NoWrite("/dev/full", b"hello"),
];

#[test]
fn real_files_and_folders(rt: HostRuntime) {
    let mut shelf = FileShelf::new(rt);
    for (i, step) in REAL.iter().enumerate() {
        assert!(rt; fits_any(&mut shelf, step), "step {i}");
    }
}
