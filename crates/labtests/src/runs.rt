// A run of a command, and one runner for each kind of test.
use labcases::{Capture, Left, ONE, World, bytes_of, has_left, is_left, shelf_of};
use labtop::lab_top;
use scap_world::{FailCall, MemShelf};
use scapconf::Status;
use std::alloc::Global;
use std::process::Abort;
use std::test::Fail;

/// The words of a drill, and those of one by the settings of a file.
pub const DRILL: [&str; 4] = ["scaplab", "drill", "cap", "out"];

pub const DRILL_BY: [&str; 6] = ["scaplab", "drill", "--settings", "set", "cap", "out"];

/// No file that a drill or a match writes.
const NOTHING: [(&str, Left); 3] = [
    ("out.0", Left::Absent),
    ("out.report", Left::Absent),
    ("out.match", Left::Absent),
];

/// What a run answered: its status, of how many cores it has a journal, and its files.
#[derive(Drop)]
struct Ran {
    status: Status,
    cores: usize,
    shelf: MemShelf,
}

fn run(alloc: Global, words: &[&str], world: World) -> Result<Ran, Fail> {
    let mut shelf = shelf_of(alloc, world)?;
    let done = lab_top(alloc, words, &mut shelf);
    Ok(Ran {
        status: done.status,
        cores: done.journal.cores.as_slice().len(),
        shelf,
    })
}

/// Of a run its status, of how many cores it has a journal, and whether it leaves these files.
pub fn outcome(
    alloc: Global,
    words: &[&str],
    world: World,
    left: &[(&str, Left)],
) -> Result<(Status, usize, bool), Fail> {
    let ran = run(alloc, words, world)?;
    Ok((ran.status, ran.cores, has_left(&ran.shelf, left)))
}

/// A run is done with a journal of so many cores, and leaves these files.
pub fn expect_files(
    rt: &impl Abort,
    alloc: Global,
    words: &[&str],
    world: World,
    cores: usize,
    left: &[(&str, Left)],
) -> Result<(), Fail> {
    let found = outcome(alloc, words, world, left)?;
    assert_eq!(rt; found, (Status::Done, cores, true), "at {words:?}");
    Ok(())
}

/// Words over the capture of one record: each has that status, and nothing is written under `out`.
pub fn expect_words(
    rt: &impl Abort,
    alloc: Global,
    cases: &[(&[&str], Status)],
) -> Result<(), Fail> {
    for (words, status) in cases {
        let world = World::of(&[("cap", &ONE)]);
        let found = outcome(alloc, words, world, &NOTHING)?;
        assert_eq!(rt; found, (*status, 0, true), "at {words:?}");
    }
    Ok(())
}

/// Captures that a command refuses: each has that status, and nothing is written.
pub fn expect_refused(
    rt: &impl Abort,
    alloc: Global,
    words: &[&str],
    cases: &[(Capture, Status)],
) -> Result<(), Fail> {
    for (i, (capture, status)) in cases.iter().enumerate() {
        let capture = bytes_of(alloc, capture)?;
        let found = outcome(alloc, words, World::of(&[("cap", &capture)]), &NOTHING)?;
        assert_eq!(rt; found, (*status, 0, true), "case {i}");
    }
    Ok(())
}

/// Texts of settings that a drill refuses before it opens the capture, which isn't there.
pub fn expect_settings(
    rt: &impl Abort,
    alloc: Global,
    cases: &[(&str, Status)],
) -> Result<(), Fail> {
    for (text, status) in cases {
        let files = [("set", text.as_bytes())];
        let found = outcome(alloc, &DRILL_BY, World::of(&files), &NOTHING)?;
        assert_eq!(rt; found, (*status, 0, true), "of {text}");
    }
    Ok(())
}

/// Captures with the delivery file and the report of their drill.
pub fn expect_drills(
    rt: &impl Abort,
    alloc: Global,
    cases: &[(Capture, Left, Left)],
) -> Result<(), Fail> {
    for (i, (capture, delivery, report)) in cases.iter().enumerate() {
        let capture = bytes_of(alloc, capture)?;
        let ran = run(alloc, &DRILL, World::of(&[("cap", &capture)]))?;
        let found = drilled(&ran, delivery, report);
        assert_eq!(rt; found, (Status::Done, 1, true), "case {i}");
    }
    Ok(())
}

/// Of a drill its status, of how many cores it has a journal, and whether it leaves these files.
fn drilled(ran: &Ran, delivery: &Left, report: &Left) -> (Status, usize, bool) {
    let left = is_left(&ran.shelf, "out.0", delivery) && is_left(&ran.shelf, "out.report", report);
    (ran.status, ran.cores, left)
}

fn run_by<'x>(alloc: Global, settings: &'x [u8], capture: &'x [u8]) -> Result<Ran, Fail> {
    let files = [("set", settings), ("cap", capture)];
    run(alloc, &DRILL_BY, World::of(&files))
}

/// Texts of settings with the delivery file and the report of a drill by them.
pub fn expect_drills_by(
    rt: &impl Abort,
    alloc: Global,
    capture: Capture,
    cases: &[(&str, Left, Left)],
) -> Result<(), Fail> {
    let capture = bytes_of(alloc, &capture)?;
    for (text, delivery, report) in cases {
        let ran = run_by(alloc, text.as_bytes(), &capture)?;
        let found = drilled(&ran, delivery, report);
        assert_eq!(rt; found, (Status::Done, 1, true), "of {text}");
    }
    Ok(())
}

/// A match with these words over a capture.
fn run_match(alloc: Global, words: &[&str], piece: usize, capture: &[u8]) -> Result<Ran, Fail> {
    let files = [("cap", capture)];
    run(alloc, words, World::of(&files).by(piece))
}

/// Filters with the numbers of the records that match, where so many bytes go in one read or write.
pub fn expect_matches(
    rt: &impl Abort,
    alloc: Global,
    piece: usize,
    capture: &[u8],
    cases: &[(&str, &str)],
) -> Result<(), Fail> {
    for (filter, text) in cases {
        let words = ["scaplab", "match", *filter, "cap", "out"];
        let ran = run_match(alloc, &words, piece, capture)?;
        let left = is_left(&ran.shelf, "out.match", &Left::Text(text));
        let found = (ran.status, ran.cores, left);
        assert_eq!(rt; found, (Status::Done, 0, true), "of {filter}");
    }
    Ok(())
}

/// A command whose calls fail: its words and files, how many bytes go in one read or write, the status where no call
/// fails, and the files that it writes then.
#[derive(Clone, Copy)]
pub struct Command<'a> {
    pub words: &'a [&'a str],
    pub files: &'a [(&'a str, &'a [u8])],
    pub piece: usize,
    pub status: Status,
    pub outputs: &'a [(&'a str, &'a [u8])],
}

/// What a call that failed leaves of an output.
#[derive(Clone, Copy)]
pub enum Rest {
    Absent,
    Whole,
    /// The pieces that were written before.
    Pieces,
    /// The first half.
    Half,
}

/// A kind of call on a name, how many such calls the command makes, the status where one of them fails, and what it
/// then leaves of each output.
pub type Fault<'a> = (&'a str, FailCall, u32, Status, &'a [Rest]);

/// Each of these calls fails in turn; one more than are made does not.
pub fn expect_faults(
    rt: &impl Abort,
    alloc: Global,
    command: &Command,
    cases: &[Fault],
) -> Result<(), Fail> {
    for case in cases {
        expect_fault(rt, alloc, command, case)?;
    }
    Ok(())
}

fn expect_fault(
    rt: &impl Abort,
    alloc: Global,
    command: &Command,
    case: &Fault,
) -> Result<(), Fail> {
    let (name, call, most, status, rests) = *case;
    for nth in 1..=most {
        let found = failing(alloc, command, (name, call, nth), rests)?;
        assert_eq!(rt; found, (status, true), "{name} {call:?} {nth}");
    }
    let behind = (name, call, most.saturating_add(1));
    let found = failing(alloc, command, behind, &[Rest::Whole; 2])?;
    assert_eq!(rt; found, (command.status, true), "{name} {call:?}");
    Ok(())
}

/// The status of a command where that call fails, and whether it leaves these rests.
fn failing(
    alloc: Global,
    command: &Command,
    fault: (&str, FailCall, u32),
    rests: &[Rest],
) -> Result<(Status, bool), Fail> {
    let world = World {
        files: command.files,
        piece: command.piece,
        faults: &[fault],
    };
    let ran = run(alloc, command.words, world)?;
    let front = command
        .piece
        .saturating_mul(fault.2.saturating_sub(1) as usize);
    Ok((
        ran.status,
        leaves(&ran.shelf, command.outputs, rests, front),
    ))
}

/// Whether these rests of the outputs are there, where so many bytes were written of one that failed.
fn leaves(shelf: &MemShelf, outputs: &[(&str, &[u8])], rests: &[Rest], front: usize) -> bool {
    outputs.iter().zip(rests).all(|((name, bytes), rest)| is_left(
        shelf,
        name,
        &rest_of(bytes, *rest, front),
    ))
}

fn rest_of(bytes: &[u8], rest: Rest, front: usize) -> Left<'_> {
    match rest {
        Rest::Absent => Left::Absent,
        Rest::Whole => Left::Bytes(bytes),
        Rest::Pieces => Left::Bytes(bytes.get(..front).unwrap_or_default()),
        Rest::Half => Left::Bytes(bytes.get(..bytes.len() / 2).unwrap_or_default()),
    }
}
