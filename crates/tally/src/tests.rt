ghost use Rattle.std.specs.Prelude.{IfOk};
ghost use Rattle.tally.specs.Totals.{AddUp};

use crate::Move::{Free, Grant};
use crate::{
    DirTotals, LookList, Memory, Move, MoveList, Peak, ReplayError, Skips, Totals, all_dirs,
    budget_replay, looks_of, moves_of, put_opening, put_totals, refused_in, replay_journal,
};
use convo::DirTotal;
use evring::{Frees, Way};
use flowdir::Counts;
use histbook::{Books, CoreEntry, Entry, EntryList, Journal, LookEntry, Looks, Served};
use prio_budget::{Free as Release, Look};
use std::alloc::{AllocError, Global};

/// Four datagrams on two cores, one book behind the other.
const FOUR: [Move; 6] = [
    Grant {
        stamp: 1,
        bytes: 1400,
    },
    Free {
        stamp: 4,
        bytes: 1400,
    },
    Free {
        stamp: 3,
        bytes: 1400,
    },
    Grant {
        stamp: 0,
        bytes: 1400,
    },
    Grant {
        stamp: 2,
        bytes: 1200,
    },
    Free {
        stamp: 5,
        bytes: 1200,
    },
];

/// Two moves have stamp 1. The free stands before the grant, so the grant is out of its place.
const TWICE: [Move; 3] = [
    Free { stamp: 1, bytes: 4 },
    Grant { stamp: 1, bytes: 5 },
    Grant { stamp: 0, bytes: 9 },
];

/// The first of these is more than there is.
const OVERDRAWN: [Move; 2] = [Free { stamp: 1, bytes: 5 }, Grant { stamp: 0, bytes: 4 }];

const REFUSED: LookEntry = LookEntry {
    asked: 1400,
    granted: false,
    look: Look {
        stamp: 2,
        found: 2800,
    },
};

const STALE: LookEntry = LookEntry {
    asked: 1400,
    granted: false,
    look: Look {
        stamp: 2,
        found: 1400,
    },
};

const LATE: LookEntry = LookEntry {
    asked: 1,
    granted: false,
    look: Look { stamp: 9, found: 0 },
};

const LATER: LookEntry = LookEntry {
    asked: 1,
    granted: false,
    look: Look {
        stamp: 4294967295,
        found: 0,
    },
};

/// Stamps and peak; a stamp, what was kept there and what was summed.
#[derive(Clone, Copy, Debug, PartialEq, Eq)]
enum Answer {
    Peak(u32, u32),
    Disagree(u32, u64, u64),
    Memory,
}

struct Case {
    moves: &'static [Move],
    looks: &'static [LookEntry],
    limit: u32,
    answer: Answer,
}

const CASES: [Case; 9] = [
    Case {
        moves: &[],
        looks: &[],
        limit: 4096,
        answer: Answer::Peak(0, 0),
    },
    Case {
        moves: &FOUR,
        looks: &[REFUSED],
        limit: 4096,
        answer: Answer::Peak(6, 4000),
    },
    Case {
        moves: &FOUR,
        looks: &[REFUSED],
        limit: 4000,
        answer: Answer::Peak(6, 4000),
    },
    Case {
        moves: &FOUR,
        looks: &[REFUSED],
        limit: 3999,
        answer: Answer::Disagree(2, 3999, 4000),
    },
    Case {
        moves: &FOUR,
        looks: &[LATE, STALE],
        limit: 3999,
        answer: Answer::Disagree(2, 1400, 2800),
    },
    Case {
        moves: &FOUR,
        looks: &[LATER, LATE],
        limit: 4096,
        answer: Answer::Disagree(9, 9, 6),
    },
    Case {
        moves: &TWICE,
        looks: &[STALE],
        limit: 4096,
        answer: Answer::Disagree(2, 2, 1),
    },
    Case {
        moves: &OVERDRAWN,
        looks: &[],
        limit: 4096,
        answer: Answer::Disagree(1, 5, 4),
    },
    Case {
        moves: &[],
        looks: &[LATER],
        limit: 4096,
        answer: Answer::Disagree(4294967295, 4294967295, 0),
    },
];

fn replay(alloc: Global, case: &Case) -> Result<Peak, ReplayError> {
    let (Ok(moves), Ok(looks)) = (
        Vec::from_slice(alloc, case.moves),
        Vec::from_slice(alloc, case.looks),
    ) else {
        return Err(ReplayError::Memory);
    };
    budget_replay(
        alloc,
        &MoveList::of(moves),
        &LookList::of(looks),
        case.limit,
    )
}

fn answer_of(alloc: Global, case: &Case) -> Answer {
    match replay(alloc, case) {
        Ok(peak) => Answer::Peak(peak.stamps, peak.peak),
        Err(
            ReplayError::Disagree {
                stamp,
                kept,
                summed,
            },
        ) => Answer::Disagree(stamp, kept, summed),
        Err(ReplayError::Memory) => Answer::Memory,
    }
}

#[test]
fn replays_are_answered(rt: HostRuntime) {
    for case in &CASES {
        assert_eq!(rt; answer_of(rt.alloc(), case), case.answer);
    }
}

const FORE: DirTotal = DirTotal {
    conv: 3,
    way: Way::Fore,
    counts: Counts {
        duplicate: 1,
        late: 2,
        cut: 3,
        taken: 40,
        shed: 5,
    },
    gaps: 6,
    gap_bytes: 70,
};

const BACK: DirTotal = DirTotal {
    conv: 3,
    way: Way::Back,
    counts: Counts {
        duplicate: 10,
        late: 20,
        cut: 30,
        taken: 400,
        shed: 50,
    },
    gaps: 0,
    gap_bytes: 0,
};

const TEXT: &str =
    "old scap report 1\ncores 4 workers 2\ndir 3 > 51 40 1 2 3 5 6 70\ndir 3 < 510 400 10 20 30 50 0 0\nrecords 15 accepted 5 filtered 4 other 1 fragment 2 short 3\nbytes payload 561 delivered 440 duplicate 11 late 22 cut 33 shed 55\nbudget stamps 8 peak 440 refused 2\n";

fn totals(alloc: Global) -> Result<Totals, AllocError>
    ensures { IfOk result AddUp }
{
    Ok(Totals {
        frames: 15,
        accepted: 5,
        skips: Skips {
            other: 1,
            fragment: 2,
            short: 3,
            filtered: 4,
        },
        dirs: DirTotals::of(Vec::from_slice(alloc, &[FORE, BACK])?),
        peak: Peak {
            stamps: 8,
            peak: 440,
        },
        refused: 2,
    })
}

#[test]
fn the_lines_of_a_report_are_appended(rt: HostRuntime) -> Result<(), Memory> {
    let mut out = Vec::from_slice(rt.alloc(), b"old ")?;
    put_opening(4, 2, &mut out)?;
    put_totals(&totals(rt.alloc())?, &mut out)?;
    assert_eq!(rt; out.as_slice(), TEXT.as_bytes());
    Ok(())
}

/// A direction of a conversation, with as many gaps as its number.
fn dir(conv: u32, way: Way) -> DirTotal {
    DirTotal {
        conv,
        way,
        counts: FORE.counts,
        gaps: u64::from(conv),
        gap_bytes: 0,
    }
}

/// The totals that a core keeps of these conversations.
fn core(alloc: Global, convs: &[u32]) -> Result<DirTotals, Memory> {
    let mut dirs = Vec::new(alloc);
    for conv in convs {
        dirs.push(dir(*conv, Way::Fore))?;
        dirs.push(dir(*conv, Way::Back))?;
    }
    Ok(DirTotals::of(dirs))
}

#[test]
fn the_totals_of_all_cores_stand_in_order(rt: HostRuntime) -> Result<(), Memory> {
    let mut cores = Vec::new(rt.alloc());
    cores.push(core(rt.alloc(), &[2, 7, 9])?)?;
    cores.push(core(rt.alloc(), &[])?)?;
    cores.push(core(rt.alloc(), &[1, 3])?)?;
    cores.push(core(rt.alloc(), &[4294967295])?)?;
    let all = all_dirs(rt.alloc(), &cores)?;
    let wanted = core(rt.alloc(), &[1, 2, 3, 7, 9, 4294967295])?;
    assert_eq!(rt; all.as_slice(), wanted.as_slice());
    Ok(())
}

const GRANTED: LookEntry = LookEntry {
    asked: 4,
    granted: true,
    look: Look { stamp: 0, found: 0 },
};

const ITS_RELEASE: Release = Release { stamp: 1, bytes: 4 };

/// A journal of one entry with these looks and releases.
fn journal_of(
    alloc: Global,
    looks: &[LookEntry],
    frees: &[Release],
) -> Result<Journal, AllocError> {
    let looks = Looks::of(Vec::from_slice(alloc, looks)?);
    let frees = Frees::of(Vec::from_slice(alloc, frees)?);
    let entry = Entry::Time {
        at: 5,
        looks,
        frees,
    };
    let mut book = Vec::new(alloc);
    book.push(CoreEntry { conv: 1, entry })?;
    let mut cores = Vec::new(alloc);
    cores.push(EntryList::of(book))?;
    Ok(Journal {
        cores: Books::of(cores),
        workers: Served::of(Vec::new(alloc)),
    })
}

/// How many moves, looks and refused looks it has.
fn taken_of(alloc: Global, journal: &Journal) -> Result<(usize, usize, u64), Memory> {
    let moves = moves_of(alloc, journal)?;
    let looks = looks_of(alloc, journal)?;
    let refused = refused_in(&looks);
    Ok((moves.as_slice().len(), looks.as_slice().len(), refused))
}

/// Its number of stamps and its peak.
fn peak_of(alloc: Global, journal: &Journal) -> (u32, u32) {
    match replay_journal(alloc, journal, 4) {
        Ok(peak) => (peak.stamps, peak.peak),
        Err(_) => (0, 0),
    }
}

#[test]
fn a_journal_is_replayed(rt: HostRuntime) -> Result<(), Memory> {
    let journal = journal_of(rt.alloc(), &[GRANTED, REFUSED], &[ITS_RELEASE])?;
    assert_eq!(rt; taken_of(rt.alloc(), &journal)?, (2, 2, 1));
    let journal = journal_of(rt.alloc(), &[GRANTED], &[ITS_RELEASE])?;
    assert_eq!(rt; peak_of(rt.alloc(), &journal), (2, 4));
    Ok(())
}
