ghost use Rattle.std.specs.Prelude.{◌≡◌, true, ◌+◌, ◌≤◌, ◌^◌, [], ◌∷◌, IfOk};
ghost use Rattle.reorder.specs.Frags.{IsClear};

use crate::laws::parts_rise;
use crate::{Run, Store};
use overpolicy::Policy;
use prio_budget::{Charge, Part, PartBytes};
use std::alloc::Global;
use std::test::Fail;

/// What a grant left, for tests of stores alone.
#[derive(Debug, PartialEq, Eq, Drop)]
struct Granted {
    amount: u32,
    stamp: u32,
}

impl Charge for Granted {
    ghost use Rattle.prio_budget.specs.Share.{no_share};

    ghost amount = { λ c. c.amount };

    ghost stamp = { λ c. c.stamp };

    ghost share = { λ _. no_share };

    fn amount(&self) -> u32 {
        self.amount
    }

    fn stamp(&self) -> u32 {
        self.stamp
    }
}

/// So many equal bytes from a position on, which is their segment's start.
#[derive(Clone, Copy)]
struct Segment {
    at: u32,
    len: u32,
    byte: u8,
}

fn part(alloc: Global, len: u32, byte: u8, stamp: u32) -> Result<Part<Granted>, Fail> {
    let mut bytes = Vec::new(alloc);
    for _ in 0..len {
        bytes.push(byte)?;
    }
    let Ok(amount) = u32::try_from(bytes.len()) else {
        return Err("too many bytes".into());
    };
    Ok(Part::new(PartBytes::of(bytes), Granted { amount, stamp }))
}

/// Whether runs are one, with all of these positions.
fn is_whole(runs: &[Run], from: u64, len: u32) -> bool
    ensures { result ≡ true → runs.now ≡ record { at = from; len = len } ∷ [] }
{
    match runs {
        [run] => run.at == from && run.len == len,
        _ => false,
    }
}

/// Whether no part covers these positions.
fn is_clear<C: Charge>(alloc: Global, store: &Store<C>, from: u64, len: u32) -> Result<bool, Fail>
    requires { from + len ≤ 2 ^ 62 }
    ensures { IfOk result (λ clear. clear ≡ true → IsClear from (from + len) store.now.frags) }
{
    parts_rise(store);
    let to = from + u64::from(len);
    let Ok(runs) = store.uncovered(alloc, from, to) else {
        return Err("out of memory".into());
    };
    Ok(is_whole(runs.as_slice(), from, len))
}

fn put<C: Charge>(
    alloc: Global,
    store: &mut Store<C>,
    at: u64,
    start: i64,
    part: Part<C>,
) -> Result<(), Fail> {
    let Ok(len) = u32::try_from(part.bytes().len()) else {
        return Err("too many bytes".into());
    };
    if len == 0 || at > 100_000 || !is_clear(alloc, store, at, len)? {
        return Err("the part has no place".into());
    }
    let Ok(()) = store.reserve() else {
        return Err("out of memory".into());
    };
    store.put(at, start, part);
    Ok(())
}

/// Settles overlap with a segment, and puts what of it is not held. The stamps of its parts are their positions.
fn arrive(
    alloc: Global,
    store: &mut Store<Granted>,
    segment: Segment,
    policy: Policy,
) -> Result<(), Fail> {
    let from = u64::from(segment.at);
    let start = i64::from(segment.at);
    let Ok(runs) = store.uncovered(alloc, from, from + u64::from(segment.len)) else {
        return Err("out of memory".into());
    };
    let whole = part(alloc, segment.len, segment.byte, 0)?;
    let Ok(()) = store.overlay(alloc, start, from, whole.bytes(), policy) else {
        return Err("out of memory".into());
    };
    for run in runs.into_vec() {
        let Ok(stamp) = u32::try_from(run.at) else {
            return Err("far away".into());
        };
        let fresh = part(alloc, run.len, segment.byte, stamp)?;
        put(alloc, store, run.at, start, fresh)?;
    }
    Ok(())
}

/// Takes all parts. Gives their bytes, with a bar where a part begins behind a hole.
fn taken(alloc: Global, store: &mut Store<Granted>) -> Result<Vec<u8>, Fail> {
    let mut text = Vec::new(alloc);
    let mut front = 0;
    for _ in 0..100 {
        let Some(at) = store.least() else {
            return Ok(text);
        };
        if at != front {
            text.push(b'|')?;
        }
        let part = store.take_front(at).ok_or("no part is first")?;
        text.extend_from_slice(part.bytes())?;
        front = at.saturating_add(part.bytes().len() as u64);
    }
    Err("too many parts".into())
}

#[test]
fn overlap_is_settled_by_the_policies(rt: HostRuntime) -> Result<(), Fail> {
    let alloc = rt.alloc();
    let a = Segment {
        at: 10,
        len: 10,
        byte: b'A',
    };
    let before = Segment {
        at: 5,
        len: 10,
        byte: b'B',
    };
    let equal = Segment {
        at: 10,
        len: 5,
        byte: b'B',
    };
    let c = Segment {
        at: 0,
        len: 10,
        byte: b'C',
    };
    let rows = [
        (before, Policy::First, "CCCCCBBBBBAAAAAAAAAA"),
        (before, Policy::Last, "CCCCCCCCCCBBBBBAAAAA"),
        (before, Policy::Bsd, "CCCCCCCCCCBBBBBAAAAA"),
        (before, Policy::Linux, "CCCCCCCCCCBBBBBAAAAA"),
        (equal, Policy::First, "CCCCCCCCCCAAAAAAAAAA"),
        (equal, Policy::Last, "CCCCCCCCCCBBBBBAAAAA"),
        (equal, Policy::Bsd, "CCCCCCCCCCAAAAAAAAAA"),
        (equal, Policy::Linux, "CCCCCCCCCCBBBBBAAAAA"),
    ];
    for (b, policy, text) in rows {
        let mut store = Store::new(alloc);
        for segment in [a, b, c] {
            arrive(alloc, &mut store, segment, policy)?;
        }
        assert_eq!(rt; store.held(), 20);
        let found = taken(alloc, &mut store)?;
        assert_eq!(rt; found.as_slice(), text.as_bytes());
    }
    Ok(())
}

/// Five bytes at 5 and at 15 are held when a segment brings those of 0 to 24. Its first run is granted at 4,090 used bytes, the
/// second is not, and so neither is the third; overlap is settled behind them all the same. Gives the bytes of the parts.
fn two_holes(alloc: Global, policy: Policy) -> Result<Vec<u8>, Fail> {
    let mut store = Store::new(alloc);
    for at in [15, 5] {
        let segment = Segment {
            at,
            len: 5,
            byte: b'a',
        };
        arrive(alloc, &mut store, segment, Policy::First)?;
    }
    let Ok(runs) = store.uncovered(alloc, 0, 25) else {
        return Err("out of memory".into());
    };
    let wanted = [
        Run { at: 0, len: 5 },
        Run { at: 10, len: 5 },
        Run { at: 20, len: 5 },
    ];
    if runs.as_slice() != &wanted[..] {
        return Err("other runs".into());
    }
    if store.overlay(alloc, 0, 0, &[b'b'; 25], policy).is_err() {
        return Err("out of memory".into());
    }
    put(alloc, &mut store, 0, 0, part(alloc, 5, b'b', 4090)?)?;
    taken(alloc, &mut store)
}

#[test]
fn overlap_is_settled_behind_a_refused_run(rt: HostRuntime) -> Result<(), Fail> {
    let rows = [
        (Policy::First, "bbbbbaaaaa|aaaaa"),
        (Policy::Last, "bbbbbbbbbb|bbbbb"),
        (Policy::Bsd, "bbbbbbbbbb|bbbbb"),
        (Policy::Linux, "bbbbbbbbbb|bbbbb"),
    ];
    for (policy, text) in rows {
        let found = two_holes(rt.alloc(), policy)?;
        assert_eq!(rt; found.as_slice(), text.as_bytes());
    }
    Ok(())
}

#[test]
fn a_segment_over_two_parts_has_three_runs(rt: HostRuntime) -> Result<(), Fail> {
    let alloc = rt.alloc();
    let mut store = Store::new(alloc);
    for at in [15, 5] {
        let segment = Segment {
            at,
            len: 5,
            byte: b'a',
        };
        arrive(alloc, &mut store, segment, Policy::First)?;
    }
    assert_eq!(rt; store.held(), 10);
    let Ok(runs) = store.uncovered(alloc, 0, 25) else {
        return Err("out of memory".into());
    };
    let wanted = [
        Run { at: 0, len: 5 },
        Run { at: 10, len: 5 },
        Run { at: 20, len: 5 },
    ];
    assert_eq!(rt; runs.as_slice(), &wanted[..]);

    // The first run is granted, and the others are not.
    put(alloc, &mut store, 0, 0, part(alloc, 5, b'b', 4090)?)?;
    assert_eq!(rt; store.least(), Some(0));
    assert!(rt; store.take_front(5).is_none());
    let (_, charge) = store.take_front(0).ok_or("no part is first")?.unpack();
    assert_eq!(rt; charge.stamp(), 4090);
    assert_eq!(rt; charge.amount(), 5);
    assert_eq!(rt; store.held(), 10);
    let (bytes, charge) = store.take_front(5).ok_or("no part is first")?.unpack();
    assert_eq!(rt; bytes.as_slice(), b"aaaaa".as_slice());
    assert_eq!(rt; charge.stamp(), 5);
    assert_eq!(rt; store.least(), Some(15));
    let found = taken(alloc, &mut store)?;
    assert_eq!(rt; found.as_slice(), b"|aaaaa".as_slice());
    assert_eq!(rt; store.least(), None);
    assert_eq!(rt; store.held(), 0);
    Ok(())
}
