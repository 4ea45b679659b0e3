ghost use Rattle.std.specs.Prelude.{◌≡◌};

use crate::pool::{Granted, Pool};
use crate::serving::{come, end, fall_due};
use crate::{Counts, Dir, DirMode, Seg};
use chunkpart::Chunk;
use overpolicy::{Mode, Policy, Shape};
use seqspace::Seq;
use std::alloc::Global;
use std::test::Fail;

/// An entry: its moment, and a segment's sequence number, its flags (S: SYN, F: FIN, D: not live), the bytes that its header
/// declares beyond those that were captured, and its bytes; or, with the flag T, a moment that falls due.
type Entry<'a> = (u64, u32, &'a str, u32, &'a str);

/// A direction's entries, and what comes of them: the counts of the last one, front and FIN position behind it, and the
/// deliveries once the direction has ended, by start, gap and bytes shown. The asks named by the bits of `refused` are refused.
#[derive(Clone, Copy)]
struct Row<'a> {
    mode: DirMode,
    policy: Policy,
    reorder: u32,
    cutoff: Option<u64>,
    mark: u32,
    refused: u64,
    chunk: u32,
    overlap: u32,
    flush: u64,
    entries: &'a [Entry<'a>],
    counts: (u64, u64, u64, u64, u64),
    front: u64,
    fin: Option<u64>,
    chunks: &'a [(u64, u64, &'a str)],
}

/// A second, in nanoseconds.
const SECOND: u64 = 1_000_000_000;

/// One that is strict, without limits.
const PLAIN: Row<'static> = Row {
    mode: DirMode::Strict,
    policy: Policy::First,
    reorder: 65536,
    cutoff: None,
    mark: 1_000_000,
    refused: 0,
    chunk: 16384,
    overlap: 0,
    flush: 0,
    entries: &[],
    counts: (0, 0, 0, 0, 0),
    front: 0,
    fin: None,
    chunks: &[],
};

fn shape(row: &Row<'_>) -> Shape {
    Shape {
        mode: Mode::Strict,
        policy: row.policy,
        chunk: row.chunk,
        overlap: row.overlap,
        flush: row.flush,
        hole: SECOND,
        reorder: row.reorder,
        idle: 300_000_000_000,
    }
}

/// The entries of a row come. Gives the counts of the last segment.
fn come_all(
    alloc: Global,
    dir: &mut Dir<Granted>,
    shape: &Shape,
    row: &Row<'_>,
) -> Result<Counts, Fail>
    requires { dir.old.last ≡ 0 }
{
    let mut pool = Pool::new(row.mark, row.refused);
    let mut counts = Counts {
        duplicate: 0,
        late: 0,
        cut: 0,
        taken: 0,
        shed: 0,
    };
    let mut number: u32 = 0;
    'entries: for &(now, seq, flags, more, bytes) in row.entries {
        if number >= 100 || now > 1_000_000_000_000 {
            return Err("too many segments".into());
        }
        if flags == "T" {
            fall_due(alloc, dir, shape, &mut pool, now)?;
            continue;
        }
        number += 1;
        let Ok(len) = u32::try_from(bytes.len()) else {
            return Err("too many bytes".into());
        };
        let seg = Seg {
            number,
            now,
            seq: Seq(seq),
            syn: flags == "S",
            fin: flags == "F",
            live: flags != "D",
            declared: len.saturating_add(more),
            payload: bytes.as_bytes(),
        };
        counts = come(alloc, dir, shape, &mut pool, &seg, row.cutoff)?;
    }
    Ok(counts)
}

/// Whether a delivery is this one.
fn is_chunk(
    alloc: Global,
    chunk: &Chunk<Granted>,
    start: u64,
    gap: u64,
    bytes: &str,
) -> Result<bool, Fail> {
    let mut shown = Vec::new(alloc);
    if chunk.shown(&mut shown).is_err() {
        return Err("shown: out of memory".into());
    }
    Ok(chunk.start() == start && chunk.gap() == gap && shown.as_slice() == bytes.as_bytes())
}

/// Whether a direction hands over these deliveries and no others.
fn hands_over(
    alloc: Global,
    dir: &mut Dir<Granted>,
    chunks: &[(u64, u64, &str)],
) -> Result<bool, Fail> {
    for &(start, gap, bytes) in chunks {
        let Some(chunk) = dir.take_closed() else {
            return Ok(false);
        };
        if !is_chunk(alloc, &chunk, start, gap, bytes)? {
            return Ok(false);
        }
    }
    Ok(dir.take_closed().is_none())
}

fn are_counts(counts: Counts, wanted: (u64, u64, u64, u64, u64)) -> bool {
    let (duplicate, late, cut, taken, shed) = wanted;
    counts
        == Counts {
            duplicate,
            late,
            cut,
            taken,
            shed,
        }
}

/// Whether a row comes out as it says.
fn holds(alloc: Global, row: &Row<'_>) -> Result<bool, Fail> {
    let shape = shape(row);
    let mut dir = Dir::new(alloc, row.mode);
    let counts = come_all(alloc, &mut dir, &shape, row)?;
    if !are_counts(counts, row.counts) || dir.front() != row.front || dir.fin() != row.fin {
        return Ok(false);
    }
    end(alloc, &mut dir, &shape)?;
    hands_over(alloc, &mut dir, row.chunks)
}

const SYN: Entry<'static> = (0, 4_294_967_295, "S", 0, "");

const A10: &str = "AAAAAAAAAA";

const B10: &str = "BBBBBBBBBB";

const C10: &str = "CCCCCCCCCC";

#[test]
fn overlap_is_settled_by_the_policies(rt: HostRuntime) -> Result<(), Fail> {
    let alloc = rt.alloc();
    let long = [
        SYN,
        (0, 10, "", 0, A10),
        (0, 5, "", 0, B10),
        (0, 0, "", 0, C10),
    ];
    let short = [
        SYN,
        (0, 10, "", 0, A10),
        (0, 10, "", 0, "BBBBB"),
        (0, 0, "", 0, C10),
    ];
    let rows = [
        (
            Policy::First,
            "CCCCCBBBBBAAAAAAAAAA",
            "CCCCCCCCCCAAAAAAAAAA",
        ),
        (Policy::Bsd, "CCCCCCCCCCBBBBBAAAAA", "CCCCCCCCCCAAAAAAAAAA"),
        (Policy::Last, "CCCCCCCCCCBBBBBAAAAA", "CCCCCCCCCCBBBBBAAAAA"),
        (
            Policy::Linux,
            "CCCCCCCCCCBBBBBAAAAA",
            "CCCCCCCCCCBBBBBAAAAA",
        ),
    ];
    for (policy, both, one) in rows {
        assert!(rt;
            holds(
                alloc,
                &Row {
                    policy,
                    entries: &long,
                    counts: (5, 0, 0, 5, 0),
                    front: 20,
                    chunks: &[(0, 0, both)],
                    ..PLAIN
                }
            )?
        );
        assert!(rt;
            holds(
                alloc,
                &Row {
                    policy,
                    entries: &short,
                    counts: (0, 0, 0, 10, 0),
                    front: 20,
                    chunks: &[(0, 0, one)],
                    ..PLAIN
                }
            )?
        );
    }
    Ok(())
}

#[test]
fn segments_are_taken_shed_and_passed(rt: HostRuntime) -> Result<(), Fail> {
    let alloc = rt.alloc();
    let request =
        "GET / HTTP/1.1\r\nHost: example.org\r\nUser-Agent: test/1.0\r\nAccept: text/html\r\n\r\n";
    let fifty = "aaaaaaaaaaaaaaaaaaaaaaaaaaaaaaaaaaaaaaaaaaaaaaaaaa";
    let hundred =
        "bbbbbbbbbbbbbbbbbbbbbbbbbbbbbbbbbbbbbbbbbbbbbbbbbbbbbbbbbbbbbbbbbbbbbbbbbbbbbbbbbbbbbbbbbbbbbbbbbbbb";
    let rows = [
        // A connection's request, and its FIN behind it.
        Row {
            entries: &[
                (0, 1000, "S", 0, ""),
                (0, 1001, "", 0, ""),
                (0, 1001, "", 0, request),
                (0, 1079, "F", 0, ""),
            ],
            front: 78,
            fin: Some(78),
            chunks: &[(0, 0, request)],
            ..PLAIN
        },
        // Sequence numbers wrap.
        Row {
            entries: &[
                (0, 4_294_967_294, "S", 0, ""),
                (0, 4_294_967_295, "", 0, "abcd"),
                (0, 3, "", 0, "ef"),
            ],
            counts: (0, 0, 0, 2, 0),
            front: 6,
            chunks: &[(0, 0, "abcdef")],
            ..PLAIN
        },
        // A fast direction doesn't fill a gap later.
        Row {
            mode: DirMode::Fast,
            entries: &[
                (0, 0, "", 0, fifty),
                (0, 100, "", 0, hundred),
                (0, 50, "", 0, fifty),
            ],
            counts: (0, 50, 0, 0, 0),
            front: 200,
            chunks: &[(0, 0, fifty), (100, 50, hundred)],
            ..PLAIN
        },
        // A byte before the front was shown.
        Row {
            entries: &[SYN, (0, 0, "", 0, A10), (0, 9, "", 0, "x")],
            counts: (1, 0, 0, 0, 0),
            front: 10,
            chunks: &[(0, 0, A10)],
            ..PLAIN
        },
        // A cutoff of 10.
        Row {
            cutoff: Some(10),
            entries: &[SYN, (0, 0, "", 0, "abcdefgh"), (0, 8, "", 0, "ijklmn")],
            counts: (0, 0, 4, 2, 0),
            front: 10,
            chunks: &[(0, 0, "abcdefghij")],
            ..PLAIN
        },
        // The second of three runs is refused.
        Row {
            mark: 15,
            entries: &[
                SYN,
                (0, 5, "", 0, "aaaaa"),
                (0, 15, "", 0, "bbbbb"),
                (0, 0, "", 0, "ccccccccccccccccccccccccc"),
            ],
            counts: (10, 0, 0, 5, 10),
            front: 10,
            chunks: &[(0, 0, "cccccaaaaa"), (15, 5, "bbbbb")],
            ..PLAIN
        },
        // The front jumps where more than 10 bytes are held.
        Row {
            reorder: 10,
            entries: &[SYN, (0, 5, "", 0, A10), (0, 15, "", 0, "b")],
            counts: (0, 0, 0, 1, 0),
            front: 16,
            chunks: &[(5, 5, "AAAAAAAAAAb")],
            ..PLAIN
        },
        Row {
            reorder: 10,
            entries: &[SYN, (0, 5, "", 0, A10)],
            counts: (0, 0, 0, 10, 0),
            front: 0,
            chunks: &[(5, 5, A10)],
            ..PLAIN
        },
        // A FIN segment of which a part was captured.
        Row {
            entries: &[SYN, (0, 0, "F", 90, "0123456789")],
            counts: (0, 0, 0, 10, 0),
            front: 10,
            fin: Some(100),
            chunks: &[(0, 0, "0123456789")],
            ..PLAIN
        },
        // A segment that isn't live is late.
        Row {
            entries: &[SYN, (0, 0, "", 0, A10), (0, 10, "D", 0, "xxxxx")],
            counts: (0, 5, 0, 0, 0),
            front: 10,
            chunks: &[(0, 0, A10)],
            ..PLAIN
        },
    ];
    for row in &rows {
        assert!(rt; holds(alloc, row)?);
    }
    Ok(())
}

#[test]
fn holes_and_flushes_fall_due_and_ends_are_shown_again(rt: HostRuntime) -> Result<(), Fail> {
    let alloc = rt.alloc();
    let datagrams = [
        (0, 0, "", 0, "abc"),
        (0, 0, "", 0, "def"),
        (0, 0, "", 0, "ghi"),
    ];
    let rows = [
        // A hole is passed a second after it stood.
        Row {
            entries: &[
                (0, 99, "S", 0, ""),
                (SECOND, 105, "", 0, "fghij"),
                (2_000_000_000, 0, "T", 0, ""),
                (3_000_000_000, 100, "", 0, "abcde"),
            ],
            counts: (0, 5, 0, 0, 0),
            front: 10,
            chunks: &[(5, 5, "fghij")],
            ..PLAIN
        },
        // Before that it isn't.
        Row {
            entries: &[
                (0, 99, "S", 0, ""),
                (SECOND, 105, "", 0, "fghij"),
                (1_999_999_999, 0, "T", 0, ""),
                (3_000_000_000, 100, "", 0, "abcde"),
            ],
            counts: (0, 0, 0, 5, 0),
            front: 10,
            chunks: &[(0, 0, "abcdefghij")],
            ..PLAIN
        },
        // A datagram waits for more for half a second.
        Row {
            mode: DirMode::Udp,
            flush: 500_000_000,
            entries: &[
                (0, 0, "", 0, "ab"),
                (500_000_000, 0, "T", 0, ""),
                (2_000_000_000, 0, "", 0, "cd"),
            ],
            counts: (0, 0, 0, 2, 0),
            front: 4,
            chunks: &[(0, 0, "ab"), (2, 0, "cd")],
            ..PLAIN
        },
        // A delivery begins with the last two bytes of the one before.
        Row {
            mode: DirMode::Udp,
            chunk: 4,
            overlap: 2,
            entries: &datagrams,
            counts: (0, 0, 0, 3, 0),
            front: 9,
            chunks: &[(0, 0, "abcdef"), (6, 0, "efghi")],
            ..PLAIN
        },
        // The copy is refused.
        Row {
            mode: DirMode::Udp,
            chunk: 4,
            overlap: 2,
            refused: 0b100,
            entries: &datagrams,
            counts: (0, 0, 0, 3, 0),
            front: 9,
            chunks: &[(0, 0, "abcdef"), (6, 0, "ghi")],
            ..PLAIN
        },
        // A gap comes behind the copy.
        Row {
            mode: DirMode::Fast,
            chunk: 4,
            overlap: 2,
            entries: &[(0, 0, "", 0, "abcd"), (0, 10, "", 0, "efgh")],
            counts: (0, 0, 0, 4, 0),
            front: 14,
            chunks: &[(0, 0, "abcd"), (10, 6, "efgh")],
            ..PLAIN
        },
    ];
    for row in &rows {
        assert!(rt; holds(alloc, row)?);
    }
    Ok(())
}
