ghost use Rattle.std.specs.Prelude.{◌≡◌, ◌≤◌, ◌<◌, ◌^◌, All, IfOk, length};
ghost use Rattle.histbook.specs.Runs.{HasShortRuns};

use crate::{
    Books, CoreEntry, Entry, EntryList, Journal, LookEntry, Looks, Memory, Served, WorkList,
    put_journal,
};
use evring::{Advice, Frees, Reason};
use prio_budget::{Free, Look};
use std::alloc::{AllocError, Global};
use std::test::Fail;

const CLOCK: u64 = 1_000_000_005;

fn look(granted: bool, asked: u32, stamp: u32, found: u32) -> LookEntry {
    LookEntry {
        asked,
        granted,
        look: Look { stamp, found },
    }
}

fn free(bytes: u32, stamp: u32) -> Free {
    Free { stamp, bytes }
}

fn looks_of(alloc: Global, looks: &[LookEntry]) -> Result<Looks, AllocError> {
    Ok(Looks::of(Vec::from_slice(alloc, looks)?))
}

fn frees_of(alloc: Global, frees: &[Free]) -> Result<Frees, AllocError> {
    Ok(Frees::of(Vec::from_slice(alloc, frees)?))
}

fn came(
    alloc: Global,
    packet: u32,
    now: u64,
    looks: &[LookEntry],
) -> Result<CoreEntry, AllocError> {
    let looks = looks_of(alloc, looks)?;
    let frees = frees_of(alloc, &[])?;
    Ok(CoreEntry {
        conv: 1,
        entry: Entry::Seg {
            packet,
            now,
            looks,
            frees,
        },
    })
}

fn answered(
    alloc: Global,
    event: u64,
    advice: Advice,
    frees: &[Free],
) -> Result<CoreEntry, AllocError> {
    let frees = frees_of(alloc, frees)?;
    Ok(CoreEntry {
        conv: 1,
        entry: Entry::Answer {
            event,
            advice,
            frees,
        },
    })
}

fn ended(
    alloc: Global,
    at: u64,
    reason: Reason,
    looks: &[LookEntry],
    frees: &[Free],
) -> Result<CoreEntry, AllocError> {
    let looks = looks_of(alloc, looks)?;
    let frees = frees_of(alloc, frees)?;
    Ok(CoreEntry {
        conv: 1,
        entry: Entry::End {
            at,
            reason,
            looks,
            frees,
        },
    })
}

fn list_of(alloc: Global, core: u16, count: u64) -> Result<WorkList, Memory>
    requires { 1 ≤ count }
    ensures { IfOk result (λ list. length list ≡ count) }
{
    let mut list = WorkList::new(alloc);
    list.push(core, count)?;
    Ok(list)
}

fn served_by(alloc: Global, list: WorkList) -> Result<Served, Memory>
    requires { length list < 2 ^ 64 }
    ensures { IfOk result (λ served. All HasShortRuns served) }
{
    let mut lists = Vec::new(alloc);
    lists.push(list)?;
    Ok(Served::of(lists))
}

fn text_of(alloc: Global, book: Vec<CoreEntry>, served: Served) -> Result<Vec<u8>, Memory>
    requires { All HasShortRuns served }
{
    let mut books = Vec::new(alloc);
    books.push(EntryList::of(book))?;
    let journal = Journal {
        cores: Books::of(books),
        workers: served,
    };
    let mut out = Vec::new(alloc);
    put_journal(&journal, &mut out)?;
    Ok(out)
}

#[test]
fn one_datagram_has_its_lines(rt: HostRuntime) -> Result<(), Fail> {
    let alloc = rt.alloc();
    let mut book = Vec::new(alloc);
    book.push(came(alloc, 1, CLOCK, &[look(true, 2, 0, 0)])?)?;
    book.push(answered(alloc, 1, Advice::none(), &[])?)?;
    book.push(ended(alloc, CLOCK, Reason::Finish, &[], &[])?)?;
    book.push(answered(alloc, 2, Advice::none(), &[free(2, 1)])?)?;
    book.push(answered(alloc, 3, Advice::none(), &[])?)?;
    let text = text_of(alloc, book, served_by(alloc, list_of(alloc, 0, 3)?)?)?;
    assert_eq!(rt;
        text.as_slice(),
        b"core 0\nseg 1 1 1000000005 +2@0:0\nans 1 1 .\nend 1 1000000005 finish\nans 1 2 . ~2@1\nans 1 3 .\nworker 0\nfrom 0 3\n".as_slice()
    );
    Ok(())
}

#[test]
fn four_datagrams_have_their_lines(rt: HostRuntime) -> Result<(), Fail> {
    let alloc = rt.alloc();
    let mut book = Vec::new(alloc);
    book.push(came(alloc, 1, 0, &[look(true, 1400, 0, 0)])?)?;
    book.push(answered(alloc, 1, Advice::none(), &[])?)?;
    book.push(came(alloc, 2, 0, &[look(true, 1400, 1, 1400)])?)?;
    book.push(came(alloc, 3, 0, &[look(false, 1400, 2, 2800)])?)?;
    book.push(came(alloc, 4, 0, &[look(true, 1200, 2, 2800)])?)?;
    book.push(answered(alloc, 2, Advice::none(), &[free(1400, 3), free(1400, 4)])?)?;
    book.push(ended(alloc, 0, Reason::Finish, &[], &[])?)?;
    book.push(answered(alloc, 3, Advice::none(), &[free(1200, 5)])?)?;
    book.push(answered(alloc, 4, Advice::none(), &[])?)?;
    let text = text_of(alloc, book, served_by(alloc, list_of(alloc, 0, 4)?)?)?;
    assert_eq!(rt;
        text.as_slice(),
        b"core 0\nseg 1 1 0 +1400@0:0\nans 1 1 .\nseg 1 2 0 +1400@1:1400\nseg 1 3 0 -1400@2:2800\nseg 1 4 0 +1200@2:2800\nans 1 2 . ~1400@3 ~1400@4\nend 1 0 finish\nans 1 3 . ~1200@5\nans 1 4 .\nworker 0\nfrom 0 4\n".as_slice()
    );
    Ok(())
}

fn advice(keep: bool, discard: bool, cutoff: Option<u64>, priority: Option<u8>) -> Advice {
    Advice {
        keep,
        discard,
        cutoff,
        priority,
    }
}

const ADVICE: &str = "core 0
ans 1 0 .
ans 1 1 p15
ans 1 2 c18446744073709551615
ans 1 3 c0,p0
ans 1 4 d
ans 1 5 d,p1
ans 1 6 d,c2
ans 1 7 d,c3,p4
ans 1 8 k
ans 1 9 k,p5
ans 1 10 k,c6
ans 1 11 k,c7,p8
ans 1 12 k,d
ans 1 13 k,d,p9
ans 1 14 k,d,c10
ans 1 15 k,d,c11,p12
worker 0
from 65535 18446744073709551615
";

#[test]
fn each_advice_has_its_word(rt: HostRuntime) -> Result<(), Fail> {
    let alloc = rt.alloc();
    let table = [
        advice(false, false, None, None),
        advice(false, false, None, Some(15)),
        advice(false, false, Some(u64::MAX), None),
        advice(false, false, Some(0), Some(0)),
        advice(false, true, None, None),
        advice(false, true, None, Some(1)),
        advice(false, true, Some(2), None),
        advice(false, true, Some(3), Some(4)),
        advice(true, false, None, None),
        advice(true, false, None, Some(5)),
        advice(true, false, Some(6), None),
        advice(true, false, Some(7), Some(8)),
        advice(true, true, None, None),
        advice(true, true, None, Some(9)),
        advice(true, true, Some(10), None),
        advice(true, true, Some(11), Some(12)),
    ];
    let mut book = Vec::new(alloc);
    for (event, advice) in table.iter().enumerate() {
        book.push(answered(alloc, event as u64, *advice, &[])?)?;
    }
    let text = text_of(
        alloc,
        book,
        served_by(alloc, list_of(alloc, u16::MAX, u64::MAX)?)?,
    )?;
    assert_eq!(rt; text.as_slice(), ADVICE.as_bytes());
    Ok(())
}

const KINDS: &str = "core 0
seg 4294967295 4294967295 18446744073709551615 +4294967295@4294967295:4294967295 -1@2:3 +4@5:6 ~7@8 ~9@10
time 1 18446744073709551615
time 2 3 -4@5:6 ~7@8
end 1 4 reset
end 1 5 closed +6@7:8
end 1 9 idle ~10@11
end 1 12 replaced -13@14:15 ~16@17 ~18@19
end 1 20 finish
worker 0
from 1 1
";

fn entry(conv: u32, entry: Entry) -> CoreEntry {
    CoreEntry { conv, entry }
}

#[test]
fn each_kind_of_entry_has_its_line(rt: HostRuntime) -> Result<(), Fail> {
    let alloc = rt.alloc();
    let many = [
        look(true, u32::MAX, u32::MAX, u32::MAX),
        look(false, 1, 2, 3),
        look(true, 4, 5, 6),
    ];
    let mut book = Vec::new(alloc);
    book.push(entry(
        u32::MAX,
        Entry::Seg {
            packet: u32::MAX,
            now: u64::MAX,
            looks: looks_of(alloc, &many)?,
            frees: frees_of(alloc, &[free(7, 8), free(9, 10)])?,
        },
    ))?;
    book.push(entry(
        1,
        Entry::Time {
            at: u64::MAX,
            looks: looks_of(alloc, &[])?,
            frees: frees_of(alloc, &[])?,
        },
    ))?;
    book.push(entry(
        2,
        Entry::Time {
            at: 3,
            looks: looks_of(alloc, &[look(false, 4, 5, 6)])?,
            frees: frees_of(alloc, &[free(7, 8)])?,
        },
    ))?;
    book.push(ended(alloc, 4, Reason::Reset, &[], &[])?)?;
    book.push(ended(alloc, 5, Reason::Closed, &[look(true, 6, 7, 8)], &[])?)?;
    book.push(ended(alloc, 9, Reason::Idle, &[], &[free(10, 11)])?)?;
    book.push(ended(
        alloc,
        12,
        Reason::Replaced,
        &[look(false, 13, 14, 15)],
        &[free(16, 17), free(18, 19)],
    )?)?;
    book.push(ended(alloc, 20, Reason::Finish, &[], &[])?)?;
    let text = text_of(alloc, book, served_by(alloc, list_of(alloc, 1, 1)?)?)?;
    assert_eq!(rt; text.as_slice(), KINDS.as_bytes());
    Ok(())
}

#[test]
fn runs_take_one_pair(rt: HostRuntime) -> Result<(), Fail> {
    let alloc = rt.alloc();
    let one = list_of(alloc, 3, 1)?;
    assert_eq!(rt; one.runs(), [(3, 1)].as_slice());
    let many = list_of(alloc, 3, 1 << 40)?;
    assert_eq!(rt; many.runs(), [(3, 1 << 40)].as_slice());
    let mut list = WorkList::new(alloc);
    assert_eq!(rt; list.runs().len(), 0);
    list.push(0, 1)?;
    list.push(0, 2)?;
    list.push(1, 1)?;
    list.push(0, 5)?;
    list.push(0, 1 << 40)?;
    assert_eq!(rt;
        list.runs(),
        [(0, 3), (1, 1), (0, 5 + (1 << 40))].as_slice()
    );
    Ok(())
}

#[test]
fn a_count_past_64_bits_takes_another_pair(rt: HostRuntime) -> Result<(), Fail> {
    let alloc = rt.alloc();
    let mut list = list_of(alloc, 5, u64::MAX - 1)?;
    list.push(5, 1)?;
    assert_eq!(rt; list.runs(), [(5, u64::MAX)].as_slice());
    list.push(5, 1)?;
    list.push(5, 7)?;
    assert_eq!(rt; list.runs(), [(5, u64::MAX), (5, 8)].as_slice());
    Ok(())
}

/// Two cores and two workers, and what stood in the buffer before.
#[test]
fn books_and_lists_stand_under_their_headings(rt: HostRuntime) -> Result<(), Fail> {
    let alloc = rt.alloc();
    let mut first = Vec::new(alloc);
    first.push(ended(alloc, 1, Reason::Idle, &[], &[])?)?;
    let mut books = Vec::new(alloc);
    books.push(EntryList::of(first))?;
    books.push(EntryList::of(Vec::new(alloc)))?;
    let mut out = Vec::from_slice(alloc, b"cores 2 workers 2\n")?;
    put_two(alloc, Books::of(books), &mut out)?;
    assert_eq!(rt;
        out.as_slice(),
        b"cores 2 workers 2\ncore 0\nend 1 1 idle\ncore 1\nworker 0\nfrom 0 3\nfrom 1 1\nfrom 0 5\nworker 1\n".as_slice()
    );
    Ok(())
}

fn mixed_list(alloc: Global) -> Result<WorkList, Memory>
    ensures { IfOk result (λ list. length list ≡ 9) }
{
    let mut list = list_of(alloc, 0, 1)?;
    list.push(0, 2)?;
    list.push(1, 1)?;
    list.push(0, 5)?;
    Ok(list)
}

fn two_lists(alloc: Global) -> Result<Served, Memory>
    ensures { IfOk result (λ served. All HasShortRuns served) }
{
    let first = mixed_list(alloc)?;
    let second = WorkList::new(alloc);
    let mut lists = Vec::new(alloc);
    lists.push(first)?;
    lists.push(second)?;
    Ok(Served::of(lists))
}

fn put_two(alloc: Global, cores: Books, out: &mut Vec<u8>) -> Result<(), Memory> {
    let journal = Journal {
        cores,
        workers: two_lists(alloc)?,
    };
    put_journal(&journal, out)
}
