// Plays a story: each entry comes to the conversation, and what it wants is answered, which has to be the story's
// lines.
ghost use Rattle.std.specs.Prelude.{◌≡◌, ℕ, ◌<◌, ◌≤◌, ◌^◌, [], length, Some, None, IfSome, IfOk, OnOk};
ghost use Rattle.convo.specs.Going.{charges_going};
ghost use Rattle.convo.specs.Standing.{IsAskWithin, IsRest, asked_of, last_of};
ghost use Rattle.convo.specs.Talk.{asked_in};

use crate::lines::{Bytes, Entry, Line, NOTHING, SECOND, Said, Terms, Turn};
use chunkpart::Chunk;
use convo::{AnsweredEvent, Convo, ConvoSet, DirTotal, Want};
use cutclass::{Classes, Cut, Cutoffs};
use evring::{Advice, Event, Kept, Reason, Way};
use overpolicy::{Policy, Shape};
use prio_budget::{Answered, Charge, Marks, PlainBudget, PlainCharge};
use std::alloc::Global;
use std::collections::VecDeque;
use std::test::Fail;
use streamkey::{Addr, End, Key, Packet, Proto};

const CLIENT: End = End {
    addr: Addr::V4([10, 0, 0, 1]),
    port: 40000,
};

const SERVER: End = End {
    addr: Addr::V4([10, 0, 0, 2]),
    port: 80,
};

fn settings(alloc: Global, terms: &Terms) -> Result<ConvoSet, Fail>
    ensures { IfOk result (λ set. (set.shape.flush ≤ 2 ^ 62) × (set.shape.hole ≤ 2 ^ 62) × (set.shape.idle ≤ 2 ^ 62)) }
{
    let marks = Marks::new(terms.limit, terms.base, terms.priorities)?;
    Ok(ConvoSet {
        shape: Shape {
            mode: terms.mode,
            policy: Policy::First,
            chunk: terms.chunk,
            overlap: 0,
            flush: 0,
            hole: SECOND,
            reorder: 65536,
            idle: terms.idle.min(1 << 62),
        },
        cutoffs: Cutoffs {
            default: terms.cutoff,
            fore: Cut::Unset,
            back: Cut::Unset,
            classes: Classes::new(alloc),
        },
        marks,
    })
}

/// The control bits of a TCP header.
fn bits(flags: &str) -> u8 {
    match flags {
        "F" => 1,
        "S" => 2,
        "R" => 4,
        _ => 0,
    }
}

/// A packet from one end to another.
fn packet(
    alloc: Global,
    number: u32,
    udp: bool,
    ends: (End, End),
    now: u64,
    seq: u32,
    flags: &str,
    bytes: Bytes<'_>,
) -> Result<Packet, Fail>
    ensures { IfOk result (λ p. p.number ≡ number) }
{
    let (source, target) = ends;
    let proto = if udp { Proto::Udp } else { Proto::Tcp };
    let (key, toward) = Key::of(proto, source, target);
    let text = filled(alloc, bytes)?;
    let payload = text.as_slice();
    if number < 1 || number > 4_194_304 || now > 1 << 62 || payload.len() > 262_144 {
        return Err("no packet of a capture".into());
    }
    match Packet::copy(
        alloc,
        number,
        now,
        key,
        toward,
        seq,
        bits(flags),
        payload.len() as u32,
        payload,
    ) {
        Ok(packet) => Ok(packet),
        Err(_) => Err("packet: out of memory".into()),
    }
}

/// A text written over and over, so many bytes of it.
fn filled(alloc: Global, bytes: Bytes<'_>) -> Result<Vec<u8>, Fail> {
    let (text, len) = bytes;
    let mut out = Vec::new(alloc);
    for &byte in text.as_bytes().iter().cycle().take(len) {
        out.push(byte)?;
    }
    Ok(out)
}

/// The bytes of chunks.
fn shown(alloc: Global, chunks: &[Chunk<PlainCharge>]) -> Result<Vec<u8>, Fail> {
    let mut bytes = Vec::new(alloc);
    for chunk in chunks {
        if chunk.shown(&mut bytes).is_err() {
            return Err("shown: out of memory".into());
        }
    }
    Ok(bytes)
}

/// Whether a chunk event is this line.
fn is_data(
    alloc: Global,
    way: Way,
    kept: &[Chunk<PlainCharge>],
    chunk: &Chunk<PlainCharge>,
    line: Line<'_>,
) -> Result<bool, Fail> {
    let (there, start, gap, again, bytes) = match line {
        Line::ForeData(start, gap, again, bytes) => (Way::Fore, start, gap, again, bytes),
        Line::BackData(start, gap, again, bytes) => (Way::Back, start, gap, again, bytes),
        _ => return Ok(false),
    };
    let mut here = Vec::new(alloc);
    if chunk.shown(&mut here).is_err() {
        return Err("shown: out of memory".into());
    }
    let before = shown(alloc, kept)?;
    let wanted_before = filled(alloc, again)?;
    let wanted = filled(alloc, bytes)?;
    Ok(
        way == there
            && chunk.start() == start
            && chunk.gap() == gap
            && before.as_slice() == wanted_before.as_slice()
            && here.as_slice() == wanted.as_slice(),
    )
}

/// Whether an event is this line.
fn is_event(alloc: Global, event: &Event<PlainCharge>, line: Line<'_>) -> Result<bool, Fail> {
    match event {
        Event::New { source, target, .. } => {
            Ok(matches!(line, Line::New) && *source == CLIENT && *target == SERVER)
        }
        Event::Chunk {
            way,
            kept,
            chunk,
            ..
        } => is_data(alloc, *way, kept.as_slice(), chunk, line),
        Event::Ended { reason, .. } => match line {
            Line::Over(wanted) => Ok(*reason == wanted),
            _ => Ok(false),
        },
    }
}

/// Asks a budget. Gives what it granted, where the answer is this line.
fn ask(
    budget: &mut PlainBudget,
    bytes: u32,
    mark: u32,
    line: Line<'_>,
) -> Result<Option<PlainCharge>, Fail>
    requires bytes { 1 ≤ bytes }
    requires mark { mark ≤ budget.old.limit }
    ensures granted { IfOk result (λ granted. IfSome granted (λ charge. charge.amount ≡ bytes)) }
    ensures limit { budget.new.limit ≡ budget.old.limit }
{
    match (budget.reserve(bytes, mark), line) {
        (Answered::Granted { charge, look }, Line::Granted(asked, stamp, found))
            if asked == bytes && look.stamp == stamp && look.found == found => { Ok(Some(charge)) }
        (Answered::Past { look }, Line::Refused(asked, stamp, found))
            if asked == bytes && look.stamp == stamp && look.found == found => { Ok(None) }
        _ => Err("another answer of the budget".into()),
    }
}

/// Gives a charge back. Tells whether that is this line.
fn give(budget: &mut PlainBudget, charge: PlainCharge, line: Line<'_>) -> Result<bool, Fail>
    ensures same { budget.new.limit ≡ budget.old.limit }
{
    if charge.amount() > budget.used() {
        return Err("more is given back than is in use".into());
    }
    let free = budget.release(charge);
    match line {
        Line::Freed(bytes, stamp) => Ok(free.bytes == bytes && free.stamp == stamp),
        _ => Ok(false),
    }
}

/// The answer to an ask goes to the conversation.
fn tell(
    convo: &mut Convo<PlainCharge>,
    set: &ConvoSet,
    granted: Option<PlainCharge>,
) -> Result<Want<PlainCharge>, Fail>
    requires { IfSome granted (λ charge. asked_of convo.old ≡ Some charge.amount) }
    ensures asked { IfOk result (λ want. asked_of convo.new ≡ asked_in want) }
    ensures within { IfOk result (IsAskWithin set.now.marks.limit) }
    ensures idle { IfOk result (λ want. IsRest want → charges_going convo.new.going ≡ []) }
    ensures last { last_of convo.new ≡ last_of convo.old }
{
    match convo.told(set, granted) {
        Ok(want) => Ok(want),
        Err(_) => Err("told: out of memory".into()),
    }
}

/// It goes on behind a release.
fn free(convo: &mut Convo<PlainCharge>, set: &ConvoSet) -> Result<Want<PlainCharge>, Fail>
    ensures asked { IfOk result (λ want. asked_of convo.new ≡ asked_in want) }
    ensures within { IfOk result (IsAskWithin set.now.marks.limit) }
    ensures idle { IfOk result (λ want. IsRest want → charges_going convo.new.going ≡ []) }
    ensures last { last_of convo.new ≡ last_of convo.old }
{
    match convo.freed(set) {
        Ok(want) => Ok(want),
        Err(_) => Err("freed: out of memory".into()),
    }
}

/// It goes on behind an event.
fn emit(convo: &mut Convo<PlainCharge>, set: &ConvoSet) -> Result<Want<PlainCharge>, Fail>
    ensures asked { IfOk result (λ want. asked_of convo.new ≡ asked_in want) }
    ensures within { IfOk result (IsAskWithin set.now.marks.limit) }
    ensures idle { IfOk result (λ want. IsRest want → charges_going convo.new.going ≡ []) }
    ensures last { last_of convo.new ≡ last_of convo.old }
{
    match convo.emitted(set) {
        Ok(want) => Ok(want),
        Err(_) => Err("emitted: out of memory".into()),
    }
}

/// One want is answered, which is this line.
fn serve_one(
    alloc: Global,
    convo: &mut Convo<PlainCharge>,
    set: &ConvoSet,
    budget: &mut PlainBudget,
    events: &mut VecDeque<Event<PlainCharge>>,
    want: Want<PlainCharge>,
    line: Line<'_>,
) -> Result<Want<PlainCharge>, Fail>
    requires asked { asked_of convo.old ≡ asked_in want }
    requires within { IsAskWithin set.now.marks.limit want }
    requires limit { budget.old.limit ≡ set.now.marks.limit }
    ensures limit { budget.new.limit ≡ budget.old.limit }
    ensures asked { IfOk result (λ want. asked_of convo.new ≡ asked_in want) }
    ensures within { IfOk result (IsAskWithin set.now.marks.limit) }
    ensures idle { IfOk result (λ want. IsRest want → charges_going convo.new.going ≡ []) }
    ensures last { last_of convo.new ≡ last_of convo.old }
{
    match want {
        Want::Rest => Err("nothing is wanted where a line stands".into()),
        Want::Ask { bytes, mark } => {
            let granted = ask(budget, bytes, mark, line)?;
            tell(convo, set, granted)
        }
        Want::Free(charge) => {
            if !give(budget, charge, line)? {
                return Err("another release".into());
            }
            free(convo, set)
        }
        Want::Emit(event) => {
            if !is_event(alloc, &event, line)? {
                return Err("another event".into());
            }
            events.push_back(event)?;
            emit(convo, set)
        }
    }
}

/// The wants of an entry are answered, one line each.
fn serve(
    alloc: Global,
    convo: &mut Convo<PlainCharge>,
    set: &ConvoSet,
    budget: &mut PlainBudget,
    events: &mut VecDeque<Event<PlainCharge>>,
    first: Want<PlainCharge>,
    lines: &[Line<'_>],
) -> Result<(), Fail>
    requires asked { asked_of convo.old ≡ asked_in first }
    requires within { IsAskWithin set.now.marks.limit first }
    requires idle { IsRest first → charges_going convo.old.going ≡ [] }
    requires limit { budget.old.limit ≡ set.now.marks.limit }
    ensures limit { budget.new.limit ≡ budget.old.limit }
    ensures idle { OnOk result (charges_going convo.new.going ≡ []) }
    ensures calm { OnOk result (asked_of convo.new ≡ None) }
    ensures last { last_of convo.new ≡ last_of convo.old }
{
    let mut want = first;
    'lines: for &line in lines {
        want = serve_one(alloc, convo, set, budget, events, want, line)?;
    }
    match want {
        Want::Rest => Ok(()),
        _ => Err("more is wanted than the story has".into()),
    }
}

/// The charges of a chunk are given back; of those that stand here so many are before it.
fn give_chunk(
    budget: &mut PlainBudget,
    mut chunk: Chunk<PlainCharge>,
    frees: &[(u32, u32)],
    from: usize,
) -> Result<usize, Fail>
    ensures limit { budget.new.limit ≡ budget.old.limit }
{
    let mut at = from;
    'parts: for _ in 0..frees.len() {
        let Some(part) = chunk.take_part() else {
            break;
        };
        let (_, charge) = part.unpack();
        let Some(&(bytes, stamp)) = frees.get(at) else {
            return Err("a worker gives more back".into());
        };
        if !give(budget, charge, Line::Freed(bytes, stamp))? {
            return Err("another release of a worker".into());
        }
        at = at.saturating_add(1);
    }
    Ok(at)
}

/// The charges of an event's chunks are given back.
fn give_all(
    budget: &mut PlainBudget,
    kept: Kept<PlainCharge>,
    chunk: Chunk<PlainCharge>,
    frees: &[(u32, u32)],
) -> Result<usize, Fail>
    ensures limit { budget.new.limit ≡ budget.old.limit }
{
    let mut at = 0;
    'chunks: for one in kept.into_vec() {
        at = give_chunk(budget, one, frees, at)?;
    }
    give_chunk(budget, chunk, frees, at)
}

fn advice_of(said: Said) -> Advice {
    let none = Advice::none();
    match said {
        Said::Nothing => none,
        Said::Keep => Advice { keep: true, ..none },
        Said::CutAt(position) => Advice {
            cutoff: Some(position),
            ..none
        },
        Said::Discard => Advice {
            discard: true,
            ..none
        },
    }
}

/// What a worker does with an event by its advice: it keeps the chunks, or gives their charges back. Gives which event
/// it was, and the chunks that come back.
fn work(
    alloc: Global,
    budget: &mut PlainBudget,
    event: Event<PlainCharge>,
    keep: bool,
    frees: &[(u32, u32)],
) -> Result<(AnsweredEvent, Kept<PlainCharge>), Fail>
    ensures limit { budget.new.limit ≡ budget.old.limit }
{
    match event {
        Event::New { .. } => Ok((AnsweredEvent::New, Kept::none(alloc))),
        Event::Ended { .. } => Ok((AnsweredEvent::Ended, Kept::none(alloc))),
        Event::Chunk {
            way,
            kept,
            chunk,
            ..
        } => {
            if keep {
                let mut chunks = kept.into_vec();
                chunks.push(chunk)?;
                return Ok((AnsweredEvent::Chunk(way), Kept::of(chunks)));
            }
            if give_all(budget, kept, chunk, frees)? != frees.len() {
                return Err("a worker gives less back".into());
            }
            Ok((AnsweredEvent::Chunk(way), Kept::none(alloc)))
        }
    }
}

/// The next event is answered.
fn answer(
    alloc: Global,
    convo: &mut Convo<PlainCharge>,
    budget: &mut PlainBudget,
    events: &mut VecDeque<Event<PlainCharge>>,
    said: Said,
    frees: &[(u32, u32)],
) -> Result<Want<PlainCharge>, Fail>
    requires idle { charges_going convo.old.going ≡ [] }
    ensures limit { budget.new.limit ≡ budget.old.limit }
    ensures asked { IfOk result (λ want. asked_of convo.new ≡ asked_in want) }
    ensures within { IfOk result (λ want. (limit : ℕ) → IsAskWithin limit want) }
    ensures idle { IfOk result (λ want. IsRest want → charges_going convo.new.going ≡ []) }
    ensures last { last_of convo.new ≡ last_of convo.old }
{
    let Some(event) = events.pop_front() else {
        return Err("no event waits".into());
    };
    let advice = advice_of(said);
    let (of, kept) = work(alloc, budget, event, advice.keep, frees)?;
    match convo.back(of, advice, kept) {
        Ok(want) => Ok(want),
        Err(_) => Err("back: out of memory".into()),
    }
}

/// A packet comes.
fn take(
    alloc: Global,
    convo: &mut Convo<PlainCharge>,
    set: &ConvoSet,
    number: u32,
    packet: &Packet,
) -> Result<Want<PlainCharge>, Fail>
    requires later { last_of convo.old < number }
    requires number { packet.now.number ≡ number }
    ensures asked { IfOk result (λ want. asked_of convo.new ≡ asked_in want) }
    ensures within { IfOk result (IsAskWithin set.now.marks.limit) }
    ensures idle { IfOk result (λ want. IsRest want → charges_going convo.new.going ≡ []) }
    ensures last { OnOk result (last_of convo.new ≤ number) }
{
    match convo.take(set, packet) {
        Ok(want) => Ok(want),
        Err(_) => Err("take: out of memory".into()),
    }
}

/// A moment, or the end, comes.
fn come(
    convo: &mut Convo<PlainCharge>,
    set: &ConvoSet,
    at: u64,
    reason: Option<Reason>,
) -> Result<Want<PlainCharge>, Fail>
    ensures asked { IfOk result (λ want. asked_of convo.new ≡ asked_in want) }
    ensures within { IfOk result (IsAskWithin set.now.marks.limit) }
    ensures idle { IfOk result (λ want. IsRest want → charges_going convo.new.going ≡ []) }
    ensures last { last_of convo.new ≡ last_of convo.old }
{
    if at > 1 << 62 {
        return Err("no moment of a capture".into());
    }
    let want = match reason {
        None => convo.time(set, at),
        Some(reason) => convo.end(set, at, reason),
    };
    match want {
        Ok(want) => Ok(want),
        Err(_) => Err("time or end: out of memory".into()),
    }
}

/// Whether what is asked of a conversation is answered so.
fn is_so(
    alloc: Global,
    convo: &Convo<PlainCharge>,
    set: &ConvoSet,
    number: u32,
    entry: Entry<'_>,
) -> Result<bool, Fail>
    requires flush { set.now.shape.flush ≤ 2 ^ 62 }
    requires hole { set.now.shape.hole ≤ 2 ^ 62 }
    requires idle { set.now.shape.idle ≤ 2 ^ 62 }
{
    match entry {
        Entry::Due(at, idle) => Ok(
            convo.due(set) == Some((at, idle)) && (idle || convo.time_due(set) == Some(at)),
        ),
        Entry::Ended(wanted) => Ok(convo.is_ended() == wanted),
        Entry::Ends(reason, at) => Ok(convo.ending() == Some((reason, at))),
        Entry::Replaced(seq, wanted) => {
            let packet = packet(alloc, number, false, (CLIENT, SERVER), 0, seq, "S", NOTHING)?;
            Ok(convo.replaces(&packet) == wanted)
        }
        Entry::Totals(way, counts, gaps, gap_bytes) => Ok(
            convo.total(way)
                == DirTotal {
                    conv: 1,
                    way,
                    counts,
                    gaps,
                    gap_bytes,
                },
        ),
        _ => Ok(false),
    }
}

/// An entry begins, or a question is answered.
#[tactic(auto, using(crate::proofs::Within::any_limit))]
fn begin(
    alloc: Global,
    convo: &mut Convo<PlainCharge>,
    set: &ConvoSet,
    budget: &mut PlainBudget,
    events: &mut VecDeque<Event<PlainCharge>>,
    udp: bool,
    number: u32,
    entry: Entry<'_>,
) -> Result<Want<PlainCharge>, Fail>
    requires later { last_of convo.old < number }
    requires calm { asked_of convo.old ≡ None }
    requires rests { charges_going convo.old.going ≡ [] }
    requires flush { set.now.shape.flush ≤ 2 ^ 62 }
    requires hole { set.now.shape.hole ≤ 2 ^ 62 }
    requires idle { set.now.shape.idle ≤ 2 ^ 62 }
    requires limit { budget.old.limit ≡ set.now.marks.limit }
    ensures limit { budget.new.limit ≡ budget.old.limit }
    ensures asked { IfOk result (λ want. asked_of convo.new ≡ asked_in want) }
    ensures within { IfOk result (IsAskWithin set.now.marks.limit) }
    ensures idle { IfOk result (λ want. IsRest want → charges_going convo.new.going ≡ []) }
    ensures last { OnOk result (last_of convo.new ≤ number) }
{
    match entry {
        Entry::Fore(now, seq, flags, bytes) => {
            let packet = packet(alloc, number, udp, (CLIENT, SERVER), now, seq, flags, bytes)?;
            take(alloc, convo, set, number, &packet)
        }
        Entry::Back(now, seq, flags, bytes) => {
            let packet = packet(alloc, number, udp, (SERVER, CLIENT), now, seq, flags, bytes)?;
            take(alloc, convo, set, number, &packet)
        }
        Entry::Answer(said, frees) => answer(alloc, convo, budget, events, said, frees),
        Entry::Time(at) => come(convo, set, at, None),
        Entry::End(at, reason) => come(convo, set, at, Some(reason)),
        question => {
            if is_so(alloc, convo, set, number, question)? {
                Ok(Want::Rest)
            } else {
                Err("another due, end, replacement or total".into())
            }
        }
    }
}

/// What a conversation still has is given back, of which there are less than a hundred charges.
fn drain(convo: &mut Convo<PlainCharge>, budget: &mut PlainBudget) -> Result<(), Fail> {
    'charges: for _ in 0..100 {
        let Some(charge) = convo.drain() else {
            return Ok(());
        };
        if charge.amount() > budget.used() {
            return Err("more is drained than is in use".into());
        }
        budget.release(charge);
    }
    Err("a conversation is never drained".into())
}

/// All entries of a story, of which the first is a packet of the conversation's first sender. Gives the bytes in use
/// behind it, once the conversation was drained.
pub(crate) fn play(alloc: Global, terms: &Terms, turns: &[Turn<'_>]) -> Result<u32, Fail> {
    let set = settings(alloc, terms)?;
    let Some((Entry::Fore(now, seq, flags, bytes), _)) = turns.first() else {
        return Err("a story begins with a packet".into());
    };
    let first = packet(
        alloc,
        1,
        terms.udp,
        (CLIENT, SERVER),
        *now,
        *seq,
        flags,
        *bytes,
    )?;
    let mut convo = Convo::new(alloc, &set, &first);
    let mut budget = PlainBudget::new(&set.marks, 0);
    let mut events = VecDeque::new(alloc);
    let mut number: u32 = 0;
    'turns: for &(entry, lines) in turns {
        if number == u32::MAX {
            return Err("a story is too long".into());
        }
        number += 1;
        let want = begin(
            alloc,
            &mut convo,
            &set,
            &mut budget,
            &mut events,
            terms.udp,
            number,
            entry,
        )?;
        serve(
            alloc,
            &mut convo,
            &set,
            &mut budget,
            &mut events,
            want,
            lines,
        )?;
    }
    drain(&mut convo, &mut budget)?;
    Ok(budget.used())
}
