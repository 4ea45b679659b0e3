// What a replay takes of a journal.
ghost use Rattle.std.specs.Prelude.{◌≡◌, ◌++◌, ◌<◌, ◌^◌, flat_map, length, map, IfErr, IfOk, OnOk};
ghost use Rattle.histbook.specs.InTurn.{book_asks};
ghost use Rattle.histbook.specs.Moves.{IsBudgetHistory, journal_moves, looks_in};
ghost use Rattle.streamdefs.specs.Totals.{refused};
ghost use Rattle.tally.specs.Journal.{IsPeakOf, asks_in, grant_in, moves_in, moves_of_book, moves_of_entry, release_in};
ghost use Rattle.tally.specs.Laws.{move_of};
ghost use Rattle.tally.specs.Replay.{IsOneReplay, OnDisagree};

use crate::{LookList, Memory, Move, MoveList, Peak, ReplayError, budget_replay};
use histbook::{CoreEntry, Entry, Journal, LookEntry};
use prio_budget::Free;
use std::alloc::Global;

/// Appends a look's grant, where it was granted.
fn put_grant(moves: &mut Vec<Move>, look: &LookEntry) -> Result<(), Memory>
    ensures { OnOk result (moves.new.items ≡ moves.old.items ++ grant_in look.now) }
{
    if !look.granted {
        return Ok(());
    }
    moves.push(Move::Grant {
        stamp: look.look.stamp,
        bytes: look.asked,
    })?;
    Ok(())
}

fn put_grants(moves: &mut Vec<Move>, looks: &[LookEntry]) -> Result<(), Memory>
    ensures { OnOk result (moves.new.items ≡ moves.old.items ++ flat_map grant_in looks.now) }
{
    for look in looks {
        put_grant(moves, look)?;
    }
    Ok(())
}

fn put_release(moves: &mut Vec<Move>, free: &Free) -> Result<(), Memory>
    ensures { OnOk result (moves.new.items ≡ moves.old.items ++ release_in free.now) }
{
    moves.push(Move::Free {
        stamp: free.stamp,
        bytes: free.bytes,
    })?;
    Ok(())
}

fn put_releases(moves: &mut Vec<Move>, frees: &[Free]) -> Result<(), Memory>
    ensures { OnOk result (moves.new.items ≡ moves.old.items ++ flat_map release_in frees.now) }
{
    for free in frees {
        put_release(moves, free)?;
    }
    Ok(())
}

/// Appends the moves of looks and releases.
fn put_both(moves: &mut Vec<Move>, looks: &[LookEntry], frees: &[Free]) -> Result<(), Memory>
    ensures { OnOk result (moves.new.items ≡ moves.old.items ++ (flat_map grant_in looks.now ++ flat_map release_in frees.now)) }
{
    put_grants(moves, looks)?;
    put_releases(moves, frees)
}

fn put_entry(moves: &mut Vec<Move>, entry: &CoreEntry) -> Result<(), Memory>
    ensures { OnOk result (moves.new.items ≡ moves.old.items ++ moves_of_entry entry.now) }
{
    match &entry.entry {
        Entry::Seg { looks, frees, .. } => put_both(moves, looks.as_slice(), frees.as_slice()),
        Entry::Answer { frees, .. } => put_both(moves, &[], frees.as_slice()),
        Entry::Time { looks, frees, .. } => put_both(moves, looks.as_slice(), frees.as_slice()),
        Entry::End { looks, frees, .. } => put_both(moves, looks.as_slice(), frees.as_slice()),
    }
}

fn put_book(moves: &mut Vec<Move>, book: &[CoreEntry]) -> Result<(), Memory>
    ensures { OnOk result (moves.new.items ≡ moves.old.items ++ moves_of_book book.now) }
{
    for entry in book {
        put_entry(moves, entry)?;
    }
    Ok(())
}

fn all_moves(alloc: Global, journal: &Journal) -> Result<Vec<Move>, Memory>
    ensures { IfOk result (λ moves. moves.items ≡ moves_in journal.now) }
{
    let mut moves = Vec::new(alloc);
    for book in journal.cores.as_slice() {
        put_book(&mut moves, book.as_slice())?;
    }
    Ok(moves)
}

/// The grants and releases of a journal, core after core and entry after entry.
#[tactic(auto, using(crate::proofs::JournalLemmas::moves_are))]
pub fn moves_of(alloc: Global, journal: &Journal) -> Result<MoveList, Memory>
    ensures { IfOk result (λ moves. moves ≡ map move_of (journal_moves journal.now)) }
{
    let moves = all_moves(alloc, journal)?;
    Ok(MoveList::of(moves))
}

fn put_looks(looks: &mut Vec<LookEntry>, entry: &CoreEntry) -> Result<(), Memory>
    ensures { OnOk result (looks.new.items ≡ looks.old.items ++ looks_in entry.now.entry) }
{
    match &entry.entry {
        Entry::Seg { looks: own, .. } => looks.extend_from_slice(own.as_slice())?,
        Entry::Answer { .. } => {}
        Entry::Time { looks: own, .. } => looks.extend_from_slice(own.as_slice())?,
        Entry::End { looks: own, .. } => looks.extend_from_slice(own.as_slice())?,
    }
    Ok(())
}

fn put_asks(looks: &mut Vec<LookEntry>, book: &[CoreEntry]) -> Result<(), Memory>
    ensures { OnOk result (looks.new.items ≡ looks.old.items ++ book_asks book.now) }
{
    for entry in book {
        put_looks(looks, entry)?;
    }
    Ok(())
}

/// The looks of a journal, core after core and entry after entry.
pub fn looks_of(alloc: Global, journal: &Journal) -> Result<LookList, Memory>
    ensures { IfOk result (λ looks. looks ≡ asks_in journal.now) }
{
    let mut looks = Vec::new(alloc);
    for book in journal.cores.as_slice() {
        put_asks(&mut looks, book.as_slice())?;
    }
    Ok(LookList::of(looks))
}

/// How many of them were refused.
pub fn refused_in(looks: &LookList) -> u64
    ensures { result ≡ refused looks.now }
{
    looks.as_slice().iter().filter(|look| !look.granted).count() as u64
}

/// Checks that a journal is one history of a budget with a limit, and sums it up.
pub fn replay_journal(alloc: Global, journal: &Journal, limit: u32) -> Result<Peak, ReplayError>
    ensures one { IfOk result (λ _. IsOneReplay limit (map move_of (journal_moves journal.now)) (asks_in journal.now)) }
    ensures peak { IfOk result (IsPeakOf journal.now) }
    ensures history { IfErr result (λ error. OnDisagree error (λ _. length (journal_moves journal.now) < 2 ^ 32 → ¬ IsBudgetHistory limit journal.now)) }
{
    let moves = moves_of(alloc, journal)?;
    let looks = looks_of(alloc, journal)?;
    budget_replay(alloc, &moves, &looks, limit)
}
