// The lines of entries.
ghost use Rattle.std.specs.Prelude.{◌≡◌, ◌++◌, [], OnOk, OnErr, flat_map};
ghost use Rattle.textout.specs.Front.{IsFront};
ghost use Rattle.histbook.specs.JournalText.{look_word, free_word, line_end, reason_word, entry_line, book_lines};

use crate::advice::put_advice;
use crate::{CoreEntry, Entry, LookEntry, Memory};
use evring::Reason;
use prio_budget::Free;
use textout::{put_count, put_text};

#[tactic(auto, unfolding(crate::specs::JournalText::look_word))]
fn put_look(out: &mut Vec<u8>, look: &LookEntry) -> Result<(), Memory>
    ensures ok { OnOk result (out.new.items ≡ out.old.items ++ look_word look.now) }
    ensures err { OnErr result (IsFront out.old.items out.new.items) }
{
    let sign = if look.granted { " +" } else { " -" };
    put_count(out, sign, u64::from(look.asked))?;
    put_count(out, "@", u64::from(look.look.stamp))?;
    put_count(out, ":", u64::from(look.look.found))
}

#[tactic(auto, unfolding(crate::specs::JournalText::free_word))]
fn put_free(out: &mut Vec<u8>, free: &Free) -> Result<(), Memory>
    ensures ok { OnOk result (out.new.items ≡ out.old.items ++ free_word free.now) }
    ensures err { OnErr result (IsFront out.old.items out.new.items) }
{
    put_count(out, " ~", u64::from(free.bytes))?;
    put_count(out, "@", u64::from(free.stamp))
}

fn put_looks(out: &mut Vec<u8>, looks: &[LookEntry]) -> Result<(), Memory>
    ensures ok { OnOk result (out.new.items ≡ out.old.items ++ flat_map look_word looks.now) }
    ensures err { OnErr result (IsFront out.old.items out.new.items) }
{
    for look in looks {
        put_look(out, look)?;
    }
    Ok(())
}

fn put_frees(out: &mut Vec<u8>, frees: &[Free]) -> Result<(), Memory>
    ensures ok { OnOk result (out.new.items ≡ out.old.items ++ flat_map free_word frees.now) }
    ensures err { OnErr result (IsFront out.old.items out.new.items) }
{
    for free in frees {
        put_free(out, free)?;
    }
    Ok(())
}

#[tactic(auto, unfolding(crate::specs::JournalText::line_end))]
fn put_line_end(out: &mut Vec<u8>, looks: &[LookEntry], frees: &[Free]) -> Result<(), Memory>
    ensures ok { OnOk result (out.new.items ≡ out.old.items ++ line_end looks.now frees.now) }
    ensures err { OnErr result (IsFront out.old.items out.new.items) }
{
    put_looks(out, looks)?;
    put_frees(out, frees)?;
    put_text(out, "\n")
}

fn word_of(reason: Reason) -> &'static str
    ensures { result.now ≡ reason_word reason }
{
    match reason {
        Reason::Reset => "reset",
        Reason::Closed => "closed",
        Reason::Idle => "idle",
        Reason::Replaced => "replaced",
        Reason::Finish => "finish",
    }
}

#[tactic(auto, unfolding(crate::specs::JournalText::line_of))]
pub(crate) fn put_entry(out: &mut Vec<u8>, entry: &CoreEntry) -> Result<(), Memory>
    ensures ok { OnOk result (out.new.items ≡ out.old.items ++ entry_line entry.now) }
    ensures err { OnErr result (IsFront out.old.items out.new.items) }
{
    let conv = u64::from(entry.conv);
    match &entry.entry {
        Entry::Seg {
            packet,
            now,
            looks,
            frees,
        } => {
            put_count(out, "seg ", conv)?;
            put_count(out, " ", u64::from(*packet))?;
            put_count(out, " ", *now)?;
            put_line_end(out, looks.as_slice(), frees.as_slice())
        }
        Entry::Answer {
            event,
            advice,
            frees,
        } => {
            put_count(out, "ans ", conv)?;
            put_count(out, " ", *event)?;
            put_text(out, " ")?;
            put_advice(out, advice)?;
            put_line_end(out, &[], frees.as_slice())
        }
        Entry::Time { at, looks, frees } => {
            put_count(out, "time ", conv)?;
            put_count(out, " ", *at)?;
            put_line_end(out, looks.as_slice(), frees.as_slice())
        }
        Entry::End {
            at,
            reason,
            looks,
            frees,
        } => {
            put_count(out, "end ", conv)?;
            put_count(out, " ", *at)?;
            put_text(out, " ")?;
            put_text(out, word_of(*reason))?;
            put_line_end(out, looks.as_slice(), frees.as_slice())
        }
    }
}

pub(crate) fn put_book(out: &mut Vec<u8>, book: &[CoreEntry]) -> Result<(), Memory>
    ensures ok { OnOk result (out.new.items ≡ out.old.items ++ book_lines book.now) }
    ensures err { OnErr result (IsFront out.old.items out.new.items) }
{
    for entry in book {
        put_entry(out, entry)?;
    }
    Ok(())
}
