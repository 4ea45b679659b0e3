// The text of a journal.
ghost use Rattle.std.specs.Prelude.{◌≡◌, ◌++◌, All, OnOk, OnErr, flat_map};
ghost use Rattle.std.specs.List.{enumerate_from};
ghost use Rattle.textout.specs.Front.{IsFront};
ghost use Rattle.histbook.specs.JournalText.{core_lines, worker_lines, from_line, served_lines, journal_text};
ghost use Rattle.histbook.specs.Runs.{HasShortRuns};

use crate::lines::put_book;
use crate::{EntryList, Journal, Memory, WorkList};
use textout::{put_count, put_text};

fn put_core(out: &mut Vec<u8>, core: u64, book: &EntryList) -> Result<(), Memory>
    ensures ok { OnOk result (out.new.items ≡ out.old.items ++ core_lines (core, book.now)) }
    ensures err { OnErr result (IsFront out.old.items out.new.items) }
{
    put_count(out, "core ", core)?;
    put_text(out, "\n")?;
    put_book(out, book.as_slice())
}

fn put_cores(out: &mut Vec<u8>, books: &[EntryList]) -> Result<(), Memory>
    ensures ok { OnOk result (out.new.items ≡ out.old.items ++ flat_map core_lines (enumerate_from 0 books.now)) }
    ensures err { OnErr result (IsFront out.old.items out.new.items) }
{
    for (core, book) in books.iter().enumerate() {
        put_core(out, core as u64, book)?;
    }
    Ok(())
}

#[tactic(auto, unfolding(crate::specs::JournalText::from_line))]
fn put_run(out: &mut Vec<u8>, core: u16, count: u64) -> Result<(), Memory>
    ensures ok { OnOk result (out.new.items ≡ out.old.items ++ from_line (core, count)) }
    ensures err { OnErr result (IsFront out.old.items out.new.items) }
{
    put_count(out, "from ", u64::from(core))?;
    put_count(out, " ", count)?;
    put_text(out, "\n")
}

fn put_runs(out: &mut Vec<u8>, runs: &[(u16, u64)]) -> Result<(), Memory>
    ensures ok { OnOk result (out.new.items ≡ out.old.items ++ flat_map from_line runs.now) }
    ensures err { OnErr result (IsFront out.old.items out.new.items) }
{
    for (core, count) in runs {
        put_run(out, *core, *count)?;
    }
    Ok(())
}

fn put_served(out: &mut Vec<u8>, list: &WorkList) -> Result<(), Memory>
    requires { HasShortRuns list.now }
    ensures ok { OnOk result (out.new.items ≡ out.old.items ++ served_lines list.now) }
    ensures err { OnErr result (IsFront out.old.items out.new.items) }
{
    put_runs(out, list.runs())
}

fn put_worker(out: &mut Vec<u8>, worker: u64, list: &WorkList) -> Result<(), Memory>
    requires { HasShortRuns list.now }
    ensures ok { OnOk result (out.new.items ≡ out.old.items ++ worker_lines (worker, list.now)) }
    ensures err { OnErr result (IsFront out.old.items out.new.items) }
{
    put_count(out, "worker ", worker)?;
    put_text(out, "\n")?;
    put_served(out, list)
}

fn put_workers(out: &mut Vec<u8>, lists: &[WorkList]) -> Result<(), Memory>
    requires { All HasShortRuns lists.now }
    ensures ok { OnOk result (out.new.items ≡ out.old.items ++ flat_map worker_lines (enumerate_from 0 lists.now)) }
    ensures err { OnErr result (IsFront out.old.items out.new.items) }
{
    for (worker, list) in lists.iter().enumerate() {
        put_worker(out, worker as u64, list)?;
    }
    Ok(())
}

#[tactic(auto, unfolding(crate::specs::JournalText::journal_text))]
fn put_parts(out: &mut Vec<u8>, journal: &Journal) -> Result<(), Memory>
    requires { All HasShortRuns journal.now.workers }
    ensures ok { OnOk result (out.new.items ≡ out.old.items ++ journal_text journal.now) }
    ensures err { OnErr result (IsFront out.old.items out.new.items) }
{
    put_cores(out, journal.cores.as_slice())?;
    put_workers(out, journal.workers.as_slice())
}

/// Appends the text of a journal. After want of memory `out` is as it was.
pub fn put_journal(journal: &Journal, out: &mut Vec<u8>) -> Result<(), Memory>
    requires { All HasShortRuns journal.now.workers }
    ensures ok { OnOk result (out.new.items ≡ out.old.items ++ journal_text journal.now) }
    ensures err { OnErr result (out.new.items ≡ out.old.items) }
{
    let start = out.len();
    let done = put_parts(out, journal);
    if done.is_err() {
        out.truncate(start);
    }
    done
}
