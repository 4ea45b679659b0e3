// The text of a table's book.
ghost use Rattle.std.specs.Prelude.{◌≡◌, length, IfOk};

use coretable::CoreTable;
use histbook::{Books, EntryList, Journal, Served, put_journal};
use prio_budget::PlainCharge;
use std::alloc::Global;
use std::mem;
use std::test::Fail;

/// The journal of the one core whose book this is, without a worker.
fn journal_of(alloc: Global, book: EntryList) -> Result<Journal, Fail>
    ensures { IfOk result (λ journal. length journal.workers ≡ 0) }
{
    let mut books = Vec::new(alloc);
    books.push(book)?;
    Ok(Journal {
        cores: Books::of(books),
        workers: Served::of(Vec::new(alloc)),
    })
}

/// The text of the book, which goes out of the table.
pub(crate) fn book_text(
    alloc: Global,
    table: &mut CoreTable<PlainCharge>,
) -> Result<Vec<u8>, Fail> {
    let entries = mem::replace(&mut table.desk.book, Vec::new(alloc));
    let journal = journal_of(alloc, EntryList::of(entries))?;
    let mut text = Vec::new(alloc);
    if put_journal(&journal, &mut text).is_err() {
        return Err("put_journal: out of memory".into());
    }
    Ok(text)
}
