// What a table leaves.
ghost use Rattle.std.specs.Prelude.{◌≡◌, ℕ, None, true, map, IfOk};
ghost use Rattle.streamdefs.specs.Terms.{Terms};
ghost use Rattle.streamdefs.specs.Lawful.{Handler};
ghost use Rattle.flowdir.specs.Boundary.{charge_by};
ghost use Rattle.coretable.specs.Course.{Course};
ghost use Rattle.coretable.specs.Left.{IsLeftOf};
ghost use Rattle.coretable.specs.Table.{Stands, is_over};

use crate::summing::totals_of;
use crate::{CoreTable, Desk, Memory};
use convo::DirTotal;
use histbook::{CoreEntry, EntryList};
use prio_budget::Charge;

/// A core's book, and what became of the bytes of each conversation, by ascending number, fore before back.
#[derive(Debug, Drop)]
pub struct CoreBook {
    pub entries: EntryList,
    pub totals: Vec<DirTotal>,
}

/// The book of a desk.
fn book_of<T: Drop>(desk: Desk<T>) -> Vec<CoreEntry>
    ensures { result.items ≡ desk.book.items }
{
    let Desk { book, .. } = desk;
    book
}

impl<C: Charge> CoreTable<C> {
    /// Its book, and the totals of its conversations. The room for them is made here.
    pub fn into_book(self) -> Result<CoreBook, Memory>
        ensures entries { IfOk result (λ left. left.entries ≡ self.desk.book.items) }
        ensures idle { (t : Terms) (last : ℕ) (handler : Handler) (m : Course) → Stands (charge_by C.amount C.stamp) t last handler m self → m.under ≡ None → IfOk result (IsLeftOf t m) }
        ensures over { (t : Terms) (last : ℕ) (handler : Handler) (m : Course) → Stands (charge_by C.amount C.stamp) t last handler m self → is_over self ≡ true → IfOk result (IsLeftOf t m) }
    {
        let CoreTable { alloc, desk, .. } = self;
        let totals = totals_of(alloc, &desk)?;
        let entries = EntryList::of(book_of(desk));
        Ok(CoreBook { entries, totals })
    }
}
