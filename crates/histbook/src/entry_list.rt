ghost use Rattle.std.specs.Prelude.{◌≡◌};

use crate::CoreEntry;
use std::marker::Model;

/// The book of a core: its entries in their order, seen as a list.
#[derive(Debug, Drop)]
pub struct EntryList {
    items: Vec<CoreEntry>,
}

impl Model for EntryList {
    ghost use Rattle.std.specs.Prelude.{List};
    ghost use Rattle.histbook.specs.declared.core_entry.CoreEntry.{CoreEntry};

    ghost Value = { List CoreEntry };

    ghost view = { λ a. a.items.items };
}

impl EntryList {
    pub fn of(items: Vec<CoreEntry>) -> Self
        ensures { result ≡ items.items }
    {
        EntryList { items }
    }

    pub fn as_slice(&self) -> &[CoreEntry]
        ensures { result.now ≡ self.now }
    {
        &self.items
    }

    pub fn into_vec(self) -> Vec<CoreEntry>
        ensures { result.items ≡ self }
    {
        self.items
    }
}
