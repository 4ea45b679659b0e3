ghost use Rattle.std.specs.Prelude.{◌≡◌};

use crate::EntryList;
use std::marker::Model;

/// The books of the cores, from core 0 on, seen as a list.
#[derive(Debug, Drop)]
pub struct Books {
    items: Vec<EntryList>,
}

impl Model for Books {
    ghost use Rattle.std.specs.Prelude.{List};
    ghost use Rattle.histbook.specs.declared.core_entry.CoreEntry.{CoreEntry};

    ghost Value = { List (List CoreEntry) };

    ghost view = { λ a. a.items.items };
}

impl Books {
    pub fn of(items: Vec<EntryList>) -> Self
        ensures { result ≡ items.items }
    {
        Books { items }
    }

    pub fn as_slice(&self) -> &[EntryList]
        ensures { result.now ≡ self.now }
    {
        &self.items
    }

    pub fn into_vec(self) -> Vec<EntryList>
        ensures { result.items ≡ self }
    {
        self.items
    }
}
