ghost use Rattle.std.specs.Prelude.{◌≡◌};

use crate::LookEntry;
use std::marker::Model;

/// Looks in the order in which they were made, seen as a list.
#[derive(Debug, Drop)]
pub struct Looks {
    items: Vec<LookEntry>,
}

impl Model for Looks {
    ghost use Rattle.std.specs.Prelude.{List};
    ghost use Rattle.histbook.specs.declared.look_entry.LookEntry.{LookEntry};

    ghost Value = { List LookEntry };

    ghost view = { λ a. a.items.items };
}

impl Looks {
    pub fn of(items: Vec<LookEntry>) -> Self
        ensures { result ≡ items.items }
    {
        Looks { items }
    }

    pub fn as_slice(&self) -> &[LookEntry]
        ensures { result.now ≡ self.now }
    {
        &self.items
    }

    pub fn into_vec(self) -> Vec<LookEntry>
        ensures { result.items ≡ self }
    {
        self.items
    }
}
