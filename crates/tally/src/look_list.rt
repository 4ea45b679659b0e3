ghost use Rattle.std.specs.Prelude.{◌≡◌};

use histbook::LookEntry;
use std::marker::Model;

/// Looks of a budget, seen as a list.
#[derive(Debug, Drop)]
pub struct LookList {
    items: Vec<LookEntry>,
}

impl Model for LookList {
    ghost use Rattle.std.specs.Prelude.{List};
    ghost use Rattle.histbook.specs.declared.look_entry.LookEntry.{LookEntry};

    ghost Value = { List LookEntry };

    ghost view = { λ a. a.items.items };
}

impl LookList {
    pub fn of(items: Vec<LookEntry>) -> Self
        ensures { result ≡ items.items }
    {
        LookList { items }
    }

    pub fn as_slice(&self) -> &[LookEntry]
        ensures { result.now ≡ self.now }
    {
        &self.items
    }

    pub fn into_vec(self) -> Vec<LookEntry>
        ensures { result.items ≡ self }
    {
        self.items
    }
}
