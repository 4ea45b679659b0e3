ghost use Rattle.std.specs.Prelude.{◌≡◌};

use convo::DirTotal;
use std::marker::Model;

/// What became of the bytes of directions, seen as a list.
#[derive(Debug, Drop)]
pub struct DirTotals {
    items: Vec<DirTotal>,
}

impl Model for DirTotals {
    ghost use Rattle.std.specs.Prelude.{List};
    ghost use Rattle.convo.specs.declared.dir_total.DirTotal.{DirTotal};

    ghost Value = { List DirTotal };

    ghost view = { λ a. a.items.items };
}

impl DirTotals {
    pub fn of(items: Vec<DirTotal>) -> Self
        ensures { result ≡ items.items }
    {
        DirTotals { items }
    }

    pub fn as_slice(&self) -> &[DirTotal]
        ensures { result.now ≡ self.now }
    {
        &self.items
    }

    pub fn into_vec(self) -> Vec<DirTotal>
        ensures { result.items ≡ self }
    {
        self.items
    }
}
