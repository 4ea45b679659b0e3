ghost use Rattle.std.specs.Prelude.{◌≡◌};

use crate::WorkList;
use std::marker::Model;

/// What the workers served, from worker 0 on, seen as a list.
#[derive(Debug, Drop)]
pub struct Served {
    items: Vec<WorkList>,
}

impl Model for Served {
    ghost use Rattle.std.specs.Prelude.{List, ℕ};

    ghost Value = { List (List ℕ) };

    ghost view = { λ a. a.items.items };
}

impl Served {
    pub fn of(items: Vec<WorkList>) -> Self
        ensures { result ≡ items.items }
    {
        Served { items }
    }

    pub fn as_slice(&self) -> &[WorkList]
        ensures { result.now ≡ self.now }
    {
        &self.items
    }

    pub fn into_vec(self) -> Vec<WorkList>
        ensures { result.items ≡ self }
    {
        self.items
    }
}
