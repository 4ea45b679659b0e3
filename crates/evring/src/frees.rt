ghost use Rattle.std.specs.Prelude.{◌≡◌};

use prio_budget::Free;
use std::marker::Model;

/// Releases in the order in which they were done, seen as a list.
#[derive(Debug, Drop)]
pub struct Frees {
    items: Vec<Free>,
}

impl Model for Frees {
    ghost use Rattle.std.specs.Prelude.{List};
    ghost use Rattle.prio_budget.specs.declared.free.Free.{Free};

    ghost Value = { List Free };

    ghost view = { λ b. b.items.items };
}

impl Frees {
    pub fn of(items: Vec<Free>) -> Self
        ensures { result ≡ items.items }
    {
        Frees { items }
    }

    pub fn as_slice(&self) -> &[Free]
        ensures { result.now ≡ self.now }
    {
        &self.items
    }

    pub fn into_vec(self) -> Vec<Free>
        ensures { result.items ≡ self }
    {
        self.items
    }
}
