ghost use Rattle.std.specs.Prelude.{◌≡◌};

use crate::Run;
use std::marker::Model;

/// Runs by ascending position, seen as their list.
#[derive(Drop)]
pub struct Runs {
    items: Vec<Run>,
}

impl Model for Runs {
    ghost use Rattle.std.specs.Prelude.{List};
    ghost use Rattle.reorder.specs.declared.run.Run.{Run};

    ghost Value = { List Run };

    ghost view = { λ r. r.items.items };
}

impl Runs {
    pub fn of(items: Vec<Run>) -> Self
        ensures { result ≡ items.items }
    {
        Runs { items }
    }

    pub fn as_slice(&self) -> &[Run]
        ensures { result.now ≡ self.now }
    {
        &self.items
    }

    pub fn into_vec(self) -> Vec<Run>
        ensures { result.items ≡ self }
    {
        self.items
    }
}
