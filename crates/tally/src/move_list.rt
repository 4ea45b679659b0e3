ghost use Rattle.std.specs.Prelude.{◌≡◌};

use crate::Move;
use std::marker::Model;

/// Moves of a budget, seen as a list.
#[derive(Debug, Drop)]
pub struct MoveList {
    items: Vec<Move>,
}

impl Model for MoveList {
    ghost use Rattle.std.specs.Prelude.{List};
    ghost use Rattle.tally.specs.declared.moves.Move.{Move};

    ghost Value = { List Move };

    ghost view = { λ a. a.items.items };
}

impl MoveList {
    pub fn of(items: Vec<Move>) -> Self
        ensures { result ≡ items.items }
    {
        MoveList { items }
    }

    pub fn as_slice(&self) -> &[Move]
        ensures { result.now ≡ self.now }
    {
        &self.items
    }

    pub fn into_vec(self) -> Vec<Move>
        ensures { result.items ≡ self }
    {
        self.items
    }
}
