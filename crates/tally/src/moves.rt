ghost use Rattle.std.specs.Prelude.{◌≡◌};
ghost use Rattle.tally.specs.Moves.{stamp_of};

/// A move of the budget: bytes that were granted, or given back, and the stamp that the move found.
#[derive(Clone, Copy, Debug, PartialEq, Eq)]
pub enum Move {
    Grant { stamp: u32, bytes: u32 },
    Free { stamp: u32, bytes: u32 },
}

impl Move {
    /// The stamp that the move found.
    pub fn stamp(&self) -> u32
        ensures { result ≡ stamp_of self.now }
    {
        match *self {
            Move::Grant { stamp, .. } | Move::Free { stamp, .. } => stamp,
        }
    }
}
