ghost use Rattle.std.specs.Prelude.{◌≡◌, ◌+◌, ◌≤◌, [], ◌∷◌, ◌++◌, IfErr, OnOk, OnErr};

use rtrb::{Producer, PushError};
use std::alloc::Global;
use std::marker::Model;

/// The end of a ring that gives. It may move to another thread.
#[derive(Drop)]
pub struct Giver<T> {
    pub(crate) end: Producer<T, Global>,
}

impl<T> Model for Giver<T> {
    ghost use Rattle.std.specs.declared.alloc.Global.{Global as Heap};
    ghost use Rattle.evring.specs.RingEnds.{GiverParts, giver_parts};

    ghost Value = { GiverParts Heap T };

    ghost view = { λ g. giver_parts g.end };
}

impl<T> Giver<T> {
    /// Gives an item, or hands it back where no place is known to be free.
    pub fn push(&mut self, item: T) -> Result<(), T>
        ensures ring { self.new.ring ≡ self.old.ring }
        ensures given { OnOk result (self.new.given ≡ self.old.given ++ item ∷ []) }
        ensures room { OnOk result (self.old.free ≤ self.new.free + 1) }
        ensures back { IfErr result (λ e. (e ≡ item) × (self.new.given ≡ self.old.given)) }
        ensures full { OnErr result ((self.old.free ≡ 0) × (self.new.free ≡ 0)) }
    {
        match self.end.push(item) {
            Ok(()) => Ok(()),
            Err(PushError::Full(back)) => Err(back),
        }
    }
}
