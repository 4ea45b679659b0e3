ghost use Rattle.std.specs.Prelude.{◌≡◌, ◌<◌, [], ◌∷◌, ◌++◌, length, IfSome, IfNone};
ghost use mathlib.Core.List.{IsPrefix};

use rtrb::Consumer;
use std::alloc::Global;
use std::marker::Model;

/// The end of a ring that takes. It may move to another thread.
#[derive(Drop)]
pub struct Taker<T> {
    pub(crate) end: Consumer<T, Global>,
}

impl<T> Model for Taker<T> {
    ghost use Rattle.std.specs.declared.alloc.Global.{Global as Heap};
    ghost use Rattle.evring.specs.RingEnds.{TakerParts, taker_parts};

    ghost Value = { TakerParts Heap T };

    ghost view = { λ t. taker_parts t.end };
}

impl<T> Taker<T> {
    /// Takes the first item that waits, or none where none is known to wait.
    pub fn pop(&mut self) -> Option<T>
        ensures ring { self.new.ring ≡ self.old.ring }
        ensures taken { IfSome result (λ x. self.new.taken ≡ self.old.taken ++ x ∷ []) }
        ensures first { IfSome result (λ x. IsPrefix self.old.known (x ∷ self.new.known)) }
        ensures none { IfNone result (self.new.taken ≡ self.old.taken) }
        ensures empty { IfNone result ((self.old.known ≡ []) × (self.new.known ≡ [])) }
    {
        match self.end.pop() {
            Ok(item) => Some(item),
            Err(_) => None,
        }
    }

    /// Takes the first of the items that are known to wait.
    pub fn pop_known(&mut self) -> T
        requires { 0 < length self.old.known }
        ensures ring { self.new.ring ≡ self.old.ring }
        ensures taken { self.new.taken ≡ self.old.taken ++ result ∷ [] }
        ensures known { self.old.known ≡ result ∷ self.new.known }
    {
        self.end.pop_known()
    }
}
