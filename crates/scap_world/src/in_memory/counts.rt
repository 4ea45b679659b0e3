ghost use Rattle.std.specs.Prelude.{◌≡◌, ◌≢◌, ℕ, List, [], IsSome, IsTrue, OnOk, OnErr};
ghost use Rattle.scap_world.specs.Causes.{raised};
ghost use Rattle.scap_world.specs.Tables.{value_of, count_of};

use super::table::Table;
use std::alloc::{AllocError, Global};
use std::marker::Model;

/// How often each name has failed.
#[derive(Drop)]
pub(crate) struct Counts {
    names: Table<u64>,
}

impl Model for Counts {
    ghost use Rattle.std.specs.Prelude.{ℕ, List};

    ghost Value = { List (List ℕ × ℕ) };

    ghost view = { λ c. c.names };
}

impl Counts {
    pub fn new(alloc: Global) -> Self
        ensures { result ≡ [] }
    {
        Counts {
            names: Table::new(alloc),
        }
    }

    /// Makes room for the count of a name.
    pub fn admit(&mut self, name: &str) -> Result<(), AllocError>
        ensures room { OnOk result (IsSome (value_of self.new name.now)) }
        ensures counts { (other : List ℕ) → count_of self.new other ≡ count_of self.old other }
        ensures names { (other : List ℕ) → IsSome (value_of self.old other) → IsSome (value_of self.new other) }
        ensures err { OnErr result (self.new ≡ self.old) }
    {
        if !self.names.has(name) {
            self.names.put(name, 0)?;
        }
        Ok(())
    }

    /// Counts a failure of a name that has room.
    pub fn raise(&mut self, name: &str)
        requires { IsSome (value_of self.old name.now) }
        ensures raised { count_of self.new name.now ≡ raised (count_of self.old name.now) }
        ensures others { (other : List ℕ) → other ≢ name.now → count_of self.new other ≡ count_of self.old other }
        ensures names { (other : List ℕ) → IsSome (value_of self.old other) → IsSome (value_of self.new other) }
    {
        let before = self.names.get(name).copied().unwrap_or(0);
        self.names.set(name, before.saturating_add(1));
    }

    /// The same, where something has failed.
    pub fn raise_if(&mut self, name: &str, failed: bool)
        requires { IsSome (value_of self.old name.now) }
        ensures raised { IsTrue failed → count_of self.new name.now ≡ raised (count_of self.old name.now) }
        ensures same { ¬ IsTrue failed → count_of self.new name.now ≡ count_of self.old name.now }
        ensures others { (other : List ℕ) → other ≢ name.now → count_of self.new other ≡ count_of self.old other }
        ensures names { (other : List ℕ) → IsSome (value_of self.old other) → IsSome (value_of self.new other) }
    {
        if failed {
            self.raise(name);
        }
    }
}
