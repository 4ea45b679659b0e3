ghost use Rattle.std.specs.List.{position_from};
ghost use Rattle.std.specs.Option.{option_copied};
ghost use Rattle.std.specs.Prelude.{◌≡◌, ◌<◌, ◌≤◌, ◌↔◌, ℕ, List, [], Some, IsSome, is_some, MatchOption, OnOk, OnErr, length};
ghost use Rattle.scap_world.specs.Tables.{is_named, value_of, with_value, IsFirst};

use std::alloc::{AllocError, Global};
use std::marker::Model;

/// A name with its value.
#[derive(Drop)]
pub(crate) struct Entry<V> {
    name: String,
    value: V,
}

impl<V> Model for Entry<V> {
    ghost use Rattle.std.specs.Prelude.{ℕ, List};
    ghost use Rattle.std.specs.String.{string_bytes};

    ghost Value = { List ℕ × V };

    ghost view = { λ e. (string_bytes e.name, e.value) };
}

/// Values by name, in the order in which the names came.
#[derive(Drop)]
pub(crate) struct Table<V> {
    alloc: Global,
    entries: Vec<Entry<V>>,
}

impl<V> Model for Table<V> {
    ghost use Rattle.std.specs.Prelude.{ℕ, List};

    ghost Value = { List (List ℕ × V) };

    ghost view = { λ t. t.entries.items };
}

impl<V: Drop> Table<V> {
    pub fn new(alloc: Global) -> Self
        ensures { result ≡ [] }
    {
        Table {
            alloc,
            entries: Vec::new(alloc),
        }
    }

    /// The index of the first entry of that name.
    fn index_of(&self, name: &str) -> Option<usize>
        ensures { MatchOption result (value_of self.now name.now ≡ None) (λ i. (i < length self.now) × IsFirst self.now i name.now) }
    {
        index_in(&self.entries, name)
    }

    /// The index of a name that is there.
    pub fn place(&self, name: &str) -> usize
        requires { IsSome (value_of self.now name.now) }
        ensures within { result < length self.now }
        ensures first { IsFirst self.now result name.now }
    {
        match self.index_of(name) {
            Some(i) => i,
            None => unreachable!(),
        }
    }

    /// Whether a name is there.
    pub fn has(&self, name: &str) -> bool
        ensures { result ≡ is_some (value_of self.now name.now) }
    {
        self.index_of(name).is_some()
    }

    /// The value of a name.
    pub fn get(&self, name: &str) -> Option<&V>
        ensures { option_copied result ≡ value_of self.now name.now }
    {
        match self.index_of(name) {
            Some(i) => {
                let entry = &self.entries[i];
                Some(&entry.value)
            }
            None => None,
        }
    }

    /// Gives a name that is there another value.
    pub fn set(&mut self, name: &str, value: V)
        requires { IsSome (value_of self.old name.now) }
        ensures { self.new ≡ with_value name.now value self.old }
    {
        let i = self.place(name);
        set_at(&mut self.entries, i, name, value);
    }

    /// Puts a value, in the place of one of that name.
    pub fn put(&mut self, name: &str, value: V) -> Result<(), AllocError>
        ensures ok { OnOk result (self.new ≡ with_value name.now value self.old) }
        ensures err { OnErr result (self.new ≡ self.old) }
    {
        if self.has(name) {
            self.set(name, value);
            return Ok(());
        }
        let name = String::from_str(self.alloc, name)?;
        self.entries.push(Entry { name, value })?;
        Ok(())
    }
}

fn index_in<V: Drop>(entries: &[Entry<V>], name: &str) -> Option<usize>
    ensures { MatchOption result (value_of entries.now name.now ≡ None) (λ i. (i < length entries.now) × IsFirst entries.now i name.now) }
{
    position_in(entries, name)
}

fn position_in<V: Drop>(entries: &[Entry<V>], name: &str) -> Option<usize>
    ensures { result ≡ position_from (is_named name.now) 0 entries.now }
{
    entries.iter().position(|entry| entry.name.as_str() == name)
}

fn set_at<V: Drop>(entries: &mut [Entry<V>], i: usize, name: &str, value: V)
    requires within { i < length entries.old }
    requires first { IsFirst entries.old i name.now }
    ensures { entries.new ≡ with_value name.now value entries.old }
{
    let entry = &mut entries[i];
    entry.value = value;
}
