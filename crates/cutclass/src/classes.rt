ghost use Rattle.std.specs.Prelude.{◌≡◌, ◌<◌, ◌≤◌, ◌↔◌, [], ◌∷◌, ◌++◌, All, length, false, option_copied, IfOk, IfErr, IsNone, OnOk, OnErr};
ghost use Rattle.capfilter.specs.Truth.{truth};
ghost use Rattle.cutclass.specs.InForce.{first_class};
ghost use Rattle.cutclass.specs.Refusal.{IsRefusal};

use crate::{ClassError, ClassRule, Memory};
use std::alloc::Global;
use std::marker::Model;
use streamkey::{Key, Toward};

/// The most classes.
pub const MOST_CLASSES: usize = 32;

/// Classes in the order in which they were added, seen as a list.
#[derive(Debug, Drop)]
pub struct Classes {
    items: Vec<ClassRule>,
}

impl Model for Classes {
    ghost use Rattle.std.specs.Prelude.{List, ◌≤◌, length};
    ghost use Rattle.std.specs.Coded.{coded_list};
    ghost use Rattle.cutclass.specs.contracts.class_rule.ClassRule as rules;
    ghost use Rattle.cutclass.specs.declared.class_rule.ClassRule.{ClassRule};
    ghost use Rattle.cutclass.specs.declared.classes.TheConstants.{MOST_CLASSES};

    ghost Value = { List ClassRule };

    ghost coded = { coded_list rules.the_row.coded };

    ghost view = { λ c. c.items.items };

    ghost invariant = { λ c. length c.items.items ≤ MOST_CLASSES };
}

impl Classes {
    pub fn new(alloc: Global) -> Classes
        ensures { result ≡ [] }
    {
        Classes {
            items: Vec::new(alloc),
        }
    }

    /// Adds a class behind the others.
    pub fn add(&mut self, rule: ClassRule) -> Result<(), ClassError>
        ensures added { OnOk result (self.new ≡ self.old ++ rule ∷ []) }
        ensures room { OnOk result (length self.old < MOST_CLASSES) }
        ensures refused { IfErr result (IsRefusal self.old rule) }
        ensures same { OnErr result (self.new ≡ self.old) }
    {
        if self.items.len() == MOST_CLASSES {
            return Err(ClassError::Full(rule));
        }
        match self.items.push(rule) {
            Ok(()) => Ok(()),
            Err(failed) => Err(ClassError::Memory(failed.value)),
        }
    }

    pub fn as_slice(&self) -> &[ClassRule]
        ensures all { result.now ≡ self.now }
        ensures few { length self.now ≤ MOST_CLASSES }
    {
        &self.items
    }

    /// The class of conversations whose first packet has this key and way: the first whose filter holds.
    pub fn find(&self, key: &Key, toward: Toward) -> Option<&ClassRule>
        ensures first { option_copied result ≡ first_class self.now key.now toward }
        ensures none { IsNone result ↔ All (λ rule. truth rule.filter key.now toward ≡ false) self.now }
    {
        self.items
            .iter()
            .find(|rule| rule.filter.matches(key, toward))
    }

    /// Equal classes in the same order.
    pub fn copy(&self) -> Result<Classes, Memory>
        ensures { IfOk result (λ classes. classes ≡ self.now) }
    {
        let mut items = Vec::with_capacity(*self.items.allocator(), self.items.len())?;
        for rule in &self.items {
            items.push(rule.copy()?)?;
        }
        Ok(Classes { items })
    }
}
