ghost use Rattle.std.specs.Prelude.{◌≡◌, IfOk, [], ◌∷◌, ◌++◌, OnOk, OnErr};

use crate::{Memory, Rule};
use std::alloc::Global;
use std::marker::Model;

/// Rules, the first of which that fits an event decides, seen as a list.
#[derive(Debug, Drop)]
pub struct RuleList {
    items: Vec<Rule>,
}

impl Model for RuleList {
    ghost use Rattle.std.specs.Prelude.{List};
    ghost use Rattle.handler.specs.declared.rule.Rule.{Rule};

    ghost Value = { List Rule };

    ghost view = { λ l. l.items.items };
}

impl RuleList {
    pub fn of(items: Vec<Rule>) -> Self
        ensures { result ≡ items.items }
    {
        RuleList { items }
    }

    /// No rules.
    pub fn none(alloc: Global) -> Self
        ensures { result ≡ [] }
    {
        RuleList {
            items: Vec::new(alloc),
        }
    }

    pub fn as_slice(&self) -> &[Rule]
        ensures { result.now ≡ self.now }
    {
        &self.items
    }

    pub fn into_vec(self) -> Vec<Rule>
        ensures { result.items ≡ self }
    {
        self.items
    }

    /// Puts a rule behind these.
    pub fn push(&mut self, rule: Rule) -> Result<(), Memory>
        ensures ok { OnOk result (self.new ≡ self.old ++ rule ∷ []) }
        ensures err { OnErr result (self.new ≡ self.old) }
    {
        self.items.push(rule)?;
        Ok(())
    }

    /// Equal rules in the same order.
    pub fn copy(&self) -> Result<RuleList, Memory>
        ensures { IfOk result (λ rules. rules ≡ self.now) }
    {
        let mut items = Vec::with_capacity(*self.items.allocator(), self.items.len())?;
        for rule in &self.items {
            items.push(rule.copy()?)?;
        }
        Ok(RuleList { items })
    }
}
