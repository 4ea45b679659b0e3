use crate::rule_reader::read;
use crate::{Condition, Memory, RuleError};
use evring::Advice;
use std::alloc::Global;

/// What is advised at which events.
#[derive(Debug, Drop)]
pub struct Rule {
    pub condition: Condition,
    pub advice: Advice,
}

impl Rule {
    ghost use Rattle.std.specs.Prelude.{◌≡◌, IfOk, IsErrOf, MatchResult};
    ghost use Rattle.handler.specs.declared.rule.Rule.{Rule};
    ghost use Rattle.handler.specs.declared.rule_error.RuleError.TheVariants as errors;
    ghost use Rattle.handler.specs.Grammar.{Reads};

    /// The rule that a line is (docs/FORMATS.md, "Rules").
    pub fn parse(alloc: Global, line: &str) -> Result<Rule, RuleError>
        ensures parsed { IfOk result (Reads line.now) }
        // What is a rule is refused only for want of memory.
        ensures only { (rule : Rule) → Reads line.now rule → MatchResult result (λ parsed. parsed ≡ rule) (λ error. error ≡ errors.Memory) }
        ensures refused { IsErrOf result errors.Fault → (rule : Rule) → ¬ Reads line.now rule }
    {
        read(alloc, line.as_bytes())
    }

    /// An equal rule.
    pub fn copy(&self) -> Result<Rule, Memory>
        ensures { IfOk result (λ rule. rule ≡ self.now) }
    {
        Ok(Rule {
            condition: self.condition.copy()?,
            advice: self.advice,
        })
    }
}
