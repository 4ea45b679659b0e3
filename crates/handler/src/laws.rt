//! What the definitions mean, each as the contract of a function with an empty body.
ghost use Rattle.std.specs.Prelude.{ℕ, List};
ghost use Rattle.handler.specs.Laws.{HasOneRule, IsRuleOrNone, KeepsOfChunks};

/// No line is two rules.
pub fn lines_have_one_rule()
    ensures { (line : List ℕ) → HasOneRule line }
{}

/// Each line is a rule or none.
pub fn lines_are_rules_or_none()
    ensures { (line : List ℕ) → IsRuleOrNone line }
{}

/// No rule of new conversations keeps.
pub fn chunks_alone_are_kept()
    ensures { (line : List ℕ) → KeepsOfChunks line }
{}
