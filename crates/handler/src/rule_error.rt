use crate::Memory;

/// Why a line is taken as no rule: want of memory, or that it is none.
#[derive(Clone, Copy, Debug, PartialEq, Eq)]
pub enum RuleError {
    Memory,
    Fault,
}

impl From<Memory> for RuleError {
    ghost use Rattle.std.specs.Prelude.{◌≡◌};
    ghost use Rattle.handler.specs.declared.rule_error.RuleError.TheVariants as errors;

    ghost from_gives = { λ _ e. e ≡ errors.Memory };

    fn from(_: Memory) -> Self {
        RuleError::Memory
    }
}
