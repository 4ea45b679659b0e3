use crate::Memory;
use std::alloc::{AllocError, AllocFailed};

/// What a fault is: a token that is no word of the language, one that stands for no address, net or port where one
/// has to stand, a word in a wrong place, a text that ends too early, the 65th level of `not` and brackets, or the
/// 513th token.
#[derive(Clone, Copy, Debug, PartialEq, Eq)]
pub enum FilterKind {
    Token,
    Value,
    Unexpected,
    End,
    Deep,
    Long,
}

/// The first fault of a text: the offset of its token, or the length of a text that ends too early.
#[derive(Clone, Copy, Debug, PartialEq, Eq)]
pub struct FilterFault {
    pub at: u64,
    pub kind: FilterKind,
}

/// Why there is no filter: want of memory, or the text's fault.
#[derive(Clone, Copy, Debug, PartialEq, Eq)]
pub enum FilterError {
    Memory,
    Fault(FilterFault),
}

impl From<Memory> for FilterError {
    ghost use Rattle.std.specs.Prelude.{◌≡◌};
    ghost use Rattle.capfilter.specs.declared.filter_error.FilterError.TheVariants as errors;

    ghost from_gives = { λ _ e. e ≡ errors.Memory };

    fn from(_: Memory) -> Self {
        FilterError::Memory
    }
}

impl From<AllocError> for FilterError {
    ghost use Rattle.std.specs.Prelude.{◌≡◌};
    ghost use Rattle.capfilter.specs.declared.filter_error.FilterError.TheVariants as errors;

    ghost from_gives = { λ _ e. e ≡ errors.Memory };

    fn from(_: AllocError) -> Self {
        FilterError::Memory
    }
}

impl<T: Drop> From<AllocFailed<T>> for FilterError {
    ghost use Rattle.std.specs.Prelude.{◌≡◌};
    ghost use Rattle.capfilter.specs.declared.filter_error.FilterError.TheVariants as errors;

    ghost from_gives = { λ _ e. e ≡ errors.Memory };

    fn from(_: AllocFailed<T>) -> Self {
        FilterError::Memory
    }
}
