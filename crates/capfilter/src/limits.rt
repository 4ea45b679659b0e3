//! The limits of a filter's text.

/// The most tokens.
pub const MOST_TOKENS: usize = 512;

/// The most levels of `not` and brackets.
pub const MOST_LEVELS: usize = 64;
