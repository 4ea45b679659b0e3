//! The limits of a settings text. Of classes there are as many as cutclass takes.

/// The most bytes of a text.
pub const LONGEST_TEXT: usize = 65_536;

/// The most rules.
pub const MOST_RULES: usize = 32;
