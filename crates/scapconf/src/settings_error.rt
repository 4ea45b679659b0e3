use crate::Memory;

/// What is wrong in a line of settings: the whole text is too long; a byte that no line may have; an unknown first word; a line
/// that was there before; too few or too many words; a word that is none of its line's words, or no number in range; a filter
/// that is none; a budget that is none; a rule that is none; one class or rule too many.
#[derive(Clone, Copy, Debug, PartialEq, Eq)]
pub enum SettingsKind {
    Long,
    Text,
    Word,
    Repeated,
    Count,
    Number,
    Filter,
    Budget,
    Rule,
    Many,
}

/// Why there are no settings: want of memory, or the text's first fault. Lines are numbered from 1; a text that is too long has
/// its fault in line 0.
#[derive(Clone, Copy, Debug, PartialEq, Eq)]
pub enum SettingsError {
    Memory,
    Fault { line: u32, kind: SettingsKind },
}

impl From<Memory> for SettingsError {
    ghost use Rattle.std.specs.Prelude.{◌≡◌};
    ghost use Rattle.scapconf.specs.declared.settings_error.SettingsError.TheVariants as errors;

    ghost from_gives = { λ _ e. e ≡ errors.Memory };

    fn from(_: Memory) -> Self {
        SettingsError::Memory
    }
}
