ghost use Rattle.std.specs.Prelude.{◌≡◌};
ghost use Rattle.scapconf.specs.Parser.{error_at};

use crate::{Memory, SettingsError, SettingsKind};

/// Why a line is not taken: want of memory, or its fault.
#[derive(Clone, Copy)]
pub(crate) enum LineError {
    Memory,
    Fault(SettingsKind),
}

impl From<Memory> for LineError {
    ghost use Rattle.std.specs.Prelude.{◌≡◌};
    ghost use Rattle.scapconf.specs.declared.line_error.LineError.TheVariants as errors;

    ghost from_gives = { λ _ e. e ≡ errors.Memory };

    fn from(_: Memory) -> Self {
        LineError::Memory
    }
}

impl LineError {
    /// The error of a text whose line has this one.
    pub(crate) fn at(self, line: u32) -> SettingsError
        ensures { result ≡ error_at line self }
    {
        match self {
            LineError::Memory => SettingsError::Memory,
            LineError::Fault(kind) => SettingsError::Fault { line, kind },
        }
    }
}
