ghost use Rattle.std.specs.Prelude.{◌≡◌, IfOk, IfErr, IsErrAnd, MatchResult, ℕ};
ghost use Rattle.scapconf.specs.declared.settings.Settings.{Settings};
ghost use Rattle.scapconf.specs.declared.settings_error.SettingsKind.{SettingsKind};
ghost use Rattle.scapconf.specs.Faults.{IsFault};
ghost use Rattle.scapconf.specs.Parser.{IsMemoryOrFault};
ghost use Rattle.scapconf.specs.Says.{Reads};

use crate::limits::LONGEST_TEXT;
use crate::line::next_line;
use crate::reader::Reader;
use crate::{Settings, SettingsError, SettingsKind};
use std::alloc::Global;

impl Settings {
    /// The settings that a text says (docs/FORMATS.md, "Settings"), or its first fault.
    pub fn parse(alloc: Global, text: &[u8]) -> Result<Settings, SettingsError>
        ensures parsed { IfOk result (Reads text.now) }
        // What is without fault is refused only for want of memory.
        ensures only { (s : Settings) → Reads text.now s → MatchResult result (λ settings. settings ≡ s) (λ error. error ≡ SettingsError.Memory) }
        ensures refused { IfErr result (IsMemoryOrFault (IsFault text.now)) }
        // What has a fault is not read, and no other fault is told.
        ensures least { (line : ℕ) (kind : SettingsKind) → IsFault text.now line kind → IsErrAnd result (IsMemoryOrFault (λ l k. (l ≡ line) × (k ≡ kind))) }
    {
        Settings::read(alloc, text)
    }

    fn read(alloc: Global, text: &[u8]) -> Result<Settings, SettingsError>
        ensures parsed { IfOk result (Reads text.now) }
        ensures refused { IfErr result (IsMemoryOrFault (IsFault text.now)) }
    {
        if text.len() > LONGEST_TEXT {
            return Err(SettingsError::Fault {
                line: 0,
                kind: SettingsKind::Long,
            });
        }
        let mut reader = Reader::new(alloc)?;
        let mut number: u32 = 0;
        let mut left = text;
        while let Some((line, behind)) = next_line(left) {
            number += 1;
            match reader.take(alloc, line) {
                Ok(()) => left = behind,
                Err(error) => return Err(error.at(number)),
            }
        }
        Ok(reader.into_settings())
    }
}
