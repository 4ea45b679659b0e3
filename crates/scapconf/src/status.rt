ghost use Rattle.std.specs.Prelude.{◌≡◌};
ghost use Rattle.scapconf.specs.declared.status.Status.TheVariants.{Memory as OutOfMemory};

use crate::status_text::{put_bad_record, put_cut_short, put_not_pcap, put_settings};
use crate::{Memory, SettingsError, SettingsKind};
use pcapfile::HeadFault;
use std::alloc::{AllocError, AllocFailed};
use textout::put_text;

/// How a command ended.
#[derive(Clone, Copy, Debug, PartialEq, Eq)]
pub enum Status {
    Done,
    Memory,
    /// The words are no command.
    Usage,
    /// The settings have a fault in that line.
    Settings { line: u32, kind: SettingsKind },
    ReadFault,
    WriteFault,
    /// The file that should be a capture is none.
    NotPcap { kind: HeadFault },
    /// The record at that offset says that so many of its bytes were captured.
    BadRecord { at: u64, len: u32 },
    /// The last record is cut after so many bytes.
    CutShort { bytes: u64 },
    /// The capture has more records or bytes than are taken.
    TooLong,
    /// What is asked for is not built yet.
    Unbuilt,
}

impl From<Memory> for Status {
    ghost from_gives = { λ _ status. status ≡ OutOfMemory };

    fn from(_: Memory) -> Self {
        Status::Memory
    }
}

impl From<AllocError> for Status {
    ghost from_gives = { λ _ status. status ≡ OutOfMemory };

    fn from(_: AllocError) -> Self {
        Status::Memory
    }
}

impl<T: Drop> From<AllocFailed<T>> for Status {
    ghost from_gives = { λ _ status. status ≡ OutOfMemory };

    fn from(_: AllocFailed<T>) -> Self {
        Status::Memory
    }
}

impl From<pcapfile::Memory> for Status {
    ghost from_gives = { λ _ status. status ≡ OutOfMemory };

    fn from(_: pcapfile::Memory) -> Self {
        Status::Memory
    }
}

impl From<SettingsError> for Status {
    ghost use Rattle.std.specs.Prelude.{◌≡◌};
    ghost use Rattle.scapconf.specs.Causes.{status_for};

    ghost from_gives = { λ error status. status ≡ status_for error };

    fn from(error: SettingsError) -> Self {
        match error {
            SettingsError::Memory => Status::Memory,
            SettingsError::Fault { line, kind } => Status::Settings { line, kind },
        }
    }
}

impl Status {
    ghost use Rattle.std.specs.Prelude.{◌≡◌, ◌++◌, OnOk, OnErr};
    ghost use Rattle.textout.specs.Front.{IsFront};
    ghost use Rattle.scapconf.specs.StatusText.{number_of, status_text};

    /// The number that a program ends with.
    pub fn number(&self) -> u8
        ensures { result ≡ number_of self.now }
    {
        match self {
            Status::Done => 0,
            Status::Memory => 1,
            Status::Usage => 2,
            Status::Settings { .. } => 3,
            Status::ReadFault => 4,
            Status::WriteFault => 5,
            Status::NotPcap { .. } => 6,
            Status::BadRecord { .. } => 7,
            Status::CutShort { .. } => 8,
            Status::TooLong => 9,
            Status::Unbuilt => 13,
        }
    }

    fn put_parts(&self, usage: &str, out: &mut Vec<u8>) -> Result<(), textout::Memory>
        ensures ok { OnOk result (out.new.items ≡ out.old.items ++ status_text usage.now self.now) }
        ensures err { OnErr result (IsFront out.old.items out.new.items) }
    {
        match self {
            Status::Done => put_text(out, "done"),
            Status::Memory => put_text(out, "out of memory"),
            Status::Usage => put_text(out, usage),
            Status::Settings { line, kind } => put_settings(out, *line, *kind),
            Status::ReadFault => put_text(out, "read fault"),
            Status::WriteFault => put_text(out, "write fault"),
            Status::NotPcap { kind } => put_not_pcap(out, *kind),
            Status::BadRecord { at, len } => put_bad_record(out, *at, *len),
            Status::CutShort { bytes } => put_cut_short(out, *bytes),
            Status::TooLong => put_text(out, "too long"),
            Status::Unbuilt => put_text(out, "not built yet"),
        }
    }

    /// Appends the text that a program prints. `usage` is the program's usage line.
    pub fn put(&self, usage: &str, out: &mut Vec<u8>) -> Result<(), Memory>
        ensures ok { OnOk result (out.new.items ≡ out.old.items ++ status_text usage.now self.now) }
        ensures err { OnErr result (out.new.items ≡ out.old.items) }
    {
        let start = out.len();
        if self.put_parts(usage, out).is_err() {
            out.truncate(start);
            return Err(Memory);
        }
        Ok(())
    }
}
