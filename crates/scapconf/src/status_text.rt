// Texts of statuses that have more than one word to tell.
ghost use Rattle.std.specs.Prelude.{◌≡◌, ◌++◌, OnOk, OnErr};
ghost use Rattle.textout.specs.Front.{IsFront};
ghost use Rattle.scapconf.specs.StatusText.{bad_record_text, cut_short_text, fault_word, kind_word, not_pcap_text, settings_text};

use crate::SettingsKind;
use pcapfile::HeadFault;
use textout::{Memory, put_count, put_text};

fn word_of(kind: SettingsKind) -> &'static str
    ensures { result.now ≡ kind_word kind }
{
    match kind {
        SettingsKind::Long => "long",
        SettingsKind::Text => "text",
        SettingsKind::Word => "word",
        SettingsKind::Repeated => "repeated",
        SettingsKind::Count => "count",
        SettingsKind::Number => "number",
        SettingsKind::Filter => "filter",
        SettingsKind::Budget => "budget",
        SettingsKind::Rule => "rule",
        SettingsKind::Many => "many",
    }
}

fn word_of_fault(kind: HeadFault) -> &'static str
    ensures { result.now ≡ fault_word kind }
{
    match kind {
        HeadFault::Short => "short",
        HeadFault::PcapNg => "pcapng",
        HeadFault::Magic => "magic",
        HeadFault::Major => "major",
        HeadFault::Link => "link",
    }
}

pub(crate) fn put_settings(out: &mut Vec<u8>, line: u32, kind: SettingsKind) -> Result<(), Memory>
    ensures ok { OnOk result (out.new.items ≡ out.old.items ++ settings_text line kind) }
    ensures err { OnErr result (IsFront out.old.items out.new.items) }
{
    put_count(out, "settings: line ", u64::from(line))?;
    put_text(out, ": ")?;
    put_text(out, word_of(kind))
}

pub(crate) fn put_not_pcap(out: &mut Vec<u8>, kind: HeadFault) -> Result<(), Memory>
    ensures ok { OnOk result (out.new.items ≡ out.old.items ++ not_pcap_text kind) }
    ensures err { OnErr result (IsFront out.old.items out.new.items) }
{
    put_text(out, "not a pcap file: ")?;
    put_text(out, word_of_fault(kind))
}

pub(crate) fn put_bad_record(out: &mut Vec<u8>, at: u64, len: u32) -> Result<(), Memory>
    ensures ok { OnOk result (out.new.items ≡ out.old.items ++ bad_record_text at len) }
    ensures err { OnErr result (IsFront out.old.items out.new.items) }
{
    put_count(out, "bad record at ", at)?;
    put_count(out, ": captured length ", u64::from(len))
}

pub(crate) fn put_cut_short(out: &mut Vec<u8>, bytes: u64) -> Result<(), Memory>
    ensures ok { OnOk result (out.new.items ≡ out.old.items ++ cut_short_text bytes) }
    ensures err { OnErr result (IsFront out.old.items out.new.items) }
{
    put_count(out, "capture ends inside a record: ", bytes)?;
    put_text(out, " bytes")
}
