//! The definitions evaluated on words, lines and statuses written out by hand.
ghost use Rattle.std.specs.Prelude.{◌≡◌, [], ◌∷◌, Some, None, codes, true, false};
ghost use Rattle.std.specs.Str.Lines.{lines};
ghost use Rattle.cutclass.specs.declared.cut.Cut.TheVariants.{Unset, Endless, At};
ghost use Rattle.overpolicy.specs.declared.mode.Mode.TheVariants.{Strict, Fast};
ghost use Rattle.overpolicy.specs.declared.policy.Policy.TheVariants.{First, Last, Bsd, Linux};
ghost use Rattle.pcapfile.specs.declared.head_fault.HeadFault.TheVariants as heads;
ghost use Rattle.scapconf.specs.Defaults.{default_shape, default_cutoffs, default_marks, default_settings};
ghost use Rattle.scapconf.specs.Faults.{count_fits};
ghost use Rattle.scapconf.specs.Lines.{is_text, said};
ghost use Rattle.scapconf.specs.Names.{name, place, heading, line_with};
ghost use Rattle.scapconf.specs.StatusText.{status_text};
ghost use Rattle.scapconf.specs.Values.{mode, policy, size, time, cutoff, class_cut, class_priority, budget};
ghost use Rattle.scapconf.specs.declared.name.Name.TheVariants as names;
ghost use Rattle.scapconf.specs.declared.place.Place.TheVariants.{Default, Fore, Back};
ghost use Rattle.scapconf.specs.declared.settings_error.SettingsKind.TheVariants as kinds;
ghost use Rattle.scapconf.specs.declared.size.Size.TheVariants.{Chunk, Overlap, Reorder};
ghost use Rattle.scapconf.specs.declared.status.Status.TheVariants as statuses;
ghost use Rattle.scapconf.specs.declared.time.Time.TheVariants.{Flush, Hole, Idle};

use crate::{LONGEST_TEXT, MOST_RULES};
use cutclass::MOST_CLASSES;

/// Texts with numbers and words.
pub fn texts_tell_numbers()
    ensures settings { status_text (codes "usage") (statuses.Settings 12 kinds.Repeated) ≡ codes "settings: line 12: repeated" }
    ensures whole_text { status_text (codes "usage") (statuses.Settings 0 kinds.Long) ≡ codes "settings: line 0: long" }
    ensures head { status_text (codes "usage") (statuses.NotPcap heads.PcapNg) ≡ codes "not a pcap file: pcapng" }
    ensures record { status_text (codes "usage") (statuses.BadRecord 24 262145) ≡ codes "bad record at 24: captured length 262145" }
    ensures cut { status_text (codes "usage") (statuses.CutShort 15) ≡ codes "capture ends inside a record: 15 bytes" }
    ensures usage { status_text (codes "usage") statuses.Usage ≡ codes "usage" }
{}

/// Words stand apart by blanks, and a remark has none.
pub fn lines_have_words()
    ensures blanks { said (codes " chunk  1 ") ≡ codes "chunk" ∷ codes "1" ∷ [] }
    ensures tab { said (49 ∷ 9 ∷ 50 ∷ []) ≡ codes "1" ∷ codes "2" ∷ [] }
    ensures empty { said (codes "  ") ≡ [] }
    ensures remark { said (codes "#chunk 1") ≡ [] }
    ensures no_remark { said (codes " #") ≡ codes "#" ∷ [] }
{}

/// A carriage return is dropped before a line feed alone.
pub fn lines_have_ends()
    ensures both { lines (49 ∷ 13 ∷ 10 ∷ 50 ∷ 10 ∷ []) ≡ codes "1" ∷ codes "2" ∷ [] }
    ensures last { lines (49 ∷ 10 ∷ 50 ∷ 13 ∷ []) ≡ codes "1" ∷ (50 ∷ 13 ∷ []) ∷ [] }
    ensures one { lines (13 ∷ 13 ∷ 10 ∷ []) ≡ (13 ∷ []) ∷ [] }
    ensures allowed { is_text (9 ∷ 32 ∷ 126 ∷ []) ≡ true }
    ensures low { is_text (31 ∷ []) ≡ false }
    ensures high { is_text (127 ∷ []) ≡ false }
    ensures returned { is_text (13 ∷ []) ≡ false }
    ensures fed { is_text (10 ∷ []) ≡ false }
{}

/// The most bytes of a text, and the most rules and classes in it.
pub fn limits_are_the_stated_ones()
    ensures bytes { LONGEST_TEXT ≡ 65536 }
    ensures rules { MOST_RULES ≡ 32 }
    ensures classes { MOST_CLASSES ≡ 32 }
{}

/// First words, and the second ones that are words.
pub fn words_are_names()
    ensures strict { mode (codes "strict") ≡ Some Strict }
    ensures fast { mode (codes "fast") ≡ Some Fast }
    ensures no_mode { mode (codes "Fast") ≡ None }
    ensures first { policy (codes "first") ≡ Some First }
    ensures last { policy (codes "last") ≡ Some Last }
    ensures bsd { policy (codes "bsd") ≡ Some Bsd }
    ensures linux { policy (codes "linux") ≡ Some Linux }
    ensures no_policy { policy (codes "windows") ≡ None }
    ensures chunk { name (codes "chunk") ≡ Some (names.Size Chunk) }
    ensures idle { name (codes "idle") ≡ Some (names.Time Idle) }
    ensures rule { name (codes "rule") ≡ Some names.Rule }
    ensures longer { name (codes "rules") ≡ None }
    ensures upper { name (codes "MODE") ≡ None }
    ensures default { place (codes "default") ≡ Some Default }
    ensures fore { place (codes "fore") ≡ Some Fore }
    ensures back { place (codes "back") ≡ Some Back }
    ensures no_place { place (codes "none") ≡ None }
{}

/// Sizes at both ends of their ranges, and one past.
pub fn sizes_have_ranges()
    ensures chunk_below { size Chunk (codes "0") ≡ None }
    ensures chunk_least { size Chunk (codes "1") ≡ Some 1 }
    ensures chunk_greatest { size Chunk (codes "1048576") ≡ Some 1048576 }
    ensures chunk_above { size Chunk (codes "1048577") ≡ None }
    ensures overlap_least { size Overlap (codes "0") ≡ Some 0 }
    ensures overlap_greatest { size Overlap (codes "65536") ≡ Some 65536 }
    ensures overlap_above { size Overlap (codes "65537") ≡ None }
    ensures reorder_least { size Reorder (codes "0") ≡ Some 0 }
    ensures reorder_greatest { size Reorder (codes "16777216") ≡ Some 16777216 }
    ensures reorder_above { size Reorder (codes "16777217") ≡ None }
    ensures ten_digits { size Chunk (codes "0000000007") ≡ Some 7 }
    ensures eleven_digits { size Chunk (codes "00000000007") ≡ None }
    ensures empty { size Overlap [] ≡ None }
    ensures sign { size Chunk (codes "+1") ≡ None }
{}

/// Times at both ends of their ranges, and one past: told in milliseconds, kept in nanoseconds.
pub fn times_have_ranges()
    ensures flush_least { time Flush (codes "0") ≡ Some 0 }
    ensures flush_scaled { time Flush (codes "1") ≡ Some 1000000 }
    ensures flush_greatest { time Flush (codes "3600000") ≡ Some 3600000000000 }
    ensures flush_above { time Flush (codes "3600001") ≡ None }
    ensures hole_below { time Hole (codes "0") ≡ None }
    ensures hole_least { time Hole (codes "1") ≡ Some 1000000 }
    ensures hole_greatest { time Hole (codes "3600000") ≡ Some 3600000000000 }
    ensures hole_above { time Hole (codes "3600001") ≡ None }
    ensures idle_below { time Idle (codes "0") ≡ None }
    ensures idle_least { time Idle (codes "1") ≡ Some 1000000 }
    ensures idle_greatest { time Idle (codes "86400000") ≡ Some 86400000000000 }
    ensures idle_above { time Idle (codes "86400001") ≡ None }
    ensures ten_digits { time Idle (codes "0000000007") ≡ Some 7000000 }
    ensures eleven_digits { time Idle (codes "00000000007") ≡ None }
{}

/// Cutoffs have 64 bits and up to twenty digits; those of classes may be unset.
pub fn cutoffs_have_64_bits()
    ensures least { cutoff (codes "0") ≡ Some (At 0) }
    ensures greatest { cutoff (codes "18446744073709551615") ≡ Some (At 18446744073709551615) }
    ensures above { cutoff (codes "18446744073709551616") ≡ None }
    ensures twenty_digits { cutoff (codes "00000000000000000007") ≡ Some (At 7) }
    ensures more_digits { cutoff (codes "000000000000000000007") ≡ None }
    ensures endless { cutoff (codes "none") ≡ Some Endless }
    ensures never_unset { cutoff (codes "-") ≡ None }
    ensures unset { class_cut (codes "-") ≡ Some Unset }
    ensures of_class { class_cut (codes "none") ≡ Some Endless }
    ensures least_priority { class_priority (codes "0") ≡ Some 0 }
    ensures greatest_priority { class_priority (codes "15") ≡ Some 15 }
    ensures no_priority { class_priority (codes "16") ≡ None }
{}

/// The numbers of a budget have 32, 32 and 8 bits.
pub fn budgets_have_their_bits()
    ensures least { budget (codes "0") (codes "0") (codes "0") ≡ Some (record { limit = 0; base = 0; count = 0 }) }
    ensures greatest { budget (codes "4294967295") (codes "4294967295") (codes "255") ≡ Some (record { limit = 4294967295; base = 4294967295; count = 255 }) }
    ensures apart { budget (codes "3") (codes "2") (codes "1") ≡ Some (record { limit = 3; base = 2; count = 1 }) }
    ensures limit { budget (codes "4294967296") (codes "0") (codes "1") ≡ None }
    ensures base { budget (codes "4096") (codes "4294967296") (codes "1") ≡ None }
    ensures count { budget (codes "4096") (codes "0") (codes "256") ≡ None }
{}

/// How many words a line has.
pub fn lines_have_their_words()
    ensures sizes { count_fits (names.Size Chunk) 2 ≡ true }
    ensures cutoffs { count_fits names.Cutoff 3 ≡ true }
    ensures budgets { count_fits names.Budget 4 ≡ true }
    ensures more_than_mode { count_fits names.Mode 3 ≡ false }
    ensures more_than_cutoff { count_fits names.Cutoff 4 ≡ false }
    ensures filters { count_fits names.Filter 9 ≡ true }
    ensures no_filter { count_fits names.Filter 1 ≡ false }
    ensures classes { count_fits names.Class 4 ≡ true }
    ensures no_class { count_fits names.Class 3 ≡ false }
    ensures rules { count_fits names.Rule 2 ≡ true }
    ensures no_rule { count_fits names.Rule 1 ≡ false }
{}

/// A line is found by its first word, and a cutoff by its first two.
pub fn lines_are_found_by_their_heads()
    ensures one { heading (codes "chunk" ∷ codes "1" ∷ []) ≡ codes "chunk" ∷ [] }
    ensures two { heading (codes "cutoff" ∷ codes "fore" ∷ codes "1" ∷ []) ≡ codes "cutoff" ∷ codes "fore" ∷ [] }
    ensures found { line_with (codes "cutoff" ∷ codes "back" ∷ [])
        ((codes "cutoff" ∷ codes "fore" ∷ codes "1" ∷ []) ∷ (codes "cutoff" ∷ codes "back" ∷ codes "2" ∷ []) ∷ [])
        ≡ Some (codes "cutoff" ∷ codes "back" ∷ codes "2" ∷ []) }
    ensures missing { line_with (codes "cutoff" ∷ codes "back" ∷ []) ((codes "cutoff" ∷ codes "fore" ∷ codes "1" ∷ []) ∷ []) ≡ None }
{}

/// The defaults are those that these words would say.
pub fn defaults_could_be_said()
    ensures mode { mode (codes "strict") ≡ Some default_shape.mode }
    ensures policy { policy (codes "first") ≡ Some default_shape.policy }
    ensures chunk { size Chunk (codes "16384") ≡ Some default_shape.chunk }
    ensures overlap { size Overlap (codes "0") ≡ Some default_shape.overlap }
    ensures flush { time Flush (codes "0") ≡ Some default_shape.flush }
    ensures hole { time Hole (codes "1000") ≡ Some default_shape.hole }
    ensures reorder { size Reorder (codes "262144") ≡ Some default_shape.reorder }
    ensures idle { time Idle (codes "300000") ≡ Some default_shape.idle }
    ensures budget { budget (codes "67108864") (codes "33554432") (codes "1") ≡ Some default_marks }
    ensures cutoffs { default_cutoffs ≡ record { default = Unset; fore = Unset; back = Unset; classes = [] } }
    ensures filter { default_settings.filter ≡ None }
    ensures rules { default_settings.rules ≡ [] }
{}
