ghost use Rattle.std.specs.Prelude.{◌≡◌, ◌≢◌, ◌⊎◌, ◌≤◌, ◌+◌, true, ℕ, List, All, IfSome, Option};
ghost use Rattle.scap_world.specs.Causes.{Rose};
ghost use Rattle.scap_world.specs.Files.{file_of, told_file, told_put};
ghost use Rattle.scapconf.specs.declared.settings.Settings.{Settings};
ghost use Rattle.capfilter.specs.Faults.{IsFault};
ghost use Rattle.capfilter.specs.declared.filter_error.FilterFault.{FilterFault};
ghost use Rattle.pcapgen.specs.Made.{made_file};
ghost use Rattle.labtop.specs.declared.limits.TheConstants.{MOST_BUILT};
ghost use Rattle.labtop.specs.Names.{match_name};
ghost use Rattle.labtop.specs.Causes.{RoseAtOutputs, RoseAtSettings};
ghost use Rattle.labtop.specs.Drill.{asked_of};
ghost use Rattle.labtop.specs.Answers.{By, Completes, HasHistory, IsAnswer, IsBefore, IsDoneBy, IsOfDrillBy, IsPart, LeavesBy, TakesFew};
ghost use Rattle.labtop.specs.Headline.{IsEmpty};
ghost use Rattle.labtop.specs.Heads.{IsBehindHead};
ghost use Rattle.labtop.specs.MakeAnswers.{CompletesMake, IsOfMake};
ghost use Rattle.labtop.specs.MatchAnswers.{no_filter, CompletesMatched, IsMatchAnswer, IsOfMatch, IsWritten, LeavesMatched};
ghost use Rattle.labtop.specs.Matching.{IsEnd};
ghost use Rattle.labtop.specs.Settings.{GoesBy, is_built};
ghost use Rattle.labtop.specs.Words.{command_of, outputs_of, texts, OfDrill, OfMake, OfMatch, Wrong, Later};

use crate::LabDone;
use crate::drill::drill_by;
use crate::make_run::make_run;
use crate::match_by::match_by;
use crate::words::{Asked, asked_in};
use scap_world::Shelf;
use scapconf::Status;
use std::alloc::Global;

/// Runs the command of the words on the shelf. The first word is the program's name.
pub fn lab_top<S: Shelf>(alloc: Global, words: &[&str], shelf: &mut S) -> LabDone
    // Other words are refused, and nothing else is.
    ensures usage { result.status ≡ Status.Usage → command_of (texts words.now) ≡ Wrong }
    ensures wrong { command_of (texts words.now) ≡ Wrong → ((result.status ≡ Status.Usage) ⊎ (result.status ≡ Status.Memory)) × (shelf.new ≡ shelf.old) }
    ensures later { command_of (texts words.now) ≡ Later → ((result.status ≡ Status.Unbuilt) ⊎ (result.status ≡ Status.Memory)) × (shelf.new ≡ shelf.old) }

    // A drill answers its settings' fault, or what its settings and the capture's bytes ask for, or a fault of the outside.
    ensures answer { OfDrill words.now (λ settings capture out.
        IfSome (S.files shelf.old) (λ files. IsAnswer files settings capture result.status)) }
    ensures done { OfDrill words.now (λ settings capture out. result.status ≡ Status.Done
        → IfSome (S.files shelf.old) (λ files. IsDoneBy files settings capture out result.journal (S.files shelf.old) (S.files shelf.new))) }
    ensures journal { result.status ≢ Status.Done → IsEmpty result.journal }

    // Also over a shelf that tells no files: a drill has one of its statuses, and the journal of one that is done is one history
    // of a budget that never passes a limit that its settings may have.
    ensures kinds { OfDrill words.now (λ settings capture out. IsOfDrillBy settings result.status) }
    ensures history { OfDrill words.now (λ settings capture out. result.status ≡ Status.Done
        → HasHistory settings result.journal) }

    // Where packets are delivered and no fault was counted, it is done, or there was no memory.
    ensures complete { OfDrill words.now (λ settings capture out.
        (RoseAtSettings settings (S.read_faults shelf.old) (S.read_faults shelf.new) → ⊥)
        → (Rose (S.read_faults shelf.old capture) (S.read_faults shelf.new capture) → ⊥)
        → (RoseAtOutputs out (S.write_faults shelf.old) (S.write_faults shelf.new) → ⊥)
        → IfSome (S.files shelf.old) (λ files. (s : Settings) → GoesBy files settings s → Completes (asked_of s (file_of files capture)) result.status)) }

    // Whatever the status, an output is as it was or holds a front of its text, and no other file is touched.
    ensures parts { OfDrill words.now (λ settings capture out.
        IfSome (S.files shelf.old) (λ files. LeavesBy files settings capture out (S.files shelf.old) (S.files shelf.new))) }
    ensures others { (other : List ℕ) → All (λ name. other ≢ name) (outputs_of (command_of (texts words.now)))
        → told_file (S.files shelf.new) other ≡ told_file (S.files shelf.old) other }
    ensures before { IsBefore result.status → S.files shelf.new ≡ S.files shelf.old }

    // Of the capture one byte more than the most is taken, where it is done.
    ensures few { OfDrill words.now (λ settings capture out. result.status ≡ Status.Done
        → IfSome (S.files shelf.old) (λ _. S.taken shelf.new capture ≤ MOST_BUILT + 1)) }

    // Of its settings one byte more than the longest text, where that has a fault.
    ensures settings_few { OfDrill words.now (λ settings capture out.
        IfSome (S.files shelf.old) (λ _. TakesFew result.status settings (S.taken shelf.new))) }

    // A fault was counted where it is answered: of the settings first, and of the capture where the settings are built and its
    // head isn't refused.
    ensures read { OfDrill words.now (λ settings capture out. result.status ≡ Status.ReadFault
        → RoseAtSettings settings (S.read_faults shelf.old) (S.read_faults shelf.new)
        ⊎ (Rose (S.read_faults shelf.old capture) (S.read_faults shelf.new capture) × IfSome (S.files shelf.old)
        (λ files. By files settings (λ s. is_built s ≡ true) × IsBehindHead (file_of files capture) (S.taken shelf.new capture)))) }
    ensures write { OfDrill words.now (λ settings capture out. result.status ≡ Status.WriteFault
        → RoseAtOutputs out (S.write_faults shelf.old) (S.write_faults shelf.new)) }

    // A match answers its filter's fault before it asks the shelf for anything; else what its filter and the capture's bytes ask for.
    ensures match_answer { OfMatch words.now (λ filter capture out.
        IfSome (S.files shelf.old) (λ files. IsMatchAnswer files filter capture result.status)) }
    ensures match_refused { OfMatch words.now (λ filter capture out. (fault : FilterFault) → IsFault filter fault
        → ((result.status ≡ Status.Memory) ⊎ (result.status ≡ no_filter)) × (shelf.new ≡ shelf.old)) }
    ensures match_kinds { OfMatch words.now (λ filter capture out. IsOfMatch filter result.status) }
    ensures match_journal { OfMatch words.now (λ filter capture out. IsEmpty result.journal) }

    // At the capture's end its file is whole; whatever the status, it is as it was or holds a front of its text.
    ensures match_written { OfMatch words.now (λ filter capture out. IsEnd result.status
        → IfSome (S.files shelf.old) (λ files. IsWritten files filter capture out (S.files shelf.old) (S.files shelf.new))) }
    ensures match_parts { OfMatch words.now (λ filter capture out.
        IfSome (S.files shelf.old) (λ files. LeavesMatched files filter capture out (S.files shelf.old) (S.files shelf.new))) }

    // Its faults were counted too, and where none was, the capture's own status is the answer, or there was no memory.
    ensures match_read { OfMatch words.now (λ filter capture out. result.status ≡ Status.ReadFault
        → Rose (S.read_faults shelf.old capture) (S.read_faults shelf.new capture)
        × IfSome (S.files shelf.old) (λ files. IsBehindHead (file_of files capture) (S.taken shelf.new capture))) }
    ensures match_write { OfMatch words.now (λ filter capture out. result.status ≡ Status.WriteFault
        → Rose (S.write_faults shelf.old (match_name out)) (S.write_faults shelf.new (match_name out))) }
    ensures match_complete { OfMatch words.now (λ filter capture out.
        (Rose (S.read_faults shelf.old capture) (S.read_faults shelf.new capture) → ⊥)
        → (Rose (S.write_faults shelf.old (match_name out)) (S.write_faults shelf.new (match_name out)) → ⊥)
        → IfSome (S.files shelf.old) (λ files. CompletesMatched files filter capture result.status)) }

    // A make is done, or answers a fault of the outside.
    ensures make_kinds { OfMake words.now (λ seed count capture. IsOfMake result.status) }
    ensures make_journal { OfMake words.now (λ seed count capture. IsEmpty result.journal) }

    // Where it is done its capture is the made one; whatever the status, it is as it was or holds a front of that.
    ensures make_written { OfMake words.now (λ seed count capture. result.status ≡ Status.Done
        → S.files shelf.new ≡ told_put capture (made_file seed count) (S.files shelf.old)) }
    ensures make_parts { OfMake words.now (λ seed count capture.
        IsPart (made_file seed count) (told_file (S.files shelf.old) capture) (told_file (S.files shelf.new) capture)) }

    // A fault of writing was counted where it is answered, and where none was it is done, or there was no memory.
    ensures make_write { OfMake words.now (λ seed count capture. result.status ≡ Status.WriteFault
        → Rose (S.write_faults shelf.old capture) (S.write_faults shelf.new capture)) }
    ensures make_complete { OfMake words.now (λ seed count capture.
        (Rose (S.write_faults shelf.old capture) (S.write_faults shelf.new capture) → ⊥) → CompletesMake result.status) }

    // What was opened is ended, and what was created is finished.
    ensures open_files { S.open_files shelf.new ≡ S.open_files shelf.old }
{
    match asked_in(alloc, words) {
        Ok(
            Asked::Drill {
                settings,
                capture,
                out,
            },
        ) => drill_by(alloc, settings, capture, out, shelf),
        Ok(
            Asked::Match {
                filter,
                capture,
                out,
            },
        ) => {
            let status = match_by(alloc, filter, capture, out, shelf);
            LabDone::without_report(alloc, status)
        }
        Ok(
            Asked::Make {
                seed,
                count,
                capture,
            },
        ) => {
            let status = make_run(alloc, seed, count, capture, shelf);
            LabDone::without_report(alloc, status)
        }
        Ok(Asked::Wrong) => LabDone::without_report(alloc, Status::Usage),
        Ok(Asked::Later) => LabDone::without_report(alloc, Status::Unbuilt),
        Err(_) => LabDone::without_report(alloc, Status::Memory),
    }
}
