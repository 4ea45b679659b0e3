// From a capture to its files.
ghost use Rattle.std.specs.Prelude.{◌≡◌, ◌≢◌, ◌⊎◌, ◌≤◌, ◌+◌, ℕ, List, true, false, IfErr, IfSome, OnOk, IsErrOf};
ghost use Rattle.histbook.specs.Moves.{IsBudgetHistory};
ghost use Rattle.scap_world.specs.Causes.{Rose};
ghost use Rattle.scap_world.specs.Files.{file_of, told_file, told_put};
ghost use Rattle.labtop.specs.declared.limits.TheConstants.{MOST_BUILT};
ghost use Rattle.labtop.specs.Names.{delivery_name, report_name};
ghost use Rattle.labtop.specs.Causes.{RoseAtOutputs, RoseAtSettings};
ghost use Rattle.labtop.specs.Drill.{asked_of};
ghost use Rattle.labtop.specs.Answers.{Allows, By, Completes, InTurn, HasHistory, IsAnswer, IsBefore, IsDone, IsDoneBy, IsOfDrill, IsOfDrillBy, IsPart, LeavesBy, LeavesParts, TakesFew};
ghost use Rattle.labtop.specs.Headline.{IsEmpty};
ghost use Rattle.labtop.specs.Heads.{IsBehindHead};
ghost use Rattle.labtop.specs.Settings.{GoesBy, is_built, terms_of};
ghost use Rattle.labtop.specs.Words.{told_word};

use crate::LabDone;
use crate::built::is_built;
use crate::files::{read_capture, write_file};
use crate::names::{name_of_delivery, name_of_report};
use crate::outcome::{Outcome, outcome_for};
use crate::settings_file::settings_by;
use scap_world::Shelf;
use scapconf::{Settings, Status};
use std::alloc::{AllocError, Global};

/// Writes both files.
fn write_both<S: Shelf>(
    alloc: Global,
    shelf: &mut S,
    out: &str,
    outcome: &Outcome,
) -> Result<(), Status>
    ensures ok { OnOk result (S.files shelf.new ≡ told_put (report_name out.now) outcome.now.report.items
        (told_put (delivery_name out.now) outcome.now.delivery.items (S.files shelf.old))) }
    ensures others { (other : List ℕ) → other ≢ delivery_name out.now → other ≢ report_name out.now
        → told_file (S.files shelf.new) other ≡ told_file (S.files shelf.old) other }
    ensures taken { (other : List ℕ) → S.taken shelf.new other ≡ S.taken shelf.old other }
    ensures delivery_part { IsPart outcome.now.delivery.items (told_file (S.files shelf.old) (delivery_name out.now))
        (told_file (S.files shelf.new) (delivery_name out.now)) }
    ensures report_part { IsPart outcome.now.report.items (told_file (S.files shelf.old) (report_name out.now))
        (told_file (S.files shelf.new) (report_name out.now)) }
    ensures in_turn { InTurn outcome.now.delivery.items out.now (S.files shelf.old) (S.files shelf.new) }
    ensures kinds { IfErr result (λ e. (e ≡ Status.Memory) ⊎ (e ≡ Status.WriteFault)) }
    ensures cause { IsErrOf result Status.WriteFault
        → RoseAtOutputs out.now (S.write_faults shelf.old) (S.write_faults shelf.new) }
    ensures read_later { (other : List ℕ) → S.read_faults shelf.old other ≤ S.read_faults shelf.new other }
    ensures open_files { S.open_files shelf.new ≡ S.open_files shelf.old }
{
    let delivery = name_of_delivery(alloc, out)?;
    let report = name_of_report(alloc, out)?;
    write_file(shelf, delivery.as_str(), &outcome.delivery)?;
    write_file(shelf, report.as_str(), &outcome.report)?;
    Ok(())
}

/// Replays a capture by these settings, and writes its delivery file and its report.
fn drill_with<S: Shelf>(
    alloc: Global,
    settings: &Settings,
    capture: &str,
    out: &str,
    shelf: &mut S,
) -> LabDone
    ensures verdict { IfSome (S.files shelf.old) (λ files. Allows (asked_of settings.now (file_of files capture.now)) result.status) }
    ensures kinds { IsOfDrill result.status }
    ensures unbuilt { is_built settings.now ≡ false → (result.status ≡ Status.Unbuilt) × (shelf.new ≡ shelf.old) }
    ensures few { result.status ≡ Status.Done → IfSome (S.files shelf.old) (λ _. S.taken shelf.new capture.now ≤ MOST_BUILT + 1) }
    ensures done { result.status ≡ Status.Done → IfSome (S.files shelf.old)
        (λ files. IsDone (terms_of settings.now) (asked_of settings.now (file_of files capture.now)) out.now result.journal (S.files shelf.old) (S.files shelf.new)) }
    ensures history { result.status ≡ Status.Done → IsBudgetHistory settings.now.set.marks.limit result.journal }
    ensures journal { result.status ≢ Status.Done → IsEmpty result.journal }
    ensures parts { IfSome (S.files shelf.old)
        (λ files. LeavesParts (terms_of settings.now) (asked_of settings.now (file_of files capture.now)) out.now (S.files shelf.old) (S.files shelf.new)) }
    ensures before { IsBefore result.status → S.files shelf.new ≡ S.files shelf.old }
    ensures others { (other : List ℕ) → other ≢ delivery_name out.now → other ≢ report_name out.now
        → told_file (S.files shelf.new) other ≡ told_file (S.files shelf.old) other }
    ensures read { result.status ≡ Status.ReadFault
        → Rose (S.read_faults shelf.old capture.now) (S.read_faults shelf.new capture.now) × (is_built settings.now ≡ true)
        × IfSome (S.files shelf.old) (λ files. IsBehindHead (file_of files capture.now) (S.taken shelf.new capture.now)) }
    ensures write { result.status ≡ Status.WriteFault
        → RoseAtOutputs out.now (S.write_faults shelf.old) (S.write_faults shelf.new) }
    ensures open_files { S.open_files shelf.new ≡ S.open_files shelf.old }
{
    if !is_built(settings) {
        return LabDone::without_report(alloc, Status::Unbuilt);
    }
    let bytes = match read_capture(alloc, shelf, capture) {
        Ok(bytes) => bytes,
        Err(status) => return LabDone::without_report(alloc, status),
    };
    let outcome = match outcome_for(alloc, settings, &bytes) {
        Ok(outcome) => outcome,
        Err(status) => return LabDone::without_report(alloc, status),
    };
    match write_both(alloc, shelf, out, &outcome) {
        Ok(()) => LabDone {
            status: Status::Done,
            journal: outcome.journal,
        },
        Err(status) => LabDone::without_report(alloc, status),
    }
}

/// Replays a capture by these settings, and writes its delivery file and its report.
pub fn drill_run<S: Shelf>(
    alloc: Global,
    settings: Settings,
    capture: &str,
    out: &str,
    shelf: &mut S,
) -> LabDone
    // What the settings and the capture's bytes ask for is answered, or a fault of the outside.
    ensures verdict { IfSome (S.files shelf.old) (λ files. Allows (asked_of settings (file_of files capture.now)) result.status) }
    ensures kinds { IsOfDrill result.status }

    // What isn't built of the settings is answered before the shelf is asked for anything.
    ensures unbuilt { is_built settings ≡ false → (result.status ≡ Status.Unbuilt) × (shelf.new ≡ shelf.old) }

    // Of the capture one byte more than the most is taken, where it is done.
    ensures few { result.status ≡ Status.Done → IfSome (S.files shelf.old) (λ _. S.taken shelf.new capture.now ≤ MOST_BUILT + 1) }

    // Where it is done, the journal is lawful, its budget's history is one, and the two files are its texts.
    ensures done { result.status ≡ Status.Done → IfSome (S.files shelf.old)
        (λ files. IsDone (terms_of settings) (asked_of settings (file_of files capture.now)) out.now result.journal (S.files shelf.old) (S.files shelf.new)) }
    ensures journal { result.status ≢ Status.Done → IsEmpty result.journal }

    // Also over a shelf that tells no files: the journal is one history of a budget that never passes the settings' limit.
    ensures history { result.status ≡ Status.Done → IsBudgetHistory settings.set.marks.limit result.journal }

    // Whatever the status, an output is as it was or holds a front of its text, and no other file is touched.
    ensures parts { IfSome (S.files shelf.old)
        (λ files. LeavesParts (terms_of settings) (asked_of settings (file_of files capture.now)) out.now (S.files shelf.old) (S.files shelf.new)) }
    ensures before { IsBefore result.status → S.files shelf.new ≡ S.files shelf.old }
    ensures others { (other : List ℕ) → other ≢ delivery_name out.now → other ≢ report_name out.now
        → told_file (S.files shelf.new) other ≡ told_file (S.files shelf.old) other }

    // A fault was counted where it is answered, one of reading where the head isn't refused.
    ensures read { result.status ≡ Status.ReadFault
        → Rose (S.read_faults shelf.old capture.now) (S.read_faults shelf.new capture.now) × (is_built settings ≡ true)
        × IfSome (S.files shelf.old) (λ files. IsBehindHead (file_of files capture.now) (S.taken shelf.new capture.now)) }
    ensures write { result.status ≡ Status.WriteFault
        → RoseAtOutputs out.now (S.write_faults shelf.old) (S.write_faults shelf.new) }

    // Where packets are delivered and no fault was counted, it is done, or there was no memory.
    ensures complete { (Rose (S.read_faults shelf.old capture.now) (S.read_faults shelf.new capture.now) → ⊥)
        → (RoseAtOutputs out.now (S.write_faults shelf.old) (S.write_faults shelf.new) → ⊥)
        → IfSome (S.files shelf.old) (λ files. Completes (asked_of settings (file_of files capture.now)) result.status) }

    // What was opened is ended, and what was created is finished.
    ensures open_files { S.open_files shelf.new ≡ S.open_files shelf.old }
{
    drill_with(alloc, &settings, capture, out, shelf)
}

/// Replays a capture by the settings of a file, or by the defaults where none is named.
pub(crate) fn drill_by<S: Shelf>(
    alloc: Global,
    settings: Option<&str>,
    capture: &str,
    out: &str,
    shelf: &mut S,
) -> LabDone
    ensures answer { IfSome (S.files shelf.old) (λ files. IsAnswer files (told_word settings.entry) capture.now result.status) }
    ensures kinds { IsOfDrillBy (told_word settings.entry) result.status }
    ensures history { result.status ≡ Status.Done → HasHistory (told_word settings.entry) result.journal }
    ensures few { result.status ≡ Status.Done → IfSome (S.files shelf.old) (λ _. S.taken shelf.new capture.now ≤ MOST_BUILT + 1) }
    ensures settings_few { IfSome (S.files shelf.old) (λ _. TakesFew result.status (told_word settings.entry) (S.taken shelf.new)) }
    ensures done { result.status ≡ Status.Done → IfSome (S.files shelf.old)
        (λ files. IsDoneBy files (told_word settings.entry) capture.now out.now result.journal (S.files shelf.old) (S.files shelf.new)) }
    ensures journal { result.status ≢ Status.Done → IsEmpty result.journal }
    ensures parts { IfSome (S.files shelf.old) (λ files. LeavesBy files (told_word settings.entry) capture.now out.now (S.files shelf.old) (S.files shelf.new)) }
    ensures before { IsBefore result.status → S.files shelf.new ≡ S.files shelf.old }
    ensures others { (other : List ℕ) → other ≢ delivery_name out.now → other ≢ report_name out.now
        → told_file (S.files shelf.new) other ≡ told_file (S.files shelf.old) other }
    ensures read { result.status ≡ Status.ReadFault
        → RoseAtSettings (told_word settings.entry) (S.read_faults shelf.old) (S.read_faults shelf.new)
        ⊎ (Rose (S.read_faults shelf.old capture.now) (S.read_faults shelf.new capture.now) × IfSome (S.files shelf.old)
        (λ files. By files (told_word settings.entry) (λ s. is_built s ≡ true) × IsBehindHead (file_of files capture.now) (S.taken shelf.new capture.now))) }
    ensures write { result.status ≡ Status.WriteFault
        → RoseAtOutputs out.now (S.write_faults shelf.old) (S.write_faults shelf.new) }
    ensures open_files { S.open_files shelf.new ≡ S.open_files shelf.old }
{
    match settings_by(alloc, shelf, settings) {
        Ok(settings) => drill_with(alloc, &settings, capture, out, shelf),
        Err(status) => LabDone::without_report(alloc, status),
    }
}
