// The settings that a drill goes by.
ghost use Rattle.std.specs.Prelude.{◌≡◌, ◌≤◌, ℕ, List, Some, IfOk, IfErr, IfSome, IsErrOf};
ghost use Rattle.scap_world.specs.Causes.{Rose};
ghost use Rattle.labtop.specs.Causes.{RoseAtSettings};
ghost use Rattle.labtop.specs.Answers.{RefusesSettings, RefusesText, TakesFew};
ghost use Rattle.scapconf.specs.Says.{Reads};
ghost use Rattle.labtop.specs.Settings.{GoesBy, MayGoBy};
ghost use Rattle.labtop.specs.Words.{told_word};

use crate::files::read_file;
use scap_world::Shelf;
use scapconf::{LONGEST_TEXT, Settings, Status};
use std::alloc::Global;

/// The settings that a text says.
fn settings_in(alloc: Global, text: &[u8]) -> Result<Settings, Status>
    ensures parsed { IfOk result (Reads text.now) }
    ensures refused { IfErr result (RefusesText text.now) }
{
    Ok(Settings::parse(alloc, text)?)
}

/// The settings that a file says.
#[tactic(auto, using(crate::proofs::SettingsLemmas::few_unread))]
fn read_settings<S: Shelf>(alloc: Global, shelf: &mut S, name: &str) -> Result<Settings, Status>
    ensures goes { IfOk result (λ s. IfSome (S.files shelf.old) (λ files. GoesBy files (Some name.now) s)) }
    ensures may { IfOk result (λ s. MayGoBy (Some name.now) s) }
    ensures refused { IfErr result (RefusesSettings (S.files shelf.old) (Some name.now)) }
    ensures few { IfErr result (λ e. IfSome (S.files shelf.old) (λ _. TakesFew e (Some name.now) (S.taken shelf.new))) }
    ensures files { S.files shelf.new ≡ S.files shelf.old }
    ensures cause { IsErrOf result Status.ReadFault → Rose (S.read_faults shelf.old name.now) (S.read_faults shelf.new name.now) }
    ensures read_later { (other : List ℕ) → S.read_faults shelf.old other ≤ S.read_faults shelf.new other }
    ensures write_later { (other : List ℕ) → S.write_faults shelf.old other ≤ S.write_faults shelf.new other }
    ensures open_files { S.open_files shelf.new ≡ S.open_files shelf.old }
{
    // One byte past the longest text tells that it is too long.
    let text = read_file(alloc, shelf, name, LONGEST_TEXT)?;
    settings_in(alloc, &text)
}

/// The settings that a drill goes by: those of the file, or the defaults where none is named.
pub(crate) fn settings_by<S: Shelf>(
    alloc: Global,
    shelf: &mut S,
    name: Option<&str>,
) -> Result<Settings, Status>
    ensures goes { IfOk result (λ s. IfSome (S.files shelf.old) (λ files. GoesBy files (told_word name.entry) s)) }
    ensures may { IfOk result (λ s. MayGoBy (told_word name.entry) s) }
    ensures refused { IfErr result (RefusesSettings (S.files shelf.old) (told_word name.entry)) }
    ensures few { IfErr result (λ e. IfSome (S.files shelf.old) (λ _. TakesFew e (told_word name.entry) (S.taken shelf.new))) }
    ensures files { S.files shelf.new ≡ S.files shelf.old }
    ensures cause { IsErrOf result Status.ReadFault → RoseAtSettings (told_word name.entry) (S.read_faults shelf.old) (S.read_faults shelf.new) }
    ensures read_later { (other : List ℕ) → S.read_faults shelf.old other ≤ S.read_faults shelf.new other }
    ensures write_later { (other : List ℕ) → S.write_faults shelf.old other ≤ S.write_faults shelf.new other }
    ensures open_files { S.open_files shelf.new ≡ S.open_files shelf.old }
{
    match name {
        None => Ok(Settings::defaults(alloc)?),
        Some(name) => read_settings(alloc, shelf, name),
    }
}
