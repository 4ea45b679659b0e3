// The command `match`, behind its words.
ghost use Rattle.std.specs.Prelude.{◌≡◌, ◌≢◌, ◌⊎◌, ℕ, List, IfOk, IfErr, IfSome, IsErrAnd, MatchResult};
ghost use Rattle.capfilter.specs.Expr.{Expr};
ghost use Rattle.capfilter.specs.Faults.{IsFault, Reads};
ghost use Rattle.capfilter.specs.declared.filter_error.FilterFault.{FilterFault};
ghost use Rattle.scap_world.specs.Causes.{Rose};
ghost use Rattle.scap_world.specs.Files.{file_of, told_file};
ghost use Rattle.labtop.specs.Answers.{IsBefore};
ghost use Rattle.labtop.specs.Heads.{IsBehindHead};
ghost use Rattle.labtop.specs.MatchAnswers.{no_filter, CompletesMatched, IsMatchAnswer, IsOfMatch, IsWritten, LeavesMatched, RefusesFilter};
ghost use Rattle.labtop.specs.Matching.{IsEnd};
ghost use Rattle.labtop.specs.Names.{match_name};

use crate::match_run::match_run;
use capfilter::{Filter, FilterError};
use scap_world::Shelf;
use scapconf::{SettingsKind, Status};
use std::alloc::Global;

/// The filter that a text is.
fn filter_in(alloc: Global, text: &str) -> Result<Filter, Status>
    ensures reads { IfOk result (Reads text.now) }
    ensures only { (e : Expr) → Reads text.now e → MatchResult result (λ filter. filter ≡ e) (λ s. s ≡ Status.Memory) }
    ensures refused { IfErr result (RefusesFilter text.now) }
    ensures least { (fault : FilterFault) → IsFault text.now fault → IsErrAnd result (λ s. (s ≡ Status.Memory) ⊎ (s ≡ no_filter)) }
{
    match Filter::parse(alloc, text) {
        Ok(filter) => Ok(filter),
        Err(FilterError::Memory) => Err(Status::Memory),
        Err(FilterError::Fault(_)) => Err(Status::Settings {
            line: 0,
            kind: SettingsKind::Filter,
        }),
    }
}

/// Writes the numbers of the packets of a capture for which a text's filter holds.
pub(crate) fn match_by<S: Shelf>(
    alloc: Global,
    filter: &str,
    capture: &str,
    out: &str,
    shelf: &mut S,
) -> Status
    ensures answer { IfSome (S.files shelf.old) (λ files. IsMatchAnswer files filter.now capture.now result) }
    ensures kinds { IsOfMatch filter.now result }
    ensures refused { (fault : FilterFault) → IsFault filter.now fault → ((result ≡ Status.Memory) ⊎ (result ≡ no_filter)) × (shelf.new ≡ shelf.old) }
    ensures written { IsEnd result → IfSome (S.files shelf.old)
        (λ files. IsWritten files filter.now capture.now out.now (S.files shelf.old) (S.files shelf.new)) }
    ensures parts { IfSome (S.files shelf.old)
        (λ files. LeavesMatched files filter.now capture.now out.now (S.files shelf.old) (S.files shelf.new)) }
    ensures before { IsBefore result → S.files shelf.new ≡ S.files shelf.old }
    ensures others { (other : List ℕ) → other ≢ match_name out.now → told_file (S.files shelf.new) other ≡ told_file (S.files shelf.old) other }
    ensures read { result ≡ Status.ReadFault → Rose (S.read_faults shelf.old capture.now) (S.read_faults shelf.new capture.now)
        × IfSome (S.files shelf.old) (λ files. IsBehindHead (file_of files capture.now) (S.taken shelf.new capture.now)) }
    ensures write { result ≡ Status.WriteFault
        → Rose (S.write_faults shelf.old (match_name out.now)) (S.write_faults shelf.new (match_name out.now)) }
    ensures complete { (Rose (S.read_faults shelf.old capture.now) (S.read_faults shelf.new capture.now) → ⊥)
        → (Rose (S.write_faults shelf.old (match_name out.now)) (S.write_faults shelf.new (match_name out.now)) → ⊥)
        → IfSome (S.files shelf.old) (λ files. CompletesMatched files filter.now capture.now result) }
    ensures open_files { S.open_files shelf.new ≡ S.open_files shelf.old }
{
    match filter_in(alloc, filter) {
        Ok(filter) => match_run(alloc, &filter, capture, out, shelf),
        Err(status) => status,
    }
}
