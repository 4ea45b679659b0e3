//! What the headline's clause says of a run, each law as the contract of a function with an empty body.
ghost use Rattle.std.specs.Prelude.{◌≡◌, ◌+◌, ◌<◌, ◌≤◌, ℕ, true, false, List, length, take, slice_index_or, Option};
ghost use Rattle.capfilter.specs.Expr.{Expr};
ghost use Rattle.histbook.specs.declared.look_entry.LookEntry.{LookEntry};
ghost use Rattle.labtop.specs.Scapconf.{Fate, captured, fate_of, fates, last_clock};
ghost use Rattle.labtop.specs.Settings.{is_built, terms_of};
ghost use Rattle.scapconf.specs.declared.settings.Settings.{Settings};
ghost use Rattle.datagrams.specs.Flow.{plain};
ghost use Rattle.pcapfile.specs.declared.frame.Frame.{Frame};
ghost use Rattle.pcapfile.specs.declared.link.Link.{Link};
ghost use Rattle.porthdr.specs.Transport.{kind_of};
ghost use Rattle.streamdefs.specs.Accounts.{IsAccounted};
ghost use Rattle.streamdefs.specs.Convo.{Convo, mark_for};
ghost use Rattle.streamdefs.specs.Lawful.{IsLookFor};
ghost use Rattle.streamdefs.specs.Lists.{Each, total};
ghost use Rattle.streamdefs.specs.Report.{records_of};
ghost use Rattle.streamdefs.specs.Terms.{Terms};
ghost use Rattle.streamdefs.specs.Totals.{Total};
ghost use Rattle.streamdefs.specs.View.{Ask};

/// Where each byte of each direction is accounted for, each byte of the run is: the totals of the report's line of bytes add up.
#[tactic(auto, using(crate::proofs::LawLemmas::add_up))]
pub fn totals_of_the_run_add_up()
    ensures { (ts : List Total) → Each IsAccounted ts → total (λ t. t.payload) ts
        ≡ total (λ t. t.delivered) ts + total (λ t. t.counts.duplicate) ts + total (λ t. t.counts.late) ts + total (λ t. t.counts.cut) ts + total (λ t. t.counts.shed) ts }
{}

/// In a lawful journal a look was refused only where its bytes would have passed their mark, and granted only where they didn't.
#[tactic(auto, using(crate::proofs::LawLemmas::passed, crate::proofs::LawLemmas::fitted))]
pub fn a_refused_look_found_its_mark_passed()
    ensures refused { (terms : Terms) (c : Convo) (look : LookEntry) (ask : Ask) → IsLookFor terms c look ask → look.granted ≡ false
        → mark_for terms c ask < look.look.found + look.asked }
    ensures granted { (terms : Terms) (c : Convo) (look : LookEntry) (ask : Ask) → IsLookFor terms c look ask → look.granted ≡ true
        → look.look.found + look.asked ≤ mark_for terms c ask }
{}

/// What is built of settings is all that they say: no part of them is left out of the run that the headline speaks of.
#[tactic(auto, using(crate::proofs::LawLemmas::built_whole))]
pub fn built_settings_are_run_as_they_are()
    ensures { (s : Settings) → is_built s ≡ true → plain (terms_of s) ≡ terms_of s }
{}

/// Each record of a capture is counted once.
#[tactic(auto, using(crate::proofs::IntakeLemmas::all_counted))]
pub fn each_record_is_counted_once()
    ensures { (filter : Option Expr) (link : Link) (frames : List Frame) → records_of (captured filter link frames).counts ≡ length frames }
{}

/// What becomes of a record is by its number from 1 on, and by the greatest moment of the records up to it.
#[tactic(auto, using(crate::proofs::IntakeLemmas::fate_at))]
pub fn a_record_has_its_number_and_its_clock()
    ensures { (filter : Option Expr) (link : Link) (frames : List Frame) (i : ℕ) (none : Fate) (nothing : Frame) → i < length frames
        → slice_index_or (fates filter link frames) i none
        ≡ fate_of filter (i + 1) (last_clock (take (i + 1) frames)) (kind_of link (slice_index_or frames i nothing).bytes) }
{}
