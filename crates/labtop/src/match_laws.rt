//! What the text of a match means, as the contract of a function with an empty body.
ghost use Rattle.std.specs.Prelude.{◌≡◌, List, flat_map};
ghost use Rattle.std.specs.List.{enumerate_from};
ghost use Rattle.capfilter.specs.Expr.{Expr};
ghost use Rattle.pcapfile.specs.declared.frame.Frame.{Frame};
ghost use Rattle.pcapfile.specs.declared.link.Link.{Link};
ghost use Rattle.porthdr.specs.Transport.{kind_of};
ghost use Rattle.labtop.specs.Matching.{line_for, match_text};

/// Whether a record's number is written is told by that record alone: it is accepted, and the filter holds of its key and way.
/// Records are numbered from 1.
#[tactic(auto, using(crate::proofs::MatchingLemmas::text_numbered))]
pub fn each_record_is_matched_by_itself()
    ensures { (filter : Expr) (link : Link) (frames : List Frame)
        → match_text filter link frames ≡ flat_map (λ numbered. line_for filter numbered.0 (kind_of link numbered.1.bytes)) (enumerate_from 1 frames) }
{}
