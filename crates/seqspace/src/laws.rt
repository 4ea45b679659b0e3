//! What the definition of a position means, each law as the contract of a function with an empty body.
ghost use Rattle.seqspace.specs.Near.{HasPosition, HasOnePosition};

/// A position is congruent to its sequence number less the base, and within 2^31 of the front.
#[tactic(auto, using(crate::proofs::NearLemmas::has_position))]
pub fn positions_are_near_and_congruent()
    ensures { HasPosition }
{}

/// No other number is both.
#[tactic(auto, using(crate::proofs::NearLemmas::has_one_position))]
pub fn positions_are_the_only_ones()
    ensures { HasOnePosition }
{}
