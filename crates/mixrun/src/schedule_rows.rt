//! The actors in their order, what a seed names, and how a worker goes round its cores.
ghost use Rattle.std.specs.Prelude.{◌≡◌, [], ◌∷◌, Some, None};
ghost use Rattle.mixrun.specs.declared.actor.Actor.TheVariants.{Back, Work, Core};
ghost use Rattle.mixrun.specs.Schedule.{actors_of, drawn, last_of, names_by, number_below, round_place, state_behind};

/// The answers of each core come first, then the workers, then the cores.
pub fn actors_stand_in_order()
    ensures two { actors_of 2 1 ≡ Back 0 ∷ Back 1 ∷ Work 0 ∷ Core 0 ∷ Core 1 ∷ [] }
    ensures four { actors_of 4 2 ≡ Back 0 ∷ Back 1 ∷ Back 2 ∷ Back 3 ∷ Work 0 ∷ Work 1 ∷ Core 0 ∷ Core 1 ∷ Core 2 ∷ Core 3 ∷ [] }
{}

/// A draw multiplies and adds modulo 2^64, and the number that it gives comes of its high half.
#[tactic(auto, unfolding(crate::specs::Schedule::drawn, crate::specs::Schedule::number_below))]
pub fn a_seed_draws()
    ensures nought { drawn 0 ≡ 1442695040888963407 }
    ensures next { drawn 1442695040888963407 ≡ 1876011003808476466 }
    ensures greatest { drawn 18446744073709551615 ≡ 13525302890751722018 }
    ensures high { number_below 64 1442695040888963407 ≡ 62 }
    ensures behind { state_behind 7 3 ≡ 16723372171710603212 }
{}

/// What seeds name among the actors of one core and one worker, and of four cores and two workers.
#[tactic(auto, unfolding(crate::specs::Schedule::drawn, crate::specs::Schedule::number_below))]
pub fn a_seed_names_actors()
    ensures one { names_by (actors_of 1 1) 0 5 ≡ Work 0 ∷ Work 0 ∷ Core 0 ∷ Back 0 ∷ Work 0 ∷ [] }
    ensures many { names_by (actors_of 4 2) 7 8 ≡ Core 0 ∷ Back 3 ∷ Core 0 ∷ Core 0 ∷ Back 0 ∷ Core 3 ∷ Core 2 ∷ Core 2 ∷ [] }
{}

/// A worker with the cores 1, 3 and 5 of six: at first in this order, and behind core 3 from 5 on.
pub fn a_worker_goes_round()
    ensures first { round_place None 6 1 ≡ 1 }
    ensures behind { round_place (Some 3) 6 5 ≡ 5 }
    ensures round { round_place (Some 3) 6 1 ≡ 7 }
    ensures again { round_place (Some 3) 6 3 ≡ 9 }
    ensures last { last_of (1 ∷ 5 ∷ 3 ∷ []) ≡ Some 3 }
{}
