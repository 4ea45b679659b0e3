//! What a store's parts mean by positions, each law as the contract of a function that does nothing.
ghost use Rattle.std.specs.Prelude.{◌≡◌, ℕ, ℤ, ◌+◌, ◌<◌, ◌≤◌, ◌^◌, List, ◌∷◌, ◌++◌, length, map, filter, not, All};
ghost use Rattle.overpolicy.specs.declared.policy.Policy.{Policy};
ghost use Rattle.streamdefs.specs.Reorder.{Charge as Paid, placed_from, put_run, settled, stands_in, stretches};
ghost use Rattle.reorder.specs.Frags.{Frag, Ascends, BeginsAt, EndBy, IsClear, end_of, free, overlaid, put, run_in, size, spread, spread_one};

use crate::Store;
use prio_budget::Charge;

/// The parts of a store rise, none is empty, none overlaps another, and all end by position 2^62.
pub fn parts_rise<C: Charge>(store: &Store<C>)
    ensures ascends { Ascends 0 store.now.frags }
    ensures ends { EndBy (2 ^ 62) store.now.frags }
{
    let _ = &store.held;
}

/// What is uncovered are the maximal runs of neighbours among those positions of a range that are not held.
pub fn uncovered_runs_are_maximal<C: Charge>(store: &Store<C>)
    ensures { (paid : C → Paid) (from : ℕ) (start : ℤ) (bytes : List ℕ)
        → map (run_in from start bytes) (free from (from + length bytes) store.now.frags)
        ≡ stretches (filter (λ p. not (stands_in (spread paid store.now.frags) p.at)) (placed_from from start bytes)) }
{
    parts_rise(store);
}

/// Overlap is settled by the policy at each held position that the bytes cover, and nowhere else.
pub fn each_held_position_is_settled<C: Charge>(store: &Store<C>)
    ensures { (paid : C → Paid) (policy : Policy) (start : ℤ) (from : ℕ) (bytes : List ℕ)
        → spread paid (overlaid policy start from bytes store.now.frags) ≡ settled policy (placed_from from start bytes) (spread paid store.now.frags) }
{}

/// A part that is put adds its positions and changes no other.
pub fn a_part_adds_its_positions<C: Charge>(store: &Store<C>)
    ensures { (paid : C → Paid) (f : Frag C) → IsClear f.at (end_of f) store.now.frags → 0 < length f.cells
        → spread paid (put f store.now.frags) ≡ put_run (spread_one paid f) (spread paid store.now.frags) }
{
    parts_rise(store);
}

/// As many bytes are held as positions stand for the parts.
pub fn each_byte_has_its_position<C: Charge>(store: &Store<C>)
    ensures { (paid : C → Paid) → length (spread paid store.now.frags) ≡ size store.now.frags }
{}

/// The positions of the first part come before all others, and what stays without it are the others.
pub fn the_first_part_has_the_first_positions<C: Charge>(store: &Store<C>)
    ensures rest { (paid : C → Paid) (f : Frag C) (rest : List (Frag C)) → store.now.frags ≡ f ∷ rest → spread paid store.now.frags ≡ spread_one paid f ++ spread paid rest }
    ensures least { (paid : C → Paid) (at : ℕ) → BeginsAt at store.now.frags → All (λ p. at ≤ p.at) (spread paid store.now.frags) }
{
    parts_rise(store);
}
