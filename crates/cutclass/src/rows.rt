//! The definitions evaluated on cutoffs written out by hand.
ghost use Rattle.std.specs.Prelude.{◌≡◌, [], ◌∷◌, Some, None};
ghost use Rattle.cutclass.specs.InForce.{first_set};
ghost use Rattle.cutclass.specs.declared.cut.Cut.TheVariants.{Unset, Endless, At};

use crate::MOST_CLASSES;

/// There are at most 32 classes.
pub fn the_most_classes()
    ensures { MOST_CLASSES ≡ 32 }
{}

/// The first cutoff that is set counts, also where it says that there is none.
pub fn the_first_that_is_set()
    ensures own { first_set (At 4 ∷ At 10 ∷ Endless ∷ Unset ∷ []) ≡ Some 4 }
    ensures later { first_set (Unset ∷ Unset ∷ At 0 ∷ At 9 ∷ []) ≡ Some 0 }
    ensures endless { first_set (Unset ∷ Endless ∷ At 0 ∷ At 9 ∷ []) ≡ None }
    ensures unset { first_set (Unset ∷ Unset ∷ Unset ∷ Unset ∷ []) ≡ None }
{}
