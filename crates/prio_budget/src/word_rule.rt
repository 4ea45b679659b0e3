use crate::Named;
use crate::word_terms::WordTerms;
use crate::word_view::WordView;
use atomic_table::{Join, Play, Split, TableRule};
use std::marker::PhantomData;

/// What holds of the budget word and of all seats at it, between any two steps.
pub struct BudgetRule;

impl TableRule<(), WordView, WordTerms> for BudgetRule {
    ghost use Rattle.prio_budget.specs.WordRule.{Holds};
    ghost use Rattle.prio_budget.specs.WordSteps.{newcomer};

    ghost holds = { λ terms. Holds terms.limit terms.first };

    ghost first = { λ terms. newcomer terms.first };
}

/// A load that is a look.
pub struct Looks;

impl Play<(), WordView> for Looks {
    ghost use Rattle.prio_budget.specs.WordSteps.{Looked};

    ghost then = { Looked };
}

/// An exchange that asks, won or lost.
pub struct Asks;

impl Play<(), WordView> for Asks {
    ghost use Rattle.prio_budget.specs.WordSteps.{Asked};

    ghost then = { Asked };
}

/// An addition that releases.
pub struct Frees;

impl Play<(), WordView> for Frees {
    ghost use Rattle.prio_budget.specs.WordSteps.{Freed};

    ghost then = { Freed };
}

/// A load that changes no view: whoever has the whole share learns that nobody else knows anything.
pub struct Checks<B> {
    of: PhantomData<B>,
}

impl<B: Named> Play<(), WordView> for Checks<B> {
    ghost use Rattle.prio_budget.specs.WordSteps.{Checked};

    ghost then = { Checked B.limit B.first };
}

/// A home is cut in two.
pub struct Homes;

impl Split<WordView> for Homes {
    ghost use Rattle.prio_budget.specs.WordSteps.{home_kept, home_given};

    ghost left = { home_kept };

    ghost right = { home_given };
}

/// A note is taken from a home.
pub struct Notes;

impl Split<WordView> for Notes {
    ghost use Rattle.prio_budget.specs.WordSteps.{note_kept, note_given};

    ghost left = { note_kept };

    ghost right = { note_given };
}

/// What was granted leaves its home with a charge.
pub struct Lends;

impl Split<WordView> for Lends {
    ghost use Rattle.prio_budget.specs.WordSteps.{charge_kept, charge_given};

    ghost left = { charge_kept };

    ghost right = { charge_given };
}

/// A seat comes in, and nothing is left of it.
pub struct Both;

impl Join<WordView> for Both {
    ghost use Rattle.prio_budget.specs.WordSteps.{joined, nobody};

    ghost both = { joined };

    ghost spent = { nobody };
}
