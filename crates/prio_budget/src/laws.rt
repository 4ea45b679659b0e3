//! What follows from the definitions, each as the contract of a function that does nothing.
ghost use Rattle.prio_budget.specs.Laws.{AreEqualSteps, CanReleaseEach, EndAtTheLimit, FitTheLimit, HasOutInAnyOrder, NeverFall};

use crate::{Marks, PlainBudget};

/// A priority that matters more has no lower mark.
pub fn marks_never_fall(marks: &Marks)
    ensures { NeverFall marks.now }
{}

/// The last priority's mark is the limit.
pub fn the_last_mark_is_the_limit(marks: &Marks)
    ensures { EndAtTheLimit marks.now }
{
    let _ = marks.limit();
}

/// The marks are equal steps from the base to the limit, rounded down.
pub fn marks_are_equal_steps(marks: &Marks)
    ensures { AreEqualSteps marks.now }
{}

/// The charges that are out fit the limit, and each of them can be released.
pub fn charges_that_are_out_fit(budget: &PlainBudget)
    ensures fit { FitTheLimit budget.now }
    ensures each { CanReleaseEach budget.now }
{
    let _ = budget.used();
}

/// The order in which charges are listed doesn't matter.
pub fn the_order_does_not_matter(budget: &PlainBudget)
    ensures { HasOutInAnyOrder budget.now }
{}
