//! What the order of a drill makes of a capture, each law as the contract of a function with an empty body.
ghost use Rattle.mixrun.specs.Drilled.{DrillsAreDetermined, DrillsAreWhole, DrillsHold, IdleIsStill};

/// Where a drill ends is determined by what it begins with: what is offered, and the seed, if there is one.
pub fn a_drill_is_determined()
    ensures { DrillsAreDetermined }
{}

/// What holds at every moment holds at its end, too.
pub fn a_drill_keeps_its_order()
    ensures { DrillsHold }
{}

/// Where every actor is idle, nothing is left to do for what was offered.
pub fn idle_is_still()
    ensures { IdleIsStill }
{}

/// The drill of a capture ends with a lawful journal of it.
pub fn a_drill_is_whole()
    ensures { DrillsAreWhole }
{}
