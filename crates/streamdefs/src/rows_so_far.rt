//! Moments of runs, evaluated: two that are lawful so far, and some that are refused by the part named alone.
ghost use Rattle.streamdefs.specs.RunSoFar.{LawfulRunSoFar};
ghost use Rattle.streamdefs.specs.RowsSoFar.{IsRefusedSoFarBy, one_under_way, working, served_too_often, worker_fell, freed_in_part, falling_under_way, stale_under_way};
ghost use Rattle.streamdefs.specs.RowsSoFar.PartSoFar.{OfServed, OfHands, OfFreeOrder, OfLookOrder, OfWorkOrder};

/// An entry is under way, and nothing else.
pub fn a_run_with_an_entry_under_way()
    ensures { LawfulRunSoFar one_under_way }
{}

/// An entry is under way, an answer waits for its core, and a worker gives back a charge.
pub fn a_run_at_work()
    ensures { LawfulRunSoFar working }
{}

/// A worker's list has a core more often than that core has answers.
pub fn a_core_served_too_often()
    ensures { IsRefusedSoFarBy OfServed served_too_often }
{}

/// A free in hand is below that of the worker's earlier answer.
pub fn a_worker_that_fell()
    ensures { IsRefusedSoFarBy OfWorkOrder worker_fell }
{}

/// A free in hand is of fewer bytes than its charge.
pub fn a_charge_freed_in_part()
    ensures { IsRefusedSoFarBy OfHands freed_in_part }
{}

/// The frees of an End under way fall.
pub fn frees_that_fall_under_way()
    ensures { IsRefusedSoFarBy OfFreeOrder falling_under_way }
{}

/// A look under way is below what an earlier entry of its core gave back.
pub fn a_stale_look_under_way()
    ensures { IsRefusedSoFarBy OfLookOrder stale_under_way }
{}
