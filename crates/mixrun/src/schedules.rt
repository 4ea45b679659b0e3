//! What a schedule makes of a run, each law as the contract of a function with an empty body.
ghost use Rattle.mixrun.specs.Scheduled.{IdleHasNoStep, ActsByAStep, ActsInOneWay, SchedulesDetermine, SeedsDetermine, RunsReach, SeedsReach, StepsLeadOn};
ghost use Rattle.mixrun.specs.Rounds.{RoundsAreInTurn, RoundsMissNone};
ghost use Rattle.mixrun.specs.GoesOn.{StoppedAtFirst, StepsStop, OffersStop, EachGoesOn};

/// An actor that is idle has no step of the machine; another one has the one step that its order gives it.
pub fn each_actor_has_its_step()
    ensures idle { IdleHasNoStep }
    ensures step { ActsByAStep }
    ensures one { ActsInOneWay }
{}

/// A moment determines what a schedule, or a seed, makes of it.
pub fn schedules_determine_runs()
    ensures actors { SchedulesDetermine }
    ensures seed { SeedsDetermine }
{}

/// A run by a schedule, or by a seed, is so many steps of the machine; so what holds at every moment holds behind it.
pub fn runs_are_steps()
    ensures actors { RunsReach }
    ensures seed { SeedsReach }
    ensures holds { StepsLeadOn }
{}

/// Between the steps each table has stopped.
pub fn tables_have_stopped()
    ensures first { StoppedAtFirst }
    ensures step { StepsStop }
    ensures offer { OffersStop }
{}

/// So where the layers below give what it needs (`CanGoOn`), each actor is idle or makes exactly one step.
pub fn each_actor_goes_on()
    ensures { EachGoesOn }
{}

/// The first core with an event, from the core where a worker's round stands on, is the one that it takes of; where the round
/// finds none, none waits for the worker.
pub fn rounds_are_in_turn()
    ensures first { RoundsAreInTurn }
    ensures none { RoundsMissNone }
{}
