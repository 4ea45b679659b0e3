// What an answer, a release and giving up make of the entry under way.
ghost use Rattle.std.specs.Prelude.{◌≡◌, ◌≤◌, ℕ, suc, ◌+◌, Some, None, true, false, not};
ghost use Rattle.streamdefs.specs.Terms.{Terms};
ghost use Rattle.streamdefs.specs.Lawful.{Handler};
ghost use Rattle.flowdir.specs.Boundary.{charge_by};
ghost use Rattle.convo.specs.Weights.{weight_of_chunks};
ghost use Rattle.coretable.specs.Course.{Course, freed};
ghost use Rattle.coretable.specs.Lawfully.{IsSound};
ghost use Rattle.coretable.specs.declared.pause.Pause.TheVariants.{Still, Asked as WaitsAsked};
ghost use Rattle.coretable.specs.declared.state.State.TheVariants.{Works as WorksAt};
ghost use Rattle.coretable.specs.declared.stage.Stage.TheVariants.{Asked as AskedAt};
ghost use Rattle.coretable.specs.Fits.{pause_at, unanswered_of};
ghost use Rattle.coretable.specs.Table.{IsAtState, IsAwaited, IsReleasedAt, calm_by, granted_weight, is_spent, look_of, pause_by, pause_in, pause_given_up, rests_by, told_course, under_way, weight_by};

use crate::loading::{give_back, grant, refuse};
use crate::{Active, Desk, Hand, Held, Stage, State};
use evring::Kept;
use prio_budget::{Answered, Charge, Free};

/// The ask that waits is answered.
fn answer_ask<C: Charge>(
    desk: &Desk<Held<C>>,
    active: Active<Held<C>>,
    bytes: u32,
    mark: u32,
    answered: Answered<C>,
) -> State<C, Held<C>>
    requires awaited { IsAwaited (charge_by C.amount C.stamp) (WaitsAsked bytes mark) answered }
    ensures stands { (t : Terms) (last : ℕ) (handler : Handler) (m : Course) → is_spent answered ≡ false → IsSound t last handler m
        → IsAtState (charge_by C.amount C.stamp) t m desk.entry.now (WorksAt (AskedAt active bytes mark))
        → IsSound t last handler (told_course (look_of (WaitsAsked bytes mark) answered) m) × IsAtState (charge_by C.amount C.stamp) t (told_course (look_of (WaitsAsked bytes mark) answered) m) desk.entry.now result }
    ensures pause { pause_by result ≡ Still }
    ensures rests { rests_by result ≡ false }
    ensures calm { calm_by result ≡ not (is_spent answered) }
    ensures weight { (w : C → ℕ) → weight_by w result ≡ weight_by w (WorksAt (AskedAt active bytes mark)) + granted_weight w answered }
{
    match answered {
        Answered::Granted { charge, look } => {
            State::Works(grant(desk, active, bytes, charge, look))
        }
        Answered::Past { look } => State::Works(refuse(desk, active, bytes, look)),
        Answered::Moved { .. } => State::Works(Stage::Again {
            active,
            bytes,
            mark,
        }),
        Answered::Spent { .. } => State::Drains {
            hand: Hand::of(active.talk),
            freeing: None,
        },
    }
}

/// What an answer to the ask that waits makes of a state.
pub(crate) fn decide<C: Charge>(
    desk: &Desk<Held<C>>,
    state: State<C, Held<C>>,
    answered: Answered<C>,
) -> State<C, Held<C>>
    requires awaited { IsAwaited (charge_by C.amount C.stamp) (pause_by state) answered }
    ensures stands { (t : Terms) (last : ℕ) (handler : Handler) (m : Course) → is_spent answered ≡ false → IsSound t last handler m
        → IsAtState (charge_by C.amount C.stamp) t m desk.entry.now state
        → IsSound t last handler (told_course (look_of (pause_by state) answered) m) × IsAtState (charge_by C.amount C.stamp) t (told_course (look_of (pause_by state) answered) m) desk.entry.now result }
    ensures pause { pause_by result ≡ Still }
    ensures rests { rests_by result ≡ false }
    ensures calm { calm_by result ≡ not (is_spent answered) }
    ensures weight { (w : C → ℕ) → weight_by w result ≡ weight_by w state + granted_weight w answered }
{
    match state {
        State::Works(stage) => match stage {
            Stage::Asked {
                active,
                bytes,
                mark,
            } => answer_ask(desk, active, bytes, mark, answered),
            other => State::Works(other),
        },
        State::Drains { hand, freeing } => State::Drains { hand, freeing },
    }
}

/// What the release that waits makes of a state.
pub(crate) fn released<C: Charge>(
    desk: &Desk<Held<C>>,
    state: State<C, Held<C>>,
    free: Free,
) -> State<C, Held<C>>
    requires released { IsReleasedAt (pause_by state) free.bytes free.stamp }
    ensures stands { (t : Terms) (last : ℕ) (handler : Handler) (m : Course) → IsSound t last handler m → IsAtState (charge_by C.amount C.stamp) t m desk.entry.now state
        → IsSound t last handler (under_way (λ m u. freed m u free) m) × IsAtState (charge_by C.amount C.stamp) t (under_way (λ m u. freed m u free) m) desk.entry.now result }
    ensures pause { pause_by result ≡ Still }
    ensures calm { calm_by result ≡ calm_by state }
    ensures rests { calm_by state ≡ true → rests_by result ≡ false }
    ensures weight { (w : C → ℕ) → weight_by w result ≡ weight_by w state }
{
    match state {
        State::Works(stage) => match stage {
            Stage::Freeing { active, .. } => State::Works(give_back(desk, active, free)),
            other => State::Works(other),
        },
        State::Drains { hand, .. } => State::Drains {
            hand,
            freeing: None,
        },
    }
}

/// The bytes and the stamp of the charge that a stage waits for.
fn freeing_at<C: Charge, T: Drop>(stage: &Stage<C, T>) -> Option<(u32, u32)>
    ensures { pause_in result ≡ pause_given_up (pause_at stage.entry.now) }
{
    match stage {
        Stage::Freeing { bytes, stamp, .. } => Some((*bytes, *stamp)),
        Stage::Rests
        | Stage::Returned { .. }
        | Stage::Asked { .. }
        | Stage::Again { .. }
        | Stage::Told { .. }
        | Stage::Freed { .. }
        | Stage::Emitted { .. } => None,
    }
}

/// What giving up makes of a state.
pub(crate) fn given_up<C: Charge>(state: State<C, Held<C>>) -> State<C, Held<C>>
    ensures calm { calm_by result ≡ false }
    ensures pause { pause_by result ≡ pause_given_up (pause_by state) }
    ensures weight { (w : C → ℕ) → weight_by w result ≡ weight_by w state }
{
    match state {
        State::Works(stage) => {
            let freeing = freeing_at(&stage);
            State::Drains {
                hand: Hand::of_stage(stage),
                freeing,
            }
        }
        State::Drains { hand, freeing } => State::Drains { hand, freeing },
    }
}

/// In drain mode, with chunks that came back.
pub(crate) fn held_back<C: Charge>(state: State<C, Held<C>>, kept: Kept<C>) -> State<C, Held<C>>
    requires drains { calm_by state ≡ false }
    requires rests { rests_by state ≡ true }
    ensures calm { calm_by result ≡ false }
    ensures pause { pause_by result ≡ Still }
    ensures weight { (w : C → ℕ) → weight_by w result ≡ weight_by w state + weight_of_chunks w kept }
{
    match state {
        State::Drains { .. } => State::Drains {
            hand: Hand::of_kept(kept),
            freeing: None,
        },
        State::Works(stage) => State::Works(stage),
    }
}

/// The event that has waited longest waits no more.
pub(crate) fn drop_event<T: Drop>(desk: &mut Desk<T>)
    requires waits { 1 ≤ unanswered_of desk.old }
    ensures unanswered { suc (unanswered_of desk.new) ≡ unanswered_of desk.old }
    ensures rest { desk.new ≡ record desk.old { unanswered = desk.new.unanswered } }
{
    let _ = desk.unanswered.pop_front();
}
