// What is due of a core comes first.
ghost use Rattle.std.specs.Prelude.{◌≡◌, ℕ, None, Some, true, slice_get, IfOk, IfSome, IfNone};
ghost use Rattle.streamdefs.specs.Terms.{Terms};
ghost use Rattle.streamdefs.specs.Core.{Due as DueOf, Open};
ghost use Rattle.streamdefs.specs.Lawful.{Handler};
ghost use Rattle.coretable.specs.Course.{Course, begun, core_of, due_by, due_line, step};
ghost use Rattle.coretable.specs.Course.Step.{Goes};
ghost use Rattle.coretable.specs.Lawfully.{IsSound};
ghost use Rattle.flowdir.specs.Boundary.{charge_by};
ghost use Rattle.coretable.specs.Held.{StandsFor};
ghost use Rattle.convo.specs.Talk.{SetsUp};
ghost use Rattle.convo.specs.Talk.Phase.{Still};
ghost use Rattle.convo.specs.Talk.{Talk, due_of};
ghost use Rattle.coretable.specs.Standing.{Keeps};
ghost use Rattle.coretable.specs.Steps.{IsStep, nothing};
ghost use Rattle.coretable.specs.Turns.{Moves};
ghost use Rattle.coretable.specs.Falling.{IsDueFirst};

use crate::beginning::{begin_end, begin_time};
use crate::planning::slot_at;
use crate::{Desk, Hand, Held, Memory, Slot, Stage, Turn};
use convo::ConvoSet;
use evring::Reason;
use prio_budget::Charge;
use std::alloc::Global;

/// The place of the conversation that is due first, up to a moment.
pub(crate) fn first_due<C: Charge>(desk: &Desk<Held<C>>, now: u64) -> Option<usize>
    ensures { (t : Terms) (last : ℕ) (handler : Handler) (m : Course) → IsSound t last handler m → m.under ≡ None → Keeps (StandsFor (charge_by C.amount C.stamp) t) t m desk.entry.now → IsDueFirst t (core_of t m) now result }
{
    match desk.dues.first_due(now) {
        Some((_, place)) => Some(place as usize),
        None => None,
    }
}

/// When the conversation of a slot falls due, and whether for its End of `idle`.
fn due_in<C: Charge>(set: &ConvoSet, slot: &Slot<Held<C>>) -> Result<(u64, bool), Memory>
    ensures { (t : Terms) (k : Talk) (talk : _) (due : _) → SetsUp set.now t → slot.entry.now.talk ≡ Some talk → StandsFor (charge_by C.amount C.stamp) t talk k Still → due_of t k.convo ≡ Some due → IfOk result (λ r. r ≡ due) }
{
    match &slot.talk {
        Some(talk) => match talk.due(set) {
            Some(due) => Ok(due),
            None => Err(Memory),
        },
        None => Err(Memory),
    }
}

/// When the conversation at a place falls due, and whether for its End of `idle`.
fn due_at<C: Charge>(
    set: &ConvoSet,
    desk: &Desk<Held<C>>,
    place: usize,
) -> Result<(u64, bool), Memory>
    ensures { (t : Terms) (m : Course) (o : Open) (due : _) → SetsUp set.now t → m.under ≡ None → Keeps (StandsFor (charge_by C.amount C.stamp) t) t m desk.entry.now → slice_get (core_of t m).convos place ≡ Some o → due_of t o.convo ≡ Some due
        → IfOk result (λ r. r ≡ due) }
{
    match slot_at(desk, place) {
        Some(slot) => due_in(set, slot),
        None => Err(Memory),
    }
}

/// Begins the Time or the End of `idle` that is due first, of the conversation at a place.
pub(crate) fn begin_due<C: Charge>(
    alloc: Global,
    set: &ConvoSet,
    desk: &mut Desk<Held<C>>,
    place: usize,
) -> Result<(Stage<C, Held<C>>, Option<Turn<C>>), Hand<C>>
    ensures turn { (t : Terms) (last : ℕ) (handler : Handler) (m : Course) (o : Open) (d : DueOf) → SetsUp set.now t → IsSound t last handler m → m.under ≡ None → Keeps (StandsFor (charge_by C.amount C.stamp) t) t m desk.old
        → slice_get (core_of t m).convos place ≡ Some o → d.conv ≡ o.id → due_of t o.convo ≡ Some (d.at, d.idle) → step t m ≡ Goes (begun m (due_line d))
        → IfOk result (λ r. Moves (charge_by C.amount C.stamp) (StandsFor (charge_by C.amount C.stamp) t) t m desk.new r.0 r.1) }
    ensures step { IsStep (charge_by C.amount C.stamp) set.now.marks.limit desk.old desk.new nothing result }
{
    let Ok((at, idle)) = due_at(set, desk, place) else {
        return Err(Hand::empty());
    };
    if idle {
        begin_end(alloc, set, desk, place, at, Reason::Idle)
    } else {
        begin_time(alloc, set, desk, place, at)
    }
}
