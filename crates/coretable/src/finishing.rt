// At the end of the capture the live conversations end, one after the other.
ghost use Rattle.std.specs.Prelude.{◌≡◌, ◌<◌, ℕ, None, Some, IfOk, length, slice_get, true};
ghost use Rattle.streamdefs.specs.Terms.{Terms};
ghost use Rattle.streamdefs.specs.Core.{Open};
ghost use Rattle.streamdefs.specs.Convo.{is_live};
ghost use Rattle.coretable.specs.Course.{Course, core_of, due_by, first_live, has_room};
ghost use Rattle.coretable.specs.Course.Job.{Closes};
ghost use Rattle.coretable.specs.Lawfully.{IsSound};
ghost use Rattle.streamdefs.specs.Lawful.{Handler};
ghost use Rattle.flowdir.specs.Boundary.{charge_by};
ghost use Rattle.coretable.specs.Held.{StandsFor};
ghost use Rattle.convo.specs.Talk.{SetsUp};
ghost use Rattle.convo.specs.Talk.Phase.{Still};
ghost use Rattle.coretable.specs.Steps.{IsStep, nothing};
ghost use Rattle.coretable.specs.Turns.{Moves};
ghost use Rattle.coretable.specs.Standing.{AreEnded, Keeps};
ghost use Rattle.coretable.specs.Verdicts.{IsFirst};

use crate::beginning::begin_end;
use crate::planning::slot_at;
use crate::{Desk, Hand, Held, Memory, Slot, Stage, Turn};
use convo::ConvoSet;
use evring::Reason;
use prio_budget::Charge;
use std::alloc::Global;

/// Whether the conversation of a slot is live.
fn is_live_in<C: Charge>(slot: &Slot<Held<C>>) -> Result<bool, Memory>
    ensures { (t : Terms) (k : _) (talk : _) → slot.entry.now.talk ≡ Some talk → StandsFor (charge_by C.amount C.stamp) t talk k Still → IfOk result (λ b. b ≡ is_live k.convo) }
{
    match &slot.talk {
        Some(talk) => Ok(!talk.is_ended()),
        None => Err(Memory),
    }
}

/// Whether the conversation at a place is live.
fn is_live_at<C: Charge>(desk: &Desk<Held<C>>, place: usize) -> Result<bool, Memory>
    ensures { (t : Terms) (m : Course) (o : Open) → m.under ≡ None → Keeps (StandsFor (charge_by C.amount C.stamp) t) t m desk.entry.now → slice_get (core_of t m).convos place ≡ Some o
        → IfOk result (λ b. b ≡ is_live o.convo) }
{
    match slot_at(desk, place) {
        Some(slot) => is_live_in(slot),
        None => Err(Memory),
    }
}

/// How many conversations there are.
pub(crate) fn count_slots<T: Drop>(desk: &Desk<T>) -> usize
    ensures { result ≡ length desk.entry.now.slots.items }
{
    desk.slots.len()
}

/// The place of the first live conversation.
pub(crate) fn find_live<C: Charge>(desk: &Desk<Held<C>>) -> Result<Option<usize>, Memory>
    ensures { (t : Terms) (m : Course) → m.under ≡ None → Keeps (StandsFor (charge_by C.amount C.stamp) t) t m desk.entry.now → IfOk result (λ r. IsFirst (core_of t m) r) }
{
    let count = count_slots(desk);
    for place in desk.cursor..count {
        if is_live_at(desk, place)? {
            return Ok(Some(place));
        }
    }
    Ok(None)
}

/// From now on the first live conversation is looked for from a place on.
pub(crate) fn look_from<C: Charge>(desk: &mut Desk<Held<C>>, place: usize)
    ensures turn { (t : Terms) (m : Course) → m.under ≡ None → Keeps (StandsFor (charge_by C.amount C.stamp) t) t m desk.old → AreEnded place (core_of t m).convos → Keeps (StandsFor (charge_by C.amount C.stamp) t) t m desk.new }
    ensures rest { desk.new ≡ record desk.old { cursor = place } }
{
    desk.cursor = place;
}

/// Begins the End of the first live conversation, which stands at a place, where nothing is due before.
pub(crate) fn begin_first<C: Charge>(
    alloc: Global,
    set: &ConvoSet,
    desk: &mut Desk<Held<C>>,
    place: usize,
    at: u64,
) -> Result<(Stage<C, Held<C>>, Option<Turn<C>>), Hand<C>>
    ensures turn { (t : Terms) (last : ℕ) (handler : Handler) (m : Course) (o : Open) → SetsUp set.now t → IsSound t last handler m → m.under ≡ None → Keeps (StandsFor (charge_by C.amount C.stamp) t) t m desk.old
        → (core_of t m).owed ≡ None → m.job ≡ Closes at → due_by t (core_of t m) at ≡ None → first_live (core_of t m).convos ≡ Some o → slice_get (core_of t m).convos place ≡ Some o
        → has_room (core_of t m) ≡ true → IfOk result (λ r. Moves (charge_by C.amount C.stamp) (StandsFor (charge_by C.amount C.stamp) t) t m desk.new r.0 r.1) }
    ensures step { IsStep (charge_by C.amount C.stamp) set.now.marks.limit desk.old desk.new nothing result }
{
    begin_end(alloc, set, desk, place, at, Reason::Finish)
}
