// What became of the bytes of all conversations.
ghost use Rattle.std.specs.Prelude.{◌≡◌, ◌++◌, ℕ, List, Some, None, length, slice_get, IfOk, OnOk};
ghost use Rattle.streamdefs.specs.Terms.{Terms};
ghost use Rattle.streamdefs.specs.Lawful.{Handler};
ghost use Rattle.streamdefs.specs.Convo.{Act};
ghost use Rattle.streamdefs.specs.Core.{Open};
ghost use Rattle.flowdir.specs.Boundary.{charge_by};
ghost use Rattle.convo.specs.Talk.{Talk, new_talk, talk_at};
ghost use Rattle.convo.specs.Talk.Phase.{Still};
ghost use Rattle.coretable.specs.Course.{Course, core_of};
ghost use Rattle.coretable.specs.Lawfully.{IsSound};
ghost use Rattle.coretable.specs.Held.{StandsFor};
ghost use Rattle.coretable.specs.Standing.{Keeps};
ghost use Rattle.coretable.specs.Summed.{dirs_in, tallied_by, tallied_in, totals_on};

use crate::finishing::count_slots;
use crate::planning::slot_at;
use crate::{Desk, Held, Memory, Slot};
use convo::DirTotal;
use evring::Way;
use prio_budget::Charge;
use std::alloc::Global;

/// Puts the totals of the conversation in a slot behind others, fore before back. A slot without it answers want of memory;
/// none is asked for.
fn put_slot<C: Charge>(totals: &mut Vec<DirTotal>, slot: &Slot<Held<C>>) -> Result<(), Memory>
    ensures { (t : Terms) (k : Talk) (talk : _) (acts : List Act) → slot.entry.now.talk ≡ Some talk → StandsFor (charge_by C.amount C.stamp) t talk k Still
        → k.sums ≡ (talk_at t (new_talk k.convo.first) acts).sums → OnOk result (totals.new.items ≡ totals.old.items ++ dirs_in (tallied_by t k.convo.first acts)) }
{
    match &slot.talk {
        Some(talk) => {
            totals.push(talk.total(Way::Fore))?;
            totals.push(talk.total(Way::Back))?;
            Ok(())
        }
        None => Err(Memory),
    }
}

/// Puts those of the conversation at a place behind others.
fn put_place<C: Charge>(
    totals: &mut Vec<DirTotal>,
    desk: &Desk<Held<C>>,
    place: usize,
) -> Result<(), Memory>
    ensures { (t : Terms) (last : ℕ) (handler : Handler) (m : Course) (o : Open) → IsSound t last handler m → m.under ≡ None → Keeps (StandsFor (charge_by C.amount C.stamp) t) t m desk.entry.now
        → slice_get (core_of t m).convos place ≡ Some o → OnOk result (totals.new.items ≡ totals.old.items ++ dirs_in (tallied_in t m.lines o)) }
{
    match slot_at(desk, place) {
        Some(slot) => put_slot(totals, slot),
        None => Err(Memory),
    }
}

/// The totals of all conversations, in the order in which they opened, fore before back.
pub(crate) fn totals_of<C: Charge>(
    alloc: Global,
    desk: &Desk<Held<C>>,
) -> Result<Vec<DirTotal>, Memory>
    ensures { (t : Terms) (last : ℕ) (handler : Handler) (m : Course) → IsSound t last handler m → m.under ≡ None → Keeps (StandsFor (charge_by C.amount C.stamp) t) t m desk.entry.now
        → IfOk result (λ totals. totals.items ≡ totals_on t m.lines) }
{
    let mut totals = Vec::new(alloc);
    for place in 0..count_slots(desk) {
        put_place(&mut totals, desk, place)?;
    }
    Ok(totals)
}
