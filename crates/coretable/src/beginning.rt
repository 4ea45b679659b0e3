// An entry of a conversation that is there begins.
ghost use Rattle.std.specs.Prelude.{◌≡◌, ◌+◌, ℕ, [], Some, None, IfSome, IfOk, slice_get, slice_set};
ghost use Rattle.streamdefs.specs.Terms.{Terms};
ghost use Rattle.streamdefs.specs.Lawful.{Handler};
ghost use Rattle.streamdefs.specs.Core.{Open};
ghost use Rattle.streamdefs.specs.Convo.Act.{Time as TimeAct, End as EndAct};
ghost use Rattle.coretable.specs.Course.{Course, begun, core_of};
ghost use Rattle.coretable.specs.Lawfully.{IsSound};
ghost use Rattle.flowdir.specs.Boundary.{charge_by};
ghost use Rattle.coretable.specs.Held.{StandsFor};
ghost use Rattle.convo.specs.Talk.{SetsUp};
ghost use Rattle.coretable.specs.Standing.{Keeps};
ghost use Rattle.coretable.specs.Steps.{IsStep, nothing, size_if_ok};
ghost use Rattle.coretable.specs.Weighed.{size_of_slots};
ghost use Rattle.coretable.specs.Turns.{Settles};

use crate::settling::settle;
use crate::{Active, Desk, EntryKind, Hand, Held, Memory, Stage, Turn};
use convo::ConvoSet;
use evring::Reason;
use prio_budget::Charge;
use std::alloc::Global;

/// What is taken out of a slot.
#[derive(Drop)]
pub(crate) struct Taken<T: Drop> {
    pub number: u32,
    pub clock: u64,
    pub talk: T,
}

/// Takes what is kept of the conversation at a place. A place without it answers want of memory; none is asked for.
pub(crate) fn take_out<T: Drop>(desk: &mut Desk<T>, place: usize) -> Result<Taken<T>, Memory>
    ensures taken { IfSome (slice_get desk.old.slots.items place) (λ s. IfOk result (λ r. (r.number ≡ s.number) × (r.clock ≡ s.clock) × (s.talk ≡ Some r.talk))) }
    ensures slots { IfSome (slice_get desk.old.slots.items place) (λ s. desk.new.slots.items ≡ slice_set desk.old.slots.items place (record s { talk = None })) }
    ensures rest { desk.new ≡ record desk.old { slots = desk.new.slots } }
    ensures size { (size : T → ℕ) → size_of_slots size desk.new.slots.items + size_if_ok (λ taken. size taken.talk) result ≡ size_of_slots size desk.old.slots.items }
{
    match desk.slots.get_mut(place) {
        Some(slot) => match slot.talk.take() {
            Some(talk) => Ok(Taken {
                number: slot.number,
                clock: slot.clock,
                talk,
            }),
            None => Err(Memory),
        },
        None => Err(Memory),
    }
}

/// An entry under way without looks and releases.
pub(crate) fn active_of<T: Drop>(
    alloc: Global,
    place: usize,
    number: u32,
    clock: u64,
    kind: EntryKind,
    talk: T,
) -> Active<T>
    ensures { (result.place ≡ place) × (result.number ≡ number) × (result.clock ≡ clock) × (result.kind ≡ kind) × (result.looks.items ≡ []) × (result.frees.items ≡ []) × (result.talk ≡ talk) }
{
    Active {
        place,
        number,
        clock,
        kind,
        looks: Vec::new(alloc),
        frees: Vec::new(alloc),
        talk,
    }
}

/// Begins the Time of the conversation at a place.
pub(crate) fn begin_time<C: Charge>(
    alloc: Global,
    set: &ConvoSet,
    desk: &mut Desk<Held<C>>,
    place: usize,
    at: u64,
) -> Result<(Stage<C, Held<C>>, Option<Turn<C>>), Hand<C>>
    ensures turn { (t : Terms) (last : ℕ) (handler : Handler) (m : Course) (o : Open) → SetsUp set.now t → IsSound t last handler m → m.under ≡ None → Keeps (StandsFor (charge_by C.amount C.stamp) t) t m desk.old
        → slice_get (core_of t m).convos place ≡ Some o → IsSound t last handler (begun m (record { conv = o.id; act = TimeAct at [] [] }))
        → IfOk result (λ r. Settles (charge_by C.amount C.stamp) (StandsFor (charge_by C.amount C.stamp) t) t (begun m (record { conv = o.id; act = TimeAct at [] [] })) desk.new r.0 r.1) }
    ensures step { IsStep (charge_by C.amount C.stamp) set.now.marks.limit desk.old desk.new nothing result }
{
    let Ok(taken) = take_out(desk, place) else {
        return Err(Hand::empty());
    };
    let mut talk = taken.talk;
    match talk.time(set, at) {
        Ok(want) => {
            let kind = EntryKind::Time { at };
            let active = active_of(alloc, place, taken.number, taken.clock, kind, talk);
            settle(set, desk, active, want)
        }
        Err(_) => Err(Hand::of(talk)),
    }
}

/// Begins the End of the conversation at a place.
pub(crate) fn begin_end<C: Charge>(
    alloc: Global,
    set: &ConvoSet,
    desk: &mut Desk<Held<C>>,
    place: usize,
    at: u64,
    reason: Reason,
) -> Result<(Stage<C, Held<C>>, Option<Turn<C>>), Hand<C>>
    ensures turn { (t : Terms) (last : ℕ) (handler : Handler) (m : Course) (o : Open) → SetsUp set.now t → IsSound t last handler m → m.under ≡ None → Keeps (StandsFor (charge_by C.amount C.stamp) t) t m desk.old
        → slice_get (core_of t m).convos place ≡ Some o → IsSound t last handler (begun m (record { conv = o.id; act = EndAct at reason [] [] }))
        → IfOk result (λ r. Settles (charge_by C.amount C.stamp) (StandsFor (charge_by C.amount C.stamp) t) t (begun m (record { conv = o.id; act = EndAct at reason [] [] })) desk.new r.0 r.1) }
    ensures step { IsStep (charge_by C.amount C.stamp) set.now.marks.limit desk.old desk.new nothing result }
{
    let Ok(taken) = take_out(desk, place) else {
        return Err(Hand::empty());
    };
    let mut talk = taken.talk;
    match talk.end(set, at, reason) {
        Ok(want) => {
            let kind = EntryKind::End { at, reason };
            let active = active_of(alloc, place, taken.number, taken.clock, kind, talk);
            settle(set, desk, active, want)
        }
        Err(_) => Err(Hand::of(talk)),
    }
}
