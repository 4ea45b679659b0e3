// An entry that is complete goes to the end of the book.
ghost use Rattle.std.specs.Prelude.{◌≡◌, ◌+◌, ◌==◌, ◌++◌, [], ◌∷◌, ℕ, Some, None, cond, slice_get, slice_set, IfErr, IfSome, OnOk};
ghost use Rattle.std.specs.FinMap.{get as moment_in};
ghost use Rattle.streamdefs.specs.Terms.{Terms};
ghost use Rattle.streamdefs.specs.Lawful.{Handler};
ghost use Rattle.streamdefs.specs.Want.Want.{Rest};
ghost use Rattle.coretable.specs.Course.{Course, Under, completed, want_of};
ghost use Rattle.coretable.specs.Lawfully.{IsSound};
ghost use Rattle.coretable.specs.Moments.{moment_of};
ghost use Rattle.flowdir.specs.Boundary.{charge_by};
ghost use Rattle.coretable.specs.Held.{StandsFor};
ghost use Rattle.convo.specs.Talk.{SetsUp, talk_after};
ghost use Rattle.convo.specs.Talk.Phase.{Still};
ghost use Rattle.coretable.specs.Steps.{IsMoved, size_if_err};
ghost use Rattle.coretable.specs.Weighed.{size_of_slots, weight_of_active, weight_of_hand};
ghost use Rattle.coretable.specs.Standing.{talk_before, entry_for, owed_place, answered_by, owed_by_kind, Keeps, IsActive};

use crate::{Active, Desk, EntryKind, Hand, Held, Memory, Owed, Slot};
use convo::ConvoSet;
use evring::{Frees, Reason};
use histbook::{CoreEntry, Entry, LookEntry, Looks};
use prio_budget::{Charge, Free};

/// An entry with its looks and releases.
pub(crate) fn entry_of(kind: EntryKind, looks: Vec<LookEntry>, frees: Vec<Free>) -> Entry
    ensures { result ≡ entry_for kind looks.items frees.items }
{
    match kind {
        EntryKind::Seg { packet, now } => Entry::Seg {
            packet,
            now,
            looks: Looks::of(looks),
            frees: Frees::of(frees),
        },
        EntryKind::Answer { event, advice } => Entry::Answer {
            event,
            advice,
            frees: Frees::of(frees),
        },
        EntryKind::Time { at } => Entry::Time {
            at,
            looks: Looks::of(looks),
            frees: Frees::of(frees),
        },
        EntryKind::End { at, reason } => Entry::End {
            at,
            reason,
            looks: Looks::of(looks),
            frees: Frees::of(frees),
        },
    }
}

/// The End that is due, of the conversation at a place.
pub(crate) fn owed_at(place: usize, ending: Option<(Reason, u64)>) -> Option<Owed>
    ensures { result ≡ owed_place place ending }
{
    match ending {
        Some((reason, at)) => Some(Owed { place, reason, at }),
        None => None,
    }
}

/// Notes what an entry makes due: an answer counts, any other entry may make an End due.
fn note_due<T: Drop>(
    desk: &mut Desk<T>,
    place: usize,
    kind: EntryKind,
    ending: Option<(Reason, u64)>,
)
    ensures { desk.new ≡ record desk.old { answered = answered_by kind desk.old.answered; owed = owed_by_kind kind desk.old.owed (owed_place place ending) } }
{
    match kind {
        EntryKind::Answer { event, .. } => desk.answered = event,
        _ => desk.owed = owed_at(place, ending),
    }
}

/// Puts what is kept of a conversation into its slot. It comes back from a slot that has something.
fn put_in<T: Drop>(slot: &mut Slot<T>, clock: u64, talk: T) -> Result<(), T>
    ensures ok { OnOk result ((slot.old.talk ≡ None) × (slot.new ≡ record slot.old { clock = clock; talk = Some talk })) }
    ensures err { IfErr result (λ back. (back ≡ talk) × (slot.new ≡ slot.old)) }
{
    if slot.talk.is_some() {
        return Err(talk);
    }
    slot.clock = clock;
    slot.talk = Some(talk);
    Ok(())
}

/// Puts what is kept of a conversation back to its place. It comes back where there is no such place.
fn put_back<T: Drop>(desk: &mut Desk<T>, place: usize, clock: u64, talk: T) -> Result<(), T>
    ensures slots { OnOk result (IfSome (slice_get desk.old.slots.items place) (λ s. desk.new.slots.items ≡ slice_set desk.old.slots.items place (record s { clock = clock; talk = Some talk }))) }
    ensures size { (size : T → ℕ) → size_of_slots size desk.new.slots.items + size_if_err size result ≡ size_of_slots size desk.old.slots.items + size talk }
    ensures rest { desk.new ≡ record desk.old { slots = desk.new.slots } }
{
    match desk.slots.get_mut(place) {
        Some(slot) => put_in(slot, clock, talk),
        None => Err(talk),
    }
}

/// Puts an entry to the end of the book.
fn enter<T: Drop>(desk: &mut Desk<T>, conv: u32, entry: Entry) -> Result<(), Memory>
    ensures book { OnOk result (desk.new.book.items ≡ desk.old.book.items ++ record { conv = conv; entry = entry } ∷ []) }
    ensures rest { desk.new ≡ record desk.old { book = desk.new.book } }
{
    desk.book.push(CoreEntry { conv, entry })?;
    Ok(())
}

/// From now on the conversation at a place falls due at that moment.
fn note_moment<T: Drop>(
    desk: &mut Desk<T>,
    place: usize,
    due: Option<(u64, bool)>,
) -> Result<(), Memory>
    ensures dues { OnOk result ((other : ℕ) → moment_in desk.new.dues other ≡ cond (place == other) (moment_of due) (moment_in desk.old.dues other)) }
    ensures rest { desk.new ≡ record desk.old { dues = desk.new.dues } }
{
    let Ok(id) = u32::try_from(place) else {
        return Err(Memory);
    };
    match due {
        Some((moment, _)) => desk.dues.set(id, moment)?,
        None => desk.dues.remove(id),
    }
    Ok(())
}

/// Completes the entry under way: its conversation goes back to its place, and the entry into the book.
pub(crate) fn complete<C: Charge>(
    set: &ConvoSet,
    desk: &mut Desk<Held<C>>,
    active: Active<Held<C>>,
) -> Result<(), Hand<C>>
    ensures turn { (t : Terms) (last : ℕ) (handler : Handler) (m : Course) (u : Under) → SetsUp set.now t → IsSound t last handler m
        → Keeps (StandsFor (charge_by C.amount C.stamp) t) t m desk.old → IsActive t m u active → want_of t m u ≡ Rest
        → StandsFor (charge_by C.amount C.stamp) t active.talk (talk_after t (talk_before t m u) u.line.act) Still
        → OnOk result (Keeps (StandsFor (charge_by C.amount C.stamp) t) t (completed m u) desk.new) }
    ensures step { IsMoved desk.old desk.new (λ w. weight_of_active w active) (λ w. size_if_err (weight_of_hand w) result) }
{
    let Active {
        place,
        number,
        clock,
        kind,
        looks,
        frees,
        talk,
    } = active;
    let ending = talk.ending();
    let due = talk.due(set);
    note_due(desk, place, kind, ending);
    if let Err(talk) = put_back(desk, place, clock, talk) {
        return Err(Hand::of(talk));
    }
    let Ok(()) = note_moment(desk, place, due) else {
        return Err(Hand::empty());
    };
    let Ok(()) = enter(desk, number, entry_of(kind, looks, frees)) else {
        return Err(Hand::empty());
    };
    Ok(())
}
