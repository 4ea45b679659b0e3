// In drain mode all charges are given out, and no memory is taken.
ghost use Rattle.std.specs.Prelude.{◌≡◌, ℕ, ◌+◌, ◌++◌, [], ◌∷◌, IsNone, IfSome, true, false};
ghost use Rattle.flowdir.specs.Boundary.{weight_of};
ghost use Rattle.coretable.specs.declared.slot.Slot.{Slot as SlotOf};
ghost use Rattle.coretable.specs.Fits.{IsDone, events_by, is_closing, unanswered_of};
ghost use Rattle.coretable.specs.Table.{IsDrained, OnlyDrains, is_empty};
ghost use Rattle.coretable.specs.Weighed.{weight_of_desk, weight_of_hand, weight_of_turn};

use crate::{Desk, Hand, Held, Job, Turn};
use prio_budget::Charge;

/// Takes out what is kept of the last conversation, whose place goes.
fn pop_talk<T: Drop>(desk: &mut Desk<T>) -> Option<Option<T>>
    ensures some { IfSome result (λ talk. (slot : SlotOf T) × (desk.old.slots.items ≡ desk.new.slots.items ++ slot ∷ []) × (slot.talk ≡ talk)) }
    ensures none { IsNone result → (desk.old.slots.items ≡ []) × (desk.new.slots.items ≡ []) }
    ensures rest { desk.new ≡ record desk.old { slots = desk.new.slots } }
{
    let slot = desk.slots.pop()?;
    Some(slot.talk)
}

/// Puts what is kept of a conversation in hand.
fn put_talk<T: Drop>(at: &mut Option<T>, talk: Option<T>)
    ensures { at.new ≡ talk }
{
    *at = talk;
}

/// One of the charges: of what is in hand, then of the conversations.
fn drain<C: Charge>(desk: &mut Desk<Held<C>>, hand: &mut Hand<C>) -> Option<C>
    ensures weight { (w : C → ℕ) → weight_of_desk w desk.new + (weight_of_hand w hand.new + weight_of w result) ≡ weight_of_desk w desk.old + weight_of_hand w hand.old }
    ensures none { IsNone result → (is_empty hand.new ≡ true) × ((w : C → ℕ) → weight_of_desk w desk.new ≡ 0) }
    ensures rest { desk.new ≡ record desk.old { slots = desk.new.slots } }
{
    loop {
        if let Some(charge) = hand.drain() {
            return Some(charge);
        }
        let talk = pop_talk(desk)?;
        put_talk(&mut hand.talk, talk);
    }
}

/// Drops a packet that waits.
fn drop_packet<T: Drop>(desk: &mut Desk<T>)
    ensures closing { is_closing desk.new.job ≡ is_closing desk.old.job }
    ensures rest { desk.new ≡ record desk.old { job = desk.new.job } }
{
    if let Job::Takes(_) = &desk.job {
        desk.job = Job::Nothing;
    }
}

/// What is waited for once all is given out.
fn rest_turn<C: Charge, T: Drop>(desk: &Desk<T>) -> Turn<C>
    ensures done { IsDone (is_closing desk.entry.now.job) (unanswered_of desk.entry.now) result }
    ensures rests { IsDrained result }
{
    match &desk.job {
        Job::Closes(_) => {
            if desk.unanswered.is_empty() {
                Turn::Over
            } else {
                Turn::Full
            }
        }
        Job::Nothing | Job::Takes(_) => Turn::Ready,
    }
}

/// What a table in drain mode comes to: the next charge, or what it waits for.
pub(crate) fn drain_turn<C: Charge>(desk: &mut Desk<Held<C>>, hand: &mut Hand<C>) -> Turn<C>
    ensures drains { OnlyDrains result }
    ensures done { IsDone (is_closing desk.new.job) (unanswered_of desk.new) result }
    ensures empty { IsDrained result → (is_empty hand.new ≡ true) × ((w : C → ℕ) → weight_of_desk w desk.new ≡ 0) }
    ensures closing { is_closing desk.new.job ≡ is_closing desk.old.job }
    ensures unanswered { unanswered_of desk.new ≡ unanswered_of desk.old }
    ensures weight { (w : C → ℕ) → weight_of_desk w desk.new + (weight_of_hand w hand.new + weight_of_turn w result) ≡ weight_of_desk w desk.old + weight_of_hand w hand.old }
{
    match drain(desk, hand) {
        Some(charge) => Turn::Free(charge),
        None => {
            drop_packet(desk);
            rest_turn(desk)
        }
    }
}
