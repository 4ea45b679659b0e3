// What an entry under way wants next.
ghost use Rattle.std.specs.Prelude.{◌≡◌, ◌≤◌, ◌+◌, ◌++◌, [], ◌∷◌, ℕ, Ok, OnOk, OnErr, IfOk};
ghost use Rattle.streamdefs.specs.Terms.{Terms};
ghost use Rattle.streamdefs.specs.Lawful.{Handler};
ghost use Rattle.coretable.specs.Course.{Course, Under};
ghost use Rattle.coretable.specs.Lawfully.{IsSound};
ghost use Rattle.flowdir.specs.Boundary.{charge_by};
ghost use Rattle.coretable.specs.Held.{StandsFor};
ghost use Rattle.convo.specs.Talk.{IsWantOf, SetsUp};
ghost use Rattle.convo.specs.declared.want.Want.TheVariants.{Ask, Free, Emit, Rest};
ghost use Rattle.coretable.specs.Standing.{talk_before, kind_of, Keeps, IsActive};
ghost use Rattle.coretable.specs.Turns.{IsFresh, Settles};
ghost use Rattle.convo.specs.Standing.{IsAskWithin};
ghost use Rattle.convo.specs.Weights.{weight_of_event, weight_of_want};
ghost use Rattle.coretable.specs.Steps.{IsStep};
ghost use Rattle.coretable.specs.Weighed.{weight_of_active};

use crate::completing::complete;
use crate::{Active, Desk, Hand, Held, Memory, Stage, Turn, Unanswered};
use convo::{AnsweredEvent, ConvoSet, Want};
use evring::Event;
use prio_budget::Charge;

/// Which event it is.
fn kind_of<C: Charge>(event: &Event<C>) -> AnsweredEvent
    ensures { result ≡ kind_of event.entry.now }
{
    match event {
        Event::New { .. } => AnsweredEvent::New,
        Event::Chunk { way, .. } => AnsweredEvent::Chunk(*way),
        Event::Ended { .. } => AnsweredEvent::Ended,
    }
}

/// Notes an event that is handed over.
fn note_event<T: Drop>(desk: &mut Desk<T>, place: usize, of: AnsweredEvent) -> Result<(), Memory>
    ensures queue { OnOk result (desk.new.unanswered.items ≡ desk.old.unanswered.items ++ record { place = place; of = of } ∷ []) }
    ensures none { OnErr result (desk.new.unanswered.items ≡ desk.old.unanswered.items) }
    ensures rest { desk.new ≡ record desk.old { unanswered = desk.new.unanswered } }
{
    desk.unanswered.push_back(Unanswered { place, of })?;
    Ok(())
}

/// Nothing: the entry is complete.
fn settle_rest<C: Charge>(
    set: &ConvoSet,
    desk: &mut Desk<Held<C>>,
    active: Active<Held<C>>,
) -> Result<(Stage<C, Held<C>>, Option<Turn<C>>), Hand<C>>
    ensures turn { (t : Terms) (last : ℕ) (handler : Handler) (m : Course) (u : Under) → SetsUp set.now t → IsSound t last handler m
        → Keeps (StandsFor (charge_by C.amount C.stamp) t) t m desk.old → IsActive t m u active → IsFresh t m u
        → IsWantOf (charge_by C.amount C.stamp) (StandsFor (charge_by C.amount C.stamp) t active.talk) t (talk_before t m u) u.line.act u.emitted Rest
        → IfOk result (λ r. Settles (charge_by C.amount C.stamp) (StandsFor (charge_by C.amount C.stamp) t) t m desk.new r.0 r.1) }
    ensures step { IsStep (charge_by C.amount C.stamp) set.now.marks.limit desk.old desk.new (λ w. weight_of_active w active) result }
{
    match complete(set, desk, active) {
        Ok(()) => Ok((Stage::Rests, None)),
        Err(hand) => Err(hand),
    }
}

/// An ask.
fn settle_ask<C: Charge>(
    desk: &Desk<Held<C>>,
    active: Active<Held<C>>,
    bytes: u32,
    mark: u32,
) -> (Stage<C, Held<C>>, Option<Turn<C>>)
    ensures turn { (t : Terms) (m : Course) (u : Under)
        → Keeps (StandsFor (charge_by C.amount C.stamp) t) t m desk.entry.now → IsActive t m u active → IsFresh t m u
        → IsWantOf (charge_by C.amount C.stamp) (StandsFor (charge_by C.amount C.stamp) t active.talk) t (talk_before t m u) u.line.act u.emitted (Ask bytes mark)
        → Settles (charge_by C.amount C.stamp) (StandsFor (charge_by C.amount C.stamp) t) t m desk.entry.now result.0 result.1 }
    ensures step { (limit : ℕ) → 1 ≤ bytes → mark ≤ limit → IsStep (charge_by C.amount C.stamp) limit desk.entry.now desk.entry.now (λ w. weight_of_active w active) (Ok result) }
{
    let _ = desk.answered;
    (
        Stage::Asked {
            active,
            bytes,
            mark,
        },
        Some(Turn::Ask { bytes, mark }),
    )
}

/// A release.
fn settle_free<C: Charge>(
    desk: &Desk<Held<C>>,
    active: Active<Held<C>>,
    charge: C,
) -> (Stage<C, Held<C>>, Option<Turn<C>>)
    ensures turn { (t : Terms) (m : Course) (u : Under)
        → Keeps (StandsFor (charge_by C.amount C.stamp) t) t m desk.entry.now → IsActive t m u active → IsFresh t m u
        → IsWantOf (charge_by C.amount C.stamp) (StandsFor (charge_by C.amount C.stamp) t active.talk) t (talk_before t m u) u.line.act u.emitted (Free charge)
        → Settles (charge_by C.amount C.stamp) (StandsFor (charge_by C.amount C.stamp) t) t m desk.entry.now result.0 result.1 }
    ensures step { (limit : ℕ) → IsStep (charge_by C.amount C.stamp) limit desk.entry.now desk.entry.now (λ w. weight_of_active w active + w charge) (Ok result) }
{
    let _ = desk.answered;
    let bytes = charge.amount();
    let stamp = charge.stamp();
    (
        Stage::Freeing {
            active,
            bytes,
            stamp,
        },
        Some(Turn::Free(charge)),
    )
}

/// An event.
fn settle_event<C: Charge>(
    desk: &mut Desk<Held<C>>,
    active: Active<Held<C>>,
    event: Event<C>,
) -> Result<(Stage<C, Held<C>>, Option<Turn<C>>), Hand<C>>
    ensures turn { (t : Terms) (m : Course) (u : Under)
        → Keeps (StandsFor (charge_by C.amount C.stamp) t) t m desk.old → IsActive t m u active → IsFresh t m u
        → IsWantOf (charge_by C.amount C.stamp) (StandsFor (charge_by C.amount C.stamp) t active.talk) t (talk_before t m u) u.line.act u.emitted (Emit event)
        → IfOk result (λ r. Settles (charge_by C.amount C.stamp) (StandsFor (charge_by C.amount C.stamp) t) t m desk.new r.0 r.1) }
    ensures step { (limit : ℕ) → IsStep (charge_by C.amount C.stamp) limit desk.old desk.new (λ w. weight_of_active w active + weight_of_event w event) result }
{
    let of = kind_of(&event);
    match note_event(desk, active.place, of) {
        Ok(()) => Ok((Stage::Emitted { active }, Some(Turn::Emit(event)))),
        Err(_) => Err(Hand::with_event(active.talk, event)),
    }
}

/// What the entry under way wants next, as its conversation told it.
pub(crate) fn settle<C: Charge>(
    set: &ConvoSet,
    desk: &mut Desk<Held<C>>,
    active: Active<Held<C>>,
    want: Want<C>,
) -> Result<(Stage<C, Held<C>>, Option<Turn<C>>), Hand<C>>
    ensures turn { (t : Terms) (last : ℕ) (handler : Handler) (m : Course) (u : Under) → SetsUp set.now t → IsSound t last handler m
        → Keeps (StandsFor (charge_by C.amount C.stamp) t) t m desk.old → IsActive t m u active → IsFresh t m u
        → IsWantOf (charge_by C.amount C.stamp) (StandsFor (charge_by C.amount C.stamp) t active.talk) t (talk_before t m u) u.line.act u.emitted want
        → IfOk result (λ r. Settles (charge_by C.amount C.stamp) (StandsFor (charge_by C.amount C.stamp) t) t m desk.new r.0 r.1) }
    ensures step { IsAskWithin set.now.marks.limit want → IsStep (charge_by C.amount C.stamp) set.now.marks.limit desk.old desk.new (λ w. weight_of_active w active + weight_of_want w want) result }
{
    match want {
        Want::Rest => settle_rest(set, desk, active),
        Want::Ask { bytes, mark } => Ok(settle_ask(desk, active, bytes, mark)),
        Want::Free(charge) => Ok(settle_free(desk, active, charge)),
        Want::Emit(event) => settle_event(desk, active, event),
    }
}
