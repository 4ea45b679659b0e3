// What an ask, a release or an event is answered by goes to the entry under way.
ghost use Rattle.std.specs.Prelude.{◌≡◌, ◌+◌, ◌++◌, [], ◌∷◌, ℕ, suc, IfErr, IfOk, OnErr, OnOk};
ghost use Rattle.histbook.specs.declared.look_entry.LookEntry.{LookEntry as Look};
ghost use Rattle.prio_budget.specs.declared.free.Free.{Free as FreeDone};
ghost use Rattle.streamdefs.specs.Terms.{Terms};
ghost use Rattle.streamdefs.specs.Lawful.{Handler};
ghost use Rattle.streamdefs.specs.View.{Ask as Request};
ghost use Rattle.streamdefs.specs.Reorder.{Charge as ChargeMade};
ghost use Rattle.streamdefs.specs.Convo.{Act, Event as EventMade};
ghost use Rattle.streamdefs.specs.Want.{want, with_look, with_free};
ghost use Rattle.streamdefs.specs.Want.Want.{Reserve, Release, Emit as EmitWanted};
ghost use Rattle.coretable.specs.Course.{Course};
ghost use Rattle.coretable.specs.Lawfully.{IsSound};
ghost use Rattle.flowdir.specs.Boundary.{charge_by, IsLookOf, weight_of};
ghost use Rattle.coretable.specs.Held.{StandsFor};
ghost use Rattle.convo.specs.Talk.{Talk, IsWantOf, SetsUp};
ghost use Rattle.convo.specs.Talk.Phase.{Under as UnderWay};
ghost use Rattle.convo.specs.Standing.{IsAskWithin};
ghost use Rattle.convo.specs.Weights.{weight_of_want};
ghost use Rattle.coretable.specs.Steps.{IsStep};
ghost use Rattle.coretable.specs.Weighed.{weight_of_active};
ghost use Rattle.coretable.specs.Turns.{AtEvent, AtFree, AtLook, Settles};

use crate::settling::settle;
use crate::{Active, Desk, Hand, Held, Memory, Stage, Turn};
use convo::{ConvoSet, Want};
use histbook::LookEntry;
use prio_budget::{Charge, Free};

/// The entry with one look more.
fn put_look<T: Drop>(active: &mut Active<T>, look: LookEntry) -> Result<(), Memory>
    ensures looks { OnOk result (active.new.looks.items ≡ active.old.looks.items ++ look ∷ []) }
    ensures rest { active.new ≡ record active.old { looks = active.new.looks } }
{
    active.looks.push(look)?;
    Ok(())
}

/// The entry with one release more.
fn put_free<T: Drop>(active: &mut Active<T>, free: Free) -> Result<(), Memory>
    ensures frees { OnOk result (active.new.frees.items ≡ active.old.frees.items ++ free ∷ []) }
    ensures rest { active.new ≡ record active.old { frees = active.new.frees } }
{
    active.frees.push(free)?;
    Ok(())
}

/// Tells the conversation the answer to its ask.
fn tell<C: Charge>(
    set: &ConvoSet,
    active: &mut Active<Held<C>>,
    granted: Option<C>,
) -> Result<Want<C>, Option<C>>
    ensures turn { IfOk result (λ w. (t : Terms) (k : Talk) (act : Act) (n : ℕ) (look : Look) (request : Request) (mark : ℕ) → SetsUp set.now t → StandsFor (charge_by C.amount C.stamp) t active.old.talk k (UnderWay act n)
        → want t k.convo act n ≡ Reserve request mark → IsLookOf (charge_by C.amount C.stamp) granted look
        → IsWantOf (charge_by C.amount C.stamp) (StandsFor (charge_by C.amount C.stamp) t active.new.talk) t k (with_look look act) n w) }
    ensures rest { active.new ≡ record active.old { talk = active.new.talk } }
    ensures within { IfOk result (IsAskWithin set.now.marks.limit) }
    ensures weight { IfOk result (λ want. (w : C → ℕ) → weight_of_active w active.new + weight_of_want w want ≡ weight_of_active w active.old + weight_of w granted) }
    ensures err { IfErr result (λ back. (w : C → ℕ) → weight_of_active w active.new + weight_of w back ≡ weight_of_active w active.old + weight_of w granted) }
{
    active.talk.told(set, granted)
}

/// Tells it that its charge was given back.
fn tell_free<C: Charge>(set: &ConvoSet, active: &mut Active<Held<C>>) -> Result<Want<C>, Memory>
    ensures turn { IfOk result (λ w. (t : Terms) (k : Talk) (act : Act) (n : ℕ) (free : FreeDone) (charge : ChargeMade) → SetsUp set.now t → StandsFor (charge_by C.amount C.stamp) t active.old.talk k (UnderWay act n)
        → want t k.convo act n ≡ Release charge → IsWantOf (charge_by C.amount C.stamp) (StandsFor (charge_by C.amount C.stamp) t active.new.talk) t k (with_free free act) n w) }
    ensures rest { active.new ≡ record active.old { talk = active.new.talk } }
    ensures within { IfOk result (IsAskWithin set.now.marks.limit) }
    ensures weight { IfOk result (λ want. (w : C → ℕ) → weight_of_active w active.new + weight_of_want w want ≡ weight_of_active w active.old) }
    ensures err { OnErr result ((w : C → ℕ) → weight_of_active w active.new ≡ weight_of_active w active.old) }
{
    active.talk.freed(set)
}

/// Tells it that its event was handed over.
fn tell_event<C: Charge>(set: &ConvoSet, active: &mut Active<Held<C>>) -> Result<Want<C>, Memory>
    ensures turn { IfOk result (λ w. (t : Terms) (k : Talk) (act : Act) (n : ℕ) (event : EventMade) → SetsUp set.now t → StandsFor (charge_by C.amount C.stamp) t active.old.talk k (UnderWay act n)
        → want t k.convo act n ≡ EmitWanted event → IsWantOf (charge_by C.amount C.stamp) (StandsFor (charge_by C.amount C.stamp) t active.new.talk) t k act (suc n) w) }
    ensures rest { active.new ≡ record active.old { talk = active.new.talk } }
    ensures within { IfOk result (IsAskWithin set.now.marks.limit) }
    ensures weight { IfOk result (λ want. (w : C → ℕ) → weight_of_active w active.new + weight_of_want w want ≡ weight_of_active w active.old) }
    ensures err { OnErr result ((w : C → ℕ) → weight_of_active w active.new ≡ weight_of_active w active.old) }
{
    active.talk.emitted(set)
}

/// Goes on behind the answer to an ask.
pub(crate) fn go_on_told<C: Charge>(
    set: &ConvoSet,
    desk: &mut Desk<Held<C>>,
    active: Active<Held<C>>,
    look: LookEntry,
    granted: Option<C>,
) -> Result<(Stage<C, Held<C>>, Option<Turn<C>>), Hand<C>>
    ensures turn { (t : Terms) (last : ℕ) (handler : Handler) (m : Course) → IsSound t last handler m → SetsUp set.now t
        → AtLook (charge_by C.amount C.stamp) (StandsFor (charge_by C.amount C.stamp) t) t m desk.old active look granted
        → IfOk result (λ r. Settles (charge_by C.amount C.stamp) (StandsFor (charge_by C.amount C.stamp) t) t m desk.new r.0 r.1) }
    ensures step { IsStep (charge_by C.amount C.stamp) set.now.marks.limit desk.old desk.new (λ w. weight_of_active w active + weight_of w granted) result }
{
    let mut active = active;
    let Ok(()) = put_look(&mut active, look) else {
        return Err(Hand::with_charge(active.talk, granted));
    };
    match tell(set, &mut active, granted) {
        Ok(want) => settle(set, desk, active, want),
        Err(back) => Err(Hand::with_charge(active.talk, back)),
    }
}

/// Goes on behind a release.
pub(crate) fn go_on_freed<C: Charge>(
    set: &ConvoSet,
    desk: &mut Desk<Held<C>>,
    active: Active<Held<C>>,
    free: Free,
) -> Result<(Stage<C, Held<C>>, Option<Turn<C>>), Hand<C>>
    ensures turn { (t : Terms) (last : ℕ) (handler : Handler) (m : Course) → IsSound t last handler m → SetsUp set.now t
        → AtFree (StandsFor (charge_by C.amount C.stamp) t) t m desk.old active free
        → IfOk result (λ r. Settles (charge_by C.amount C.stamp) (StandsFor (charge_by C.amount C.stamp) t) t m desk.new r.0 r.1) }
    ensures step { IsStep (charge_by C.amount C.stamp) set.now.marks.limit desk.old desk.new (λ w. weight_of_active w active) result }
{
    let mut active = active;
    let Ok(()) = put_free(&mut active, free) else {
        return Err(Hand::of(active.talk));
    };
    match tell_free(set, &mut active) {
        Ok(want) => settle(set, desk, active, want),
        Err(_) => Err(Hand::of(active.talk)),
    }
}

/// Goes on behind an event.
pub(crate) fn go_on_emitted<C: Charge>(
    set: &ConvoSet,
    desk: &mut Desk<Held<C>>,
    active: Active<Held<C>>,
) -> Result<(Stage<C, Held<C>>, Option<Turn<C>>), Hand<C>>
    ensures turn { (t : Terms) (last : ℕ) (handler : Handler) (m : Course) → IsSound t last handler m → SetsUp set.now t
        → AtEvent (StandsFor (charge_by C.amount C.stamp) t) t m desk.old active
        → IfOk result (λ r. Settles (charge_by C.amount C.stamp) (StandsFor (charge_by C.amount C.stamp) t) t m desk.new r.0 r.1) }
    ensures step { IsStep (charge_by C.amount C.stamp) set.now.marks.limit desk.old desk.new (λ w. weight_of_active w active) result }
{
    let mut active = active;
    match tell_event(set, &mut active) {
        Ok(want) => settle(set, desk, active, want),
        Err(_) => Err(Hand::of(active.talk)),
    }
}
