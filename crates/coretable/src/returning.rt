// An answer comes back.
ghost use Rattle.std.specs.Prelude.{◌≡◌, ◌≤◌, ◌+◌, [], ◌∷◌, ℕ, List, Some, None, false, suc, length, map, slice_get, IfOk, IfErr, IfSome, IfNone};
ghost use Rattle.prio_budget.specs.declared.free.Free.{Free as FreeDone};
ghost use Rattle.chunkpart.specs.ChunkParts.{ChunkParts};
ghost use Rattle.streamdefs.specs.Terms.{Terms};
ghost use Rattle.streamdefs.specs.Lawful.{Handler};
ghost use Rattle.streamdefs.specs.Convo.{Event as EventMade};
ghost use Rattle.streamdefs.specs.Convo.Act.{Answer as AnswerAct};
ghost use Rattle.streamdefs.specs.Core.{Told};
ghost use Rattle.coretable.specs.Course.{Course, answer_line, begun, core_of};
ghost use Rattle.coretable.specs.Lawfully.{IsSound};
ghost use Rattle.flowdir.specs.Boundary.{charge_by};
ghost use Rattle.coretable.specs.Held.{StandsFor};
ghost use Rattle.convo.specs.Talk.{SetsUp};
ghost use Rattle.convo.specs.Talk.{Talk, IsAnswerTo, IsWantOf, back_with, owed_for};
ghost use Rattle.convo.specs.Talk.Phase.{Still};
ghost use Rattle.convo.specs.Seen.{kept_for};
ghost use Rattle.coretable.specs.declared.unanswered.Unanswered.{Unanswered as Waits};
ghost use Rattle.coretable.specs.Standing.{Keeps};
ghost use Rattle.convo.specs.Standing.{IsAskWithin};
ghost use Rattle.convo.specs.Weights.{weight_of_chunks, weight_of_want};
ghost use Rattle.coretable.specs.declared.pause.Pause.TheVariants as pause;
ghost use Rattle.coretable.specs.Held.{weight_of_some};
ghost use Rattle.coretable.specs.Fits.{is_closing, is_rest_at, pause_at, unanswered_of};
ghost use Rattle.coretable.specs.Steps.{IsStep};
ghost use Rattle.coretable.specs.Weighed.{weight_of_active, weight_of_begun, weight_of_desk};
ghost use Rattle.coretable.specs.Turns.{AtAnswer, IsAt, Settles};

use crate::beginning::take_out;
use crate::settling::settle;
use crate::{Active, Desk, EntryKind, Hand, Held, Memory, Stage, Turn, Unanswered};
use convo::{AnsweredEvent, ConvoSet, Want};
use evring::{Advice, Answer, Kept};
use prio_budget::Charge;
use std::alloc::Global;

/// Tells the conversation the answer to its event.
fn tell_back<C: Charge>(
    active: &mut Active<Held<C>>,
    of: AnsweredEvent,
    advice: Advice,
    kept: Kept<C>,
) -> Result<Want<C>, Option<Kept<C>>>
    ensures turn { IfOk result (λ want. (t : Terms) (k : Talk) (e : EventMade) (n : ℕ) (frees : List FreeDone) → StandsFor (charge_by C.amount C.stamp) t active.old.talk k Still
        → IsAnswerTo (charge_by C.amount C.stamp) k.convo of advice frees kept e
        → IsWantOf (charge_by C.amount C.stamp) (StandsFor (charge_by C.amount C.stamp) t active.new.talk) t k (AnswerAct n advice frees) 0 want) }
    ensures rest { active.new ≡ record active.old { talk = active.new.talk } }
    ensures within { IfOk result (λ want. (limit : ℕ) → IsAskWithin limit want) }
    ensures weight { IfOk result (λ want. (w : C → ℕ) → weight_of_active w active.new + weight_of_want w want ≡ weight_of_active w active.old + weight_of_chunks w kept) }
    ensures err { IfErr result (λ back. (w : C → ℕ) → weight_of_active w active.new + weight_of_some w back ≡ weight_of_active w active.old + weight_of_chunks w kept) }
{
    active.talk.back(of, advice, kept)
}

/// Goes on with an answer.
pub(crate) fn go_on_returned<C: Charge>(
    set: &ConvoSet,
    desk: &mut Desk<Held<C>>,
    active: Active<Held<C>>,
    of: AnsweredEvent,
    advice: Advice,
    kept: Kept<C>,
) -> Result<(Stage<C, Held<C>>, Option<Turn<C>>), Hand<C>>
    ensures turn { (t : Terms) (last : ℕ) (handler : Handler) (m : Course) → IsSound t last handler m → SetsUp set.now t
        → AtAnswer (charge_by C.amount C.stamp) (StandsFor (charge_by C.amount C.stamp) t) t m desk.old active of advice kept
        → IfOk result (λ r. Settles (charge_by C.amount C.stamp) (StandsFor (charge_by C.amount C.stamp) t) t m desk.new r.0 r.1) }
    ensures step { IsStep (charge_by C.amount C.stamp) set.now.marks.limit desk.old desk.new (λ w. weight_of_active w active + weight_of_chunks w kept) result }
{
    let mut active = active;
    match tell_back(&mut active, of, advice, kept) {
        Ok(want) => settle(set, desk, active, want),
        Err(back) => Err(Hand::with_kept(active.talk, back)),
    }
}

/// The event that is answered next; then it waits no more.
fn pop_event<T: Drop>(desk: &mut Desk<T>) -> Option<Unanswered>
    ensures some { IfSome result (λ q. desk.old.unanswered.items ≡ q ∷ desk.new.unanswered.items) }
    ensures none { IfNone result (desk.old.unanswered.items ≡ []) }
    ensures rest { desk.new ≡ record desk.old { unanswered = desk.new.unanswered } }
{
    desk.unanswered.pop_front()
}

/// The number of the next answer.
fn next_answer<T: Drop>(desk: &Desk<T>) -> Option<u64>
    ensures { IfSome result (λ n. n ≡ suc desk.entry.now.answered) }
{
    desk.answered.checked_add(1)
}

/// Begins the entry of an answer, where none is under way and an event is unanswered.
pub fn begin_back<C: Charge>(
    alloc: Global,
    desk: &mut Desk<Held<C>>,
    answer: Answer<C>,
) -> Result<Stage<C, Held<C>>, Hand<C>>
    ensures turn { (t : Terms) (last : ℕ) (handler : Handler) (m : Course) (told : Told) → IsSound t last handler m → m.under ≡ None → Keeps (StandsFor (charge_by C.amount C.stamp) t) t m desk.old
        → slice_get (core_of t m).events (core_of t m).answered ≡ Some told → length answer.frees ≡ length (owed_for answer.advice told.event)
        → map (kept_for (charge_by C.amount C.stamp)) answer.kept ≡ back_with answer.advice told.event
        → IfOk result (λ stage. IsAt (charge_by C.amount C.stamp) (StandsFor (charge_by C.amount C.stamp) t) t (begun m (answer_line (core_of t m) told.conv answer.advice answer.frees)) desk.new stage) }
    ensures fits { IfOk result (λ stage. (pause_at stage ≡ pause.Still) × (is_rest_at stage ≡ false)) }
    ensures closing { is_closing desk.new.job ≡ is_closing desk.old.job }
    ensures unanswered { 1 ≤ unanswered_of desk.old → suc (unanswered_of desk.new) ≡ unanswered_of desk.old }
    ensures weight { (w : C → ℕ) → weight_of_desk w desk.new + weight_of_begun w result ≡ weight_of_desk w desk.old + weight_of_chunks w answer.kept }
{
    let Answer {
        advice,
        frees,
        kept,
        ..
    } = answer;
    let Some(waits) = pop_event(desk) else {
        return Err(Hand::of_kept(kept));
    };
    let Some(event) = next_answer(desk) else {
        return Err(Hand::of_kept(kept));
    };
    let Ok(taken) = take_out(desk, waits.place) else {
        return Err(Hand::of_kept(kept));
    };
    let active = Active {
        place: waits.place,
        number: taken.number,
        clock: taken.clock,
        kind: EntryKind::Answer { event, advice },
        looks: Vec::new(alloc),
        frees: frees.into_vec(),
        talk: taken.talk,
    };
    Ok(Stage::Returned {
        active,
        of: waits.of,
        advice,
        kept,
    })
}
