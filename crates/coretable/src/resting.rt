// Where no entry is under way.
ghost use Rattle.std.specs.Prelude.{◌≡◌, ◌≤◌, ℕ, None, Ok, length, not, true, false};
ghost use Rattle.streamdefs.specs.Terms.{Terms};
ghost use Rattle.coretable.specs.Course.{Course, core_of, due_by, has_room, choice, first_live};
ghost use Rattle.coretable.specs.Course.Choice.{Begins};
ghost use Rattle.streamdefs.specs.Core.{Line};
ghost use Rattle.coretable.specs.Course.Job.{Nothing, Closes};
ghost use Rattle.flowdir.specs.Boundary.{charge_by};
ghost use Rattle.coretable.specs.Held.{StandsFor};
ghost use Rattle.coretable.specs.Standing.{Keeps};
ghost use Rattle.coretable.specs.Fits.{is_closing, unanswered_of};
ghost use Rattle.coretable.specs.Steps.{IsStep, nothing};
ghost use Rattle.coretable.specs.Turns.{Moves};

use crate::{Desk, Held, Stage, Turn};
use prio_budget::Charge;

/// So many events may be unanswered.
const MOST_UNANSWERED: usize = 256;

/// How many events are unanswered.
fn count_unanswered<T: Drop>(desk: &Desk<T>) -> usize
    ensures { result ≡ length desk.entry.now.unanswered.items }
{
    desk.unanswered.len()
}

/// Whether too many events are unanswered for an entry to begin.
pub(crate) fn is_full<C: Charge>(desk: &Desk<Held<C>>) -> bool
    ensures turn { (t : Terms) (m : Course) → m.under ≡ None → Keeps (StandsFor (charge_by C.amount C.stamp) t) t m desk.entry.now → (core_of t m).answered ≤ length (core_of t m).events → result ≡ not (has_room (core_of t m)) }
    ensures waits { result ≡ true → 1 ≤ unanswered_of desk.entry.now }
{
    count_unanswered(desk) >= MOST_UNANSWERED
}

/// The input is worked off.
pub(crate) fn rest<C: Charge>(desk: &Desk<Held<C>>) -> (Stage<C, Held<C>>, Option<Turn<C>>)
    ensures turn { (t : Terms) (m : Course) → m.under ≡ None → Keeps (StandsFor (charge_by C.amount C.stamp) t) t m desk.entry.now → (core_of t m).owed ≡ None → m.job ≡ Nothing
        → Moves (charge_by C.amount C.stamp) (StandsFor (charge_by C.amount C.stamp) t) t m desk.entry.now result.0 result.1 }
    ensures step { (limit : ℕ) → is_closing desk.entry.now.job ≡ false → IsStep (charge_by C.amount C.stamp) limit desk.entry.now desk.entry.now nothing (Ok result) }
{
    let _ = desk.answered;
    (Stage::Rests, Some(Turn::Ready))
}

/// The capture's end is worked off: over where each event is answered, else full.
pub(crate) fn finish<C: Charge>(desk: &Desk<Held<C>>) -> (Stage<C, Held<C>>, Option<Turn<C>>)
    ensures turn { (t : Terms) (m : Course) (at : ℕ) → m.under ≡ None → Keeps (StandsFor (charge_by C.amount C.stamp) t) t m desk.entry.now → (core_of t m).owed ≡ None → m.job ≡ Closes at → first_live (core_of t m).convos ≡ None → due_by t (core_of t m) at ≡ None
        → (core_of t m).answered ≤ length (core_of t m).events → Moves (charge_by C.amount C.stamp) (StandsFor (charge_by C.amount C.stamp) t) t m desk.entry.now result.0 result.1 }
    ensures step { (limit : ℕ) → is_closing desk.entry.now.job ≡ true → IsStep (charge_by C.amount C.stamp) limit desk.entry.now desk.entry.now nothing (Ok result) }
{
    if count_unanswered(desk) == 0 {
        (Stage::Rests, Some(Turn::Over))
    } else {
        (Stage::Rests, Some(Turn::Full))
    }
}

/// No entry begins: too many events are unanswered.
pub(crate) fn fill<C: Charge>(desk: &Desk<Held<C>>) -> (Stage<C, Held<C>>, Option<Turn<C>>)
    ensures turn { (t : Terms) (m : Course) (line : Line) → m.under ≡ None → Keeps (StandsFor (charge_by C.amount C.stamp) t) t m desk.entry.now → choice t (core_of t m) m.job ≡ Begins line → has_room (core_of t m) ≡ false
        → Moves (charge_by C.amount C.stamp) (StandsFor (charge_by C.amount C.stamp) t) t m desk.entry.now result.0 result.1 }
    ensures step { (limit : ℕ) → 1 ≤ unanswered_of desk.entry.now → IsStep (charge_by C.amount C.stamp) limit desk.entry.now desk.entry.now nothing (Ok result) }
{
    let _ = desk.answered;
    (Stage::Rests, Some(Turn::Full))
}
