// The End that is owed begins.
ghost use Rattle.std.specs.Prelude.{◌≡◌, ℕ, None, Some, true, IfOk};
ghost use Rattle.streamdefs.specs.Terms.{Terms};
ghost use Rattle.streamdefs.specs.Lawful.{Handler};
ghost use Rattle.coretable.specs.Course.{Course, core_of, has_room};
ghost use Rattle.coretable.specs.Lawfully.{IsSound};
ghost use Rattle.flowdir.specs.Boundary.{charge_by};
ghost use Rattle.coretable.specs.Held.{StandsFor};
ghost use Rattle.convo.specs.Talk.{SetsUp};
ghost use Rattle.coretable.specs.Standing.{Keeps};
ghost use Rattle.coretable.specs.Steps.{IsStep, nothing};
ghost use Rattle.coretable.specs.Turns.{Moves};

use crate::beginning::begin_end;
use crate::{Desk, Hand, Held, Owed, Stage, Turn};
use convo::ConvoSet;
use prio_budget::Charge;
use std::alloc::Global;

/// Begins the End that the last entry made due, where there is room.
pub(crate) fn begin_owed<C: Charge>(
    alloc: Global,
    set: &ConvoSet,
    desk: &mut Desk<Held<C>>,
    owed: Owed,
) -> Result<(Stage<C, Held<C>>, Option<Turn<C>>), Hand<C>>
    ensures turn { (t : Terms) (last : ℕ) (handler : Handler) (m : Course) → SetsUp set.now t → IsSound t last handler m → m.under ≡ None → Keeps (StandsFor (charge_by C.amount C.stamp) t) t m desk.old
        → desk.old.owed ≡ Some owed → has_room (core_of t m) ≡ true
        → IfOk result (λ r. Moves (charge_by C.amount C.stamp) (StandsFor (charge_by C.amount C.stamp) t) t m desk.new r.0 r.1) }
    ensures step { IsStep (charge_by C.amount C.stamp) set.now.marks.limit desk.old desk.new nothing result }
{
    begin_end(alloc, set, desk, owed.place, owed.at, owed.reason)
}
