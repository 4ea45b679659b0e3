// A table goes on from where it is.
ghost use Rattle.std.specs.Prelude.{◌≡◌, ℕ, ◌+◌, IfOk, OnErr};
ghost use Rattle.streamdefs.specs.Terms.{Terms};
ghost use Rattle.streamdefs.specs.Lawful.{Handler};
ghost use Rattle.coretable.specs.Course.{Course};
ghost use Rattle.coretable.specs.Lawfully.{IsSound};
ghost use Rattle.flowdir.specs.Boundary.{charge_by};
ghost use Rattle.coretable.specs.Held.{StandsFor};
ghost use Rattle.convo.specs.Talk.{SetsUp};
ghost use Rattle.coretable.specs.declared.stage.Stage.TheVariants as stage_of;
ghost use Rattle.coretable.specs.Turns.{IsAt, Moves};
ghost use Rattle.coretable.specs.Fits.{Fits, IsLeft};
ghost use Rattle.coretable.specs.Steps.{IsStep};
ghost use Rattle.coretable.specs.Weighed.{weight_of_active, weight_of_desk, weight_of_stage, weight_of_step};

use crate::answering::{go_on_emitted, go_on_freed, go_on_told};
use crate::returning::go_on_returned;
use crate::turning::turn_rest;
use crate::{Active, Desk, Hand, Held, Stage, Turn};
use convo::ConvoSet;
use prio_budget::Charge;
use std::alloc::Global;

/// The same ask once more. An ask that no entry makes answers want of memory.
fn ask_again<C: Charge>(
    set: &ConvoSet,
    desk: &Desk<Held<C>>,
    active: Active<Held<C>>,
    bytes: u32,
    mark: u32,
) -> Result<(Stage<C, Held<C>>, Option<Turn<C>>), Hand<C>>
    ensures turn { (t : Terms) (m : Course) → IsAt (charge_by C.amount C.stamp) (StandsFor (charge_by C.amount C.stamp) t) t m desk.entry.now (stage_of.Again active bytes mark)
        → IfOk result (λ r. Moves (charge_by C.amount C.stamp) (StandsFor (charge_by C.amount C.stamp) t) t m desk.entry.now r.0 r.1) }
    ensures step { IsStep (charge_by C.amount C.stamp) set.now.marks.limit desk.entry.now desk.entry.now (λ w. weight_of_active w active) result }
{
    let _ = desk.answered;
    if bytes == 0 || mark > set.marks.limit() {
        return Err(Hand::of(active.talk));
    }
    Ok((
        Stage::Asked {
            active,
            bytes,
            mark,
        },
        Some(Turn::Ask { bytes, mark }),
    ))
}

/// Goes on by a step, or comes to a turn. Where an answer is awaited, it is to come first.
pub fn advance<C: Charge>(
    alloc: Global,
    set: &ConvoSet,
    desk: &mut Desk<Held<C>>,
    stage: Stage<C, Held<C>>,
) -> Result<(Stage<C, Held<C>>, Option<Turn<C>>), Hand<C>>
    ensures turn { (t : Terms) (last : ℕ) (handler : Handler) (m : Course) → SetsUp set.now t → IsSound t last handler m → IsAt (charge_by C.amount C.stamp) (StandsFor (charge_by C.amount C.stamp) t) t m desk.old stage
        → IfOk result (λ r. Moves (charge_by C.amount C.stamp) (StandsFor (charge_by C.amount C.stamp) t) t m desk.new r.0 r.1) }
    ensures fits { IfOk result (λ r. Fits (charge_by C.amount C.stamp) set.now.marks.limit desk.old desk.new r.0 r.1) }
    ensures left { OnErr result (IsLeft desk.old desk.new) }
    ensures weight { (w : C → ℕ) → weight_of_desk w desk.new + weight_of_step w result ≡ weight_of_desk w desk.old + weight_of_stage w stage }
{
    match stage {
        Stage::Rests => turn_rest(alloc, set, desk),
        Stage::Returned {
            active,
            of,
            advice,
            kept,
        } => go_on_returned(set, desk, active, of, advice, kept),
        Stage::Again {
            active,
            bytes,
            mark,
        } => ask_again(set, desk, active, bytes, mark),
        Stage::Told {
            active,
            look,
            granted,
        } => go_on_told(set, desk, active, look, granted),
        Stage::Freed { active, free } => go_on_freed(set, desk, active, free),
        Stage::Emitted { active } => go_on_emitted(set, desk, active),
        Stage::Asked { active, .. } => Err(Hand::of(active.talk)),
        Stage::Freeing { active, .. } => Err(Hand::of(active.talk)),
    }
}
