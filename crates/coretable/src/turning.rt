// What a table comes to next where no entry is under way.
ghost use Rattle.std.specs.Prelude.{◌≡◌, ℕ, None, Some, true, IfOk};
ghost use Rattle.streamdefs.specs.Terms.{Terms};
ghost use Rattle.streamdefs.specs.Lawful.{Handler};
ghost use Rattle.coretable.specs.Course.{Course, core_of, due_by};
ghost use Rattle.coretable.specs.Course.Job.{Closes};
ghost use Rattle.coretable.specs.Lawfully.{IsSound};
ghost use Rattle.flowdir.specs.Boundary.{charge_by};
ghost use Rattle.coretable.specs.Held.{StandsFor};
ghost use Rattle.convo.specs.Talk.{SetsUp};
ghost use Rattle.streamkey.specs.declared.packet.Packet.{Packet as PacketKept};
ghost use Rattle.coretable.specs.declared.job.Job.TheVariants as job;
ghost use Rattle.coretable.specs.Standing.{Keeps};
ghost use Rattle.coretable.specs.Fits.{is_closing};
ghost use Rattle.coretable.specs.Steps.{IsStep, nothing};
ghost use Rattle.coretable.specs.Turns.{Moves};
ghost use Rattle.coretable.specs.Falling.{IsDueThere};
ghost use Rattle.coretable.specs.Verdicts.{IsFirst};

use crate::ending::begin_owed;
use crate::falling_due::{begin_due, first_due};
use crate::finishing::{begin_first, find_live, look_from};
use crate::loading::begin_next;
use crate::resting::{fill, finish, is_full, rest};
use crate::{Desk, Hand, Held, Job, Owed, Stage, Turn};
use convo::ConvoSet;
use prio_budget::Charge;
use std::alloc::Global;

/// Where an End is owed.
pub(crate) fn turn_owed<C: Charge>(
    alloc: Global,
    set: &ConvoSet,
    desk: &mut Desk<Held<C>>,
    owed: Owed,
) -> Result<(Stage<C, Held<C>>, Option<Turn<C>>), Hand<C>>
    ensures turn { (t : Terms) (last : ℕ) (handler : Handler) (m : Course) → SetsUp set.now t → IsSound t last handler m → m.under ≡ None → Keeps (StandsFor (charge_by C.amount C.stamp) t) t m desk.old
        → desk.old.owed ≡ Some owed → IfOk result (λ r. Moves (charge_by C.amount C.stamp) (StandsFor (charge_by C.amount C.stamp) t) t m desk.new r.0 r.1) }
    ensures step { IsStep (charge_by C.amount C.stamp) set.now.marks.limit desk.old desk.new nothing result }
{
    if is_full(desk) {
        return Ok(fill(desk));
    }
    begin_owed(alloc, set, desk, owed)
}

/// Where what is due of a packet's core comes first, of the conversation at a place.
fn turn_due<C: Charge>(
    alloc: Global,
    set: &ConvoSet,
    desk: &mut Desk<Held<C>>,
    place: usize,
    now: u64,
) -> Result<(Stage<C, Held<C>>, Option<Turn<C>>), Hand<C>>
    ensures packet { (t : Terms) (last : ℕ) (handler : Handler) (m : Course) (p : PacketKept) → SetsUp set.now t → IsSound t last handler m → m.under ≡ None → Keeps (StandsFor (charge_by C.amount C.stamp) t) t m desk.old
        → desk.old.job ≡ job.Takes p → now ≡ p.now → (core_of t m).owed ≡ None → IsDueThere t (core_of t m) now place → IfOk result (λ r. Moves (charge_by C.amount C.stamp) (StandsFor (charge_by C.amount C.stamp) t) t m desk.new r.0 r.1) }
    ensures end { (t : Terms) (last : ℕ) (handler : Handler) (m : Course) → SetsUp set.now t → IsSound t last handler m → m.under ≡ None → Keeps (StandsFor (charge_by C.amount C.stamp) t) t m desk.old
        → m.job ≡ Closes now → (core_of t m).owed ≡ None → IsDueThere t (core_of t m) now place → IfOk result (λ r. Moves (charge_by C.amount C.stamp) (StandsFor (charge_by C.amount C.stamp) t) t m desk.new r.0 r.1) }
    ensures step { IsStep (charge_by C.amount C.stamp) set.now.marks.limit desk.old desk.new nothing result }
{
    if is_full(desk) {
        return Ok(fill(desk));
    }
    begin_due(alloc, set, desk, place)
}

/// Where nothing is due before a packet.
fn turn_next<C: Charge>(
    alloc: Global,
    set: &ConvoSet,
    desk: &mut Desk<Held<C>>,
    now: u64,
) -> Result<(Stage<C, Held<C>>, Option<Turn<C>>), Hand<C>>
    ensures turn { (t : Terms) (last : ℕ) (handler : Handler) (m : Course) (p : PacketKept) → SetsUp set.now t → IsSound t last handler m → m.under ≡ None → Keeps (StandsFor (charge_by C.amount C.stamp) t) t m desk.old
        → desk.old.job ≡ job.Takes p → now ≡ p.now → (core_of t m).owed ≡ None → due_by t (core_of t m) now ≡ None → IfOk result (λ r. Moves (charge_by C.amount C.stamp) (StandsFor (charge_by C.amount C.stamp) t) t m desk.new r.0 r.1) }
    ensures step { IsStep (charge_by C.amount C.stamp) set.now.marks.limit desk.old desk.new nothing result }
{
    if is_full(desk) {
        return Ok(fill(desk));
    }
    begin_next(alloc, set, desk, now)
}

/// Where a packet waits, whose clock is given, and no End is owed.
fn turn_packet<C: Charge>(
    alloc: Global,
    set: &ConvoSet,
    desk: &mut Desk<Held<C>>,
    now: u64,
) -> Result<(Stage<C, Held<C>>, Option<Turn<C>>), Hand<C>>
    ensures turn { (t : Terms) (last : ℕ) (handler : Handler) (m : Course) (p : PacketKept) → SetsUp set.now t → IsSound t last handler m → m.under ≡ None → Keeps (StandsFor (charge_by C.amount C.stamp) t) t m desk.old
        → desk.old.job ≡ job.Takes p → now ≡ p.now → (core_of t m).owed ≡ None → IfOk result (λ r. Moves (charge_by C.amount C.stamp) (StandsFor (charge_by C.amount C.stamp) t) t m desk.new r.0 r.1) }
    ensures step { IsStep (charge_by C.amount C.stamp) set.now.marks.limit desk.old desk.new nothing result }
{
    match first_due(desk, now) {
        Some(place) => turn_due(alloc, set, desk, place, now),
        None => turn_next(alloc, set, desk, now),
    }
}

/// At the end of the capture, where nothing is due and the first live conversation stands at a place.
fn turn_first<C: Charge>(
    alloc: Global,
    set: &ConvoSet,
    desk: &mut Desk<Held<C>>,
    place: usize,
    at: u64,
) -> Result<(Stage<C, Held<C>>, Option<Turn<C>>), Hand<C>>
    ensures turn { (t : Terms) (last : ℕ) (handler : Handler) (m : Course) → SetsUp set.now t → IsSound t last handler m → m.under ≡ None → Keeps (StandsFor (charge_by C.amount C.stamp) t) t m desk.old
        → (core_of t m).owed ≡ None → m.job ≡ Closes at → due_by t (core_of t m) at ≡ None → IsFirst (core_of t m) (Some place) → IfOk result (λ r. Moves (charge_by C.amount C.stamp) (StandsFor (charge_by C.amount C.stamp) t) t m desk.new r.0 r.1) }
    ensures step { is_closing desk.old.job ≡ true → IsStep (charge_by C.amount C.stamp) set.now.marks.limit desk.old desk.new nothing result }
{
    look_from(desk, place);
    if is_full(desk) {
        return Ok(fill(desk));
    }
    begin_first(alloc, set, desk, place, at)
}

/// At the end of the capture, where nothing is due.
fn turn_live<C: Charge>(
    alloc: Global,
    set: &ConvoSet,
    desk: &mut Desk<Held<C>>,
    at: u64,
) -> Result<(Stage<C, Held<C>>, Option<Turn<C>>), Hand<C>>
    ensures turn { (t : Terms) (last : ℕ) (handler : Handler) (m : Course) → SetsUp set.now t → IsSound t last handler m → m.under ≡ None → Keeps (StandsFor (charge_by C.amount C.stamp) t) t m desk.old
        → (core_of t m).owed ≡ None → m.job ≡ Closes at → due_by t (core_of t m) at ≡ None → IfOk result (λ r. Moves (charge_by C.amount C.stamp) (StandsFor (charge_by C.amount C.stamp) t) t m desk.new r.0 r.1) }
    ensures step { is_closing desk.old.job ≡ true → IsStep (charge_by C.amount C.stamp) set.now.marks.limit desk.old desk.new nothing result }
{
    match find_live(desk) {
        Ok(Some(place)) => turn_first(alloc, set, desk, place, at),
        Ok(None) => Ok(finish(desk)),
        Err(_) => Err(Hand::empty()),
    }
}

/// At the end of the capture, where no End is owed.
fn turn_closing<C: Charge>(
    alloc: Global,
    set: &ConvoSet,
    desk: &mut Desk<Held<C>>,
    at: u64,
) -> Result<(Stage<C, Held<C>>, Option<Turn<C>>), Hand<C>>
    ensures turn { (t : Terms) (last : ℕ) (handler : Handler) (m : Course) → SetsUp set.now t → IsSound t last handler m → m.under ≡ None → Keeps (StandsFor (charge_by C.amount C.stamp) t) t m desk.old
        → (core_of t m).owed ≡ None → m.job ≡ Closes at → IfOk result (λ r. Moves (charge_by C.amount C.stamp) (StandsFor (charge_by C.amount C.stamp) t) t m desk.new r.0 r.1) }
    ensures step { is_closing desk.old.job ≡ true → IsStep (charge_by C.amount C.stamp) set.now.marks.limit desk.old desk.new nothing result }
{
    match first_due(desk, at) {
        Some(place) => turn_due(alloc, set, desk, place, at),
        None => turn_live(alloc, set, desk, at),
    }
}

/// Where no End is owed.
fn turn_job<C: Charge>(
    alloc: Global,
    set: &ConvoSet,
    desk: &mut Desk<Held<C>>,
) -> Result<(Stage<C, Held<C>>, Option<Turn<C>>), Hand<C>>
    ensures turn { (t : Terms) (last : ℕ) (handler : Handler) (m : Course) → SetsUp set.now t → IsSound t last handler m → m.under ≡ None → Keeps (StandsFor (charge_by C.amount C.stamp) t) t m desk.old
        → (core_of t m).owed ≡ None → IfOk result (λ r. Moves (charge_by C.amount C.stamp) (StandsFor (charge_by C.amount C.stamp) t) t m desk.new r.0 r.1) }
    ensures step { IsStep (charge_by C.amount C.stamp) set.now.marks.limit desk.old desk.new nothing result }
{
    match &desk.job {
        Job::Nothing => Ok(rest(desk)),
        Job::Takes(packet) => {
            let now = packet.now;
            turn_packet(alloc, set, desk, now)
        }
        Job::Closes(at) => {
            let at = *at;
            turn_closing(alloc, set, desk, at)
        }
    }
}

/// Where no entry is under way.
pub(crate) fn turn_rest<C: Charge>(
    alloc: Global,
    set: &ConvoSet,
    desk: &mut Desk<Held<C>>,
) -> Result<(Stage<C, Held<C>>, Option<Turn<C>>), Hand<C>>
    ensures turn { (t : Terms) (last : ℕ) (handler : Handler) (m : Course) → SetsUp set.now t → IsSound t last handler m → m.under ≡ None → Keeps (StandsFor (charge_by C.amount C.stamp) t) t m desk.old
        → IfOk result (λ r. Moves (charge_by C.amount C.stamp) (StandsFor (charge_by C.amount C.stamp) t) t m desk.new r.0 r.1) }
    ensures step { IsStep (charge_by C.amount C.stamp) set.now.marks.limit desk.old desk.new nothing result }
{
    match desk.owed {
        Some(owed) => turn_owed(alloc, set, desk, owed),
        None => turn_job(alloc, set, desk),
    }
}
