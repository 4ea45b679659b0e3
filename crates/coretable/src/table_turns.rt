// A table goes on to its next turn.
ghost use Rattle.std.specs.Prelude.{◌≡◌, ◌≤◌, ℕ, ◌+◌, Some, None, true, false, IfOk, IsOk, OnOk, OnErr};
ghost use Rattle.streamdefs.specs.Terms.{Terms};
ghost use Rattle.streamdefs.specs.Lawful.{Handler};
ghost use Rattle.flowdir.specs.Boundary.{charge_by};
ghost use Rattle.convo.specs.Talk.{SetsUp};
ghost use Rattle.coretable.specs.Course.{Course};
ghost use Rattle.coretable.specs.Lawfully.{IsSound};
ghost use Rattle.coretable.specs.Held.{StandsFor};
ghost use Rattle.coretable.specs.Turns.{IsAt};
ghost use Rattle.coretable.specs.declared.state.State.TheVariants.{Works as WorksAt, Drains as DrainsAt};
ghost use Rattle.coretable.specs.declared.pause.Pause.TheVariants.{Still};
ghost use Rattle.coretable.specs.Fits.{IsAskWithin, IsDone, events_by, is_rest, pause_of};
ghost use Rattle.coretable.specs.Table.{Arrived, ComesTo, FallsInto, GoesBy, FindsNoMemory, IsDrained, OnlyDrains, Stands, TurnsTo, asks_by, Stepped, calm, closes, finishes, grants_left, is_empty, is_over, is_ready, limit, pause_in, paused, readies, rests, unanswered, weight};
ghost use Rattle.coretable.specs.Weighed.{weight_of_next, weight_of_turn};

use crate::advancing::advance;
use crate::draining::drain_turn;
use crate::{CoreTable, Memory, Stage, State, Turn};
use prio_budget::Charge;
use std::mem;

/// Takes the state out.
pub(crate) fn take_state<C: Charge, T: Drop>(at: &mut State<C, T>) -> State<C, T>
    ensures { result ≡ at.old }
{
    mem::replace(at, State::Works(Stage::Rests))
}

/// Puts a state in its place.
pub(crate) fn put_state<S: Drop>(at: &mut S, state: S)
    ensures { at.new ≡ state }
{
    *at = state;
}

/// The charge whose release a turn waits for: its bytes and its stamp.
fn freeing_of<C: Charge>(turn: &Turn<C>) -> Option<(u32, u32)>
    ensures { OnlyDrains turn.entry.now → pause_in result ≡ pause_of (charge_by C.amount C.stamp) turn.entry.now }
{
    match turn {
        Turn::Free(charge) => Some((charge.amount(), charge.stamp())),
        Turn::Ask { .. } | Turn::Emit(_) | Turn::Full | Turn::Ready | Turn::Over => None,
    }
}

/// Whether an input can be loaded behind a turn.
fn is_ready_turn<C: Charge>(turn: &Turn<C>) -> bool
    ensures { result ≡ readies turn.entry.now }
{
    match turn {
        Turn::Ready => true,
        Turn::Ask { .. } | Turn::Free(_) | Turn::Emit(_) | Turn::Full | Turn::Over => false,
    }
}

/// Whether it is the last one.
fn is_over_turn<C: Charge>(turn: &Turn<C>) -> bool
    ensures { result ≡ finishes turn.entry.now }
{
    match turn {
        Turn::Over => true,
        Turn::Ask { .. } | Turn::Free(_) | Turn::Emit(_) | Turn::Full | Turn::Ready => false,
    }
}

impl<C: Charge> CoreTable<C> {
    /// Goes on by a step.
    fn go_on(&mut self) -> Result<Option<Turn<C>>, Memory>
        requires calm { calm self.old ≡ true }
        ensures moves { (t : Terms) (last : ℕ) (handler : Handler) (m : Course) (stage : _) → SetsUp self.old.set t → IsSound t last handler m → self.old.state ≡ WorksAt stage
            → IsAt (charge_by C.amount C.stamp) (StandsFor (charge_by C.amount C.stamp) t) t m self.old.desk stage → IfOk result (Stepped (charge_by C.amount C.stamp) t m self.new) }
        ensures fits { IfOk result (GoesBy (charge_by C.amount C.stamp) self.old self.new) }
        ensures left { OnErr result (FallsInto self.old self.new) }
        ensures weight { IfOk result (λ turn. (w : C → ℕ) → weight w self.new + weight_of_next w turn ≡ weight w self.old) }
        ensures err { OnErr result ((w : C → ℕ) → weight w self.new ≡ weight w self.old) }
        ensures rest { self.new ≡ record self.old { desk = self.new.desk; state = self.new.state } }
    {
        match take_state(&mut self.state) {
            State::Works(stage) => match advance(self.alloc, &self.set, &mut self.desk, stage) {
                Ok((behind, turn)) => {
                    put_state(&mut self.state, State::Works(behind));
                    Ok(turn)
                }
                Err(hand) => {
                    put_state(
                        &mut self.state,
                        State::Drains {
                            hand,
                            freeing: None,
                        },
                    );
                    Err(Memory)
                }
            },
            State::Drains { .. } => Err(Memory),
        }
    }

    /// Goes on to a turn.
    fn next_working(&mut self) -> Result<Turn<C>, Memory>
        requires calm { calm self.old ≡ true }
        requires still { paused self.old ≡ Still }
        ensures comes { (t : Terms) (last : ℕ) (handler : Handler) (m : Course) → Stands (charge_by C.amount C.stamp) t last handler m self.old
            → IfOk result (Arrived (charge_by C.amount C.stamp) t m self.new) }
        ensures fits { IfOk result (λ turn. GoesBy (charge_by C.amount C.stamp) self.old self.new (Some turn)) }
        ensures left { OnErr result (FallsInto self.old self.new) }
        ensures weight { IfOk result (λ turn. (w : C → ℕ) → weight w self.new + weight_of_turn w turn ≡ weight w self.old) }
        ensures err { OnErr result ((w : C → ℕ) → weight w self.new ≡ weight w self.old) }
        ensures rest { self.new ≡ record self.old { desk = self.new.desk; state = self.new.state } }
    {
        for _ in 0..u64::MAX {
            if let Some(turn) = self.go_on()? {
                return Ok(turn);
            }
        }
        self.give_up();
        Err(Memory)
    }

    /// Notes what may come behind a turn.
    fn note(&mut self, turn: &Turn<C>)
        ensures { self.new ≡ record self.old { ready = readies turn.entry.now; over = finishes turn.entry.now } }
    {
        self.ready = is_ready_turn(turn);
        self.over = is_over_turn(turn);
    }

    /// Notes that nothing may come.
    fn note_none(&mut self)
        ensures { self.new ≡ record self.old { ready = false; over = false } }
    {
        self.ready = false;
        self.over = false;
    }

    /// An ask takes a grant, of which there are two for each byte that was loaded; more are not asked for.
    fn take_grant(&mut self, turn: &Turn<C>) -> Result<(), Memory>
        ensures rest { self.new ≡ record self.old { grants = self.new.grants } }
        ensures grants { OnOk result (self.new.grants + asks_by (pause_of (charge_by C.amount C.stamp) turn.entry.now) ≡ self.old.grants) }
        ensures err { OnErr result (self.new.grants ≡ self.old.grants) }
        ensures asks { OnErr result (asks_by (pause_of (charge_by C.amount C.stamp) turn.entry.now) ≡ 1) }
    {
        if let Turn::Ask { .. } = turn {
            if self.grants == 0 {
                return Err(Memory);
            }
            self.grants -= 1;
        }
        Ok(())
    }

    /// Comes to the next turn in drain mode.
    fn next_draining(&mut self) -> Turn<C>
        requires drains { calm self.old ≡ false }
        requires still { paused self.old ≡ Still }
        ensures calm { calm self.new ≡ false }
        ensures pause { paused self.new ≡ pause_of (charge_by C.amount C.stamp) result }
        ensures rests { rests self.new ≡ is_rest result }
        ensures drains { OnlyDrains result }
        ensures done { IsDone (closes self.new) (unanswered self.new) result }
        ensures empty { IsDrained result → (w : C → ℕ) → weight w self.new ≡ 0 }
        ensures closing { closes self.new ≡ closes self.old }
        ensures unanswered { unanswered self.new ≡ unanswered self.old }
        ensures weight { (w : C → ℕ) → weight w self.new + weight_of_turn w result ≡ weight w self.old }
        ensures rest { self.new ≡ record self.old { desk = self.new.desk; state = self.new.state } }
    {
        match &mut self.state {
            State::Drains { hand, freeing } => {
                let turn = drain_turn(&mut self.desk, hand);
                *freeing = freeing_of(&turn);
                turn
            }
            State::Works(_) => Turn::Full,
        }
    }

    /// Goes on to the next turn. In drain mode that is a charge, or what it waits for. Answered with want of memory, it is in
    /// drain mode.
    pub fn next(&mut self) -> Result<Turn<C>, Memory>
        requires still { paused self.old ≡ Still }
        ensures comes { (t : Terms) (last : ℕ) (handler : Handler) (m : Course) → Stands (charge_by C.amount C.stamp) t last handler m self.old
            → IfOk result (ComesTo (charge_by C.amount C.stamp) t last handler m self.new) }
        ensures turns { IfOk result (TurnsTo (charge_by C.amount C.stamp) self.old self.new) }
        ensures left { OnErr result (FindsNoMemory self.old self.new) }
        ensures drains { calm self.old ≡ false → IsOk result }
        ensures limits { limit self.new ≡ limit self.old }
        ensures spent { self.new.spent ≡ self.old.spent }
        ensures grants { grants_left self.new ≤ grants_left self.old }
        ensures weight { IfOk result (λ turn. (w : C → ℕ) → weight w self.new + weight_of_turn w turn ≡ weight w self.old) }
        ensures err { OnErr result ((w : C → ℕ) → weight w self.new ≡ weight w self.old) }
    {
        self.note_none();
        if !self.is_calm() {
            let turn = self.next_draining();
            self.note(&turn);
            return Ok(turn);
        }
        let turn = self.next_working()?;
        if self.take_grant(&turn).is_err() {
            self.give_up();
            return Err(Memory);
        }
        self.note(&turn);
        Ok(turn)
    }
}
