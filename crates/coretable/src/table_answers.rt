// A table is given inputs, answers to its asks, releases, and answers to its events.
ghost use Rattle.std.specs.Prelude.{◌≡◌, ◌≤◌, ◌<◌, ◌*◌, ℕ, suc, ◌+◌, Some, None, true, false, not, map, length, slice_get, IsOk, OnOk, OnErr};
ghost use Rattle.streamdefs.specs.Terms.{Terms};
ghost use Rattle.streamdefs.specs.Lawful.{Handler};
ghost use Rattle.streamdefs.specs.Core.{Told};
ghost use Rattle.streamkey.specs.declared.packet.Packet.{Packet as PacketKept};
ghost use Rattle.streamkey.specs.declared.input.Input.TheVariants as input_of;
ghost use Rattle.flowdir.specs.Boundary.{charge_by};
ghost use Rattle.convo.specs.Seen.{kept_for, packet_of};
ghost use Rattle.convo.specs.Talk.{back_with, owed_for};
ghost use Rattle.convo.specs.Weights.{weight_of_chunks};
ghost use Rattle.coretable.specs.Course.{Course, answer_line, begun, closing, core_of, freed, loaded};
ghost use Rattle.coretable.specs.Lawfully.{IsStated};
ghost use Rattle.coretable.specs.declared.pause.Pause.TheVariants.{Still};
ghost use Rattle.coretable.specs.Held.{StandsFor};
ghost use Rattle.coretable.specs.Lawfully.{IsSound};
ghost use Rattle.coretable.specs.Standing.{Keeps};
ghost use Rattle.coretable.specs.Table.{IsAtState, IsReleasedAt, is_finish, IsAwaited, Stands, calm, closes, grants_in, grants_left, granted_weight, is_ready, is_spent, limit, look_of, pause_given_up, paused, payload_of, rests, spent_by, told_course, unanswered, under_way, weight};

use crate::deciding::{decide, drop_event, given_up, held_back, released};
use crate::loading::{load, load_end};
use crate::returning::begin_back;
use crate::table_turns::{put_state, take_state};
use crate::{CoreTable, Memory, State};
use evring::Answer;
use prio_budget::{Answered, Charge, Free};
use streamkey::Input;

impl<C: Charge> CoreTable<C> {
    /// Loads an input. In drain mode a packet is dropped at the next turn.
    pub fn load(&mut self, input: Input)
        requires still { paused self.old ≡ Still }
        requires ready { is_ready self.old ≡ true }
        ensures packet { (t : Terms) (last : ℕ) (handler : Handler) (m : Course) (p : PacketKept) → input ≡ input_of.Packet p → Stands (charge_by C.amount C.stamp) t last handler m self.old
            → m.number < p.number → m.clock ≤ p.now → Stands (charge_by C.amount C.stamp) t last handler (loaded m (packet_of p)) self.new }
        ensures end { (t : Terms) (last : ℕ) (handler : Handler) (m : Course) (now : ℕ) → input ≡ input_of.Finish now → Stands (charge_by C.amount C.stamp) t last handler m self.old
            → now ≡ last → m.clock ≤ now → Stands (charge_by C.amount C.stamp) t last handler (closing m now) self.new }
        ensures ready { is_ready self.new ≡ false }
        ensures closes { closes self.new ≡ is_finish input }
        ensures rest { self.new ≡ record self.old { desk = self.new.desk; ready = false; over = false; grants = self.new.grants } }
        ensures unanswered { unanswered self.new ≡ unanswered self.old }
        ensures grants { grants_left self.new ≤ grants_left self.old + 2 * payload_of input }
        ensures weight { (w : C → ℕ) → weight w self.new ≡ weight w self.old }
    {
        self.ready = false;
        self.over = false;
        match input {
            Input::Packet(packet) => {
                let bytes = packet.payload.as_slice().len() as u64;
                self.grants = self.grants.saturating_add(bytes.saturating_mul(2));
                load(&mut self.desk, packet);
            }
            Input::Finish { now } => load_end(&mut self.desk, now),
        }
    }

    /// The ask is answered. Behind `Moved` the same ask comes again; behind `Spent` the table is in drain mode.
    pub fn told(&mut self, answered: Answered<C>)
        requires awaited { IsAwaited (charge_by C.amount C.stamp) (paused self.old) answered }
        ensures stands { (t : Terms) (last : ℕ) (handler : Handler) (m : Course) → is_spent answered ≡ false → Stands (charge_by C.amount C.stamp) t last handler m self.old
            → Stands (charge_by C.amount C.stamp) t last handler (told_course (look_of (paused self.old) answered) m) self.new }
        ensures pause { paused self.new ≡ Still }
        ensures rests { rests self.new ≡ false }
        ensures calm { calm self.new ≡ not (is_spent answered) }
        ensures spent { self.new.spent ≡ spent_by self.old.spent answered }
        ensures rest { self.new ≡ record self.old { state = self.new.state; ready = false; over = false; grants = self.new.grants; spent = self.new.spent } }
        ensures grants { grants_left self.new + grants_in answered ≤ grants_left self.old }
        ensures weight { (w : C → ℕ) → weight w self.new ≡ weight w self.old + granted_weight w answered }
    {
        self.ready = false;
        self.over = false;
        self.grants = self.grants.saturating_add(unused(&answered));
        self.spent = spent_with(self.spent, &answered);
        let state = decide(&self.desk, take_state(&mut self.state), answered);
        put_state(&mut self.state, state);
    }

    /// The charge was given back.
    pub fn freed(&mut self, free: Free)
        requires released { IsReleasedAt (paused self.old) free.bytes free.stamp }
        ensures stands { (t : Terms) (last : ℕ) (handler : Handler) (m : Course) → Stands (charge_by C.amount C.stamp) t last handler m self.old
            → Stands (charge_by C.amount C.stamp) t last handler (under_way (λ m u. freed m u free) m) self.new }
        ensures pause { paused self.new ≡ Still }
        ensures calm { calm self.new ≡ calm self.old }
        ensures rests { calm self.old ≡ true → rests self.new ≡ false }
        ensures rest { self.new ≡ record self.old { state = self.new.state; ready = false; over = false } }
        ensures weight { (w : C → ℕ) → weight w self.new ≡ weight w self.old }
    {
        self.ready = false;
        self.over = false;
        let state = released(&self.desk, take_state(&mut self.state), free);
        put_state(&mut self.state, state);
    }

    /// The answer to the event that has waited longest. It is taken also where there is no memory.
    pub fn back(&mut self, answer: Answer<C>) -> Result<(), Memory>
        requires still { paused self.old ≡ Still }
        requires rests { rests self.old ≡ true }
        requires waits { 1 ≤ unanswered self.old }
        ensures stands { (t : Terms) (last : ℕ) (handler : Handler) (m : Course) (told : Told) → Stands (charge_by C.amount C.stamp) t last handler m self.old
            → IsStated t handler (core_of t m) told answer.advice answer.frees → length answer.frees ≡ length (owed_for answer.advice told.event)
            → map (kept_for (charge_by C.amount C.stamp)) answer.kept ≡ back_with answer.advice told.event
            → OnOk result (Stands (charge_by C.amount C.stamp) t last handler (begun m (answer_line (core_of t m) told.conv answer.advice answer.frees)) self.new) }
        ensures pause { paused self.new ≡ Still }
        ensures ready { is_ready self.new ≡ false }
        ensures calm { OnOk result (calm self.new ≡ calm self.old) }
        ensures err { OnErr result (calm self.new ≡ false) }
        ensures drains { calm self.old ≡ false → IsOk result }
        ensures unanswered { suc (unanswered self.new) ≡ unanswered self.old }
        ensures closes { closes self.new ≡ closes self.old }
        ensures rest { self.new ≡ record self.old { desk = self.new.desk; state = self.new.state; ready = false; over = false } }
        ensures weight { (w : C → ℕ) → weight w self.new ≡ weight w self.old + weight_of_chunks w answer.kept }
    {
        self.ready = false;
        self.over = false;
        if self.is_calm() {
            return self.begin_answer(answer);
        }
        drop_event(&mut self.desk);
        let state = held_back(take_state(&mut self.state), answer.kept);
        put_state(&mut self.state, state);
        Ok(())
    }

    /// Begins the entry of an answer.
    fn begin_answer(&mut self, answer: Answer<C>) -> Result<(), Memory>
        requires calm { calm self.old ≡ true }
        requires rests { rests self.old ≡ true }
        requires waits { 1 ≤ unanswered self.old }
        ensures stands { (t : Terms) (last : ℕ) (handler : Handler) (m : Course) (told : Told) → IsSound t last handler m → m.under ≡ None
            → Keeps (StandsFor (charge_by C.amount C.stamp) t) t m self.old.desk
            → slice_get (core_of t m).events (core_of t m).answered ≡ Some told → length answer.frees ≡ length (owed_for answer.advice told.event)
            → map (kept_for (charge_by C.amount C.stamp)) answer.kept ≡ back_with answer.advice told.event
            → OnOk result (IsAtState (charge_by C.amount C.stamp) t (begun m (answer_line (core_of t m) told.conv answer.advice answer.frees)) self.new.desk self.new.state) }
        ensures pause { paused self.new ≡ Still }
        ensures calm { OnOk result (calm self.new ≡ true) }
        ensures err { OnErr result (calm self.new ≡ false) }
        ensures unanswered { suc (unanswered self.new) ≡ unanswered self.old }
        ensures closes { closes self.new ≡ closes self.old }
        ensures rest { self.new ≡ record self.old { desk = self.new.desk; state = self.new.state } }
        ensures weight { (w : C → ℕ) → weight w self.new ≡ weight w self.old + weight_of_chunks w answer.kept }
    {
        match begin_back(self.alloc, &mut self.desk, answer) {
            Ok(stage) => {
                put_state(&mut self.state, State::Works(stage));
                Ok(())
            }
            Err(hand) => {
                put_state(
                    &mut self.state,
                    State::Drains {
                        hand,
                        freeing: None,
                    },
                );
                Err(Memory)
            }
        }
    }

    /// Goes into drain mode, as for want of memory. An ask that waits is void; a release that waits is still to be heard of.
    pub fn give_up(&mut self)
        ensures calm { calm self.new ≡ false }
        ensures pause { paused self.new ≡ pause_given_up (paused self.old) }
        ensures rest { self.new ≡ record self.old { state = self.new.state } }
        ensures weight { (w : C → ℕ) → weight w self.new ≡ weight w self.old }
    {
        let state = given_up(take_state(&mut self.state));
        put_state(&mut self.state, state);
    }
}

/// One where an answer takes no grant.
fn unused<C>(answered: &Answered<C>) -> u64
    ensures { result + grants_in answered.entry.now ≡ 1 }
{
    match answered {
        Answered::Granted { .. } => 0,
        Answered::Past { .. } | Answered::Spent { .. } | Answered::Moved { .. } => 1,
    }
}

/// The stamp at which the budget was used up.
fn spent_with<C>(before: Option<u32>, answered: &Answered<C>) -> Option<u32>
    ensures { result ≡ spent_by before answered.entry.now }
{
    match answered {
        Answered::Spent { look } => Some(look.stamp),
        Answered::Granted { .. } | Answered::Past { .. } | Answered::Moved { .. } => before,
    }
}
