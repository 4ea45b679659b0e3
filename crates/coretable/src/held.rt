// A conversation, with what its next call needs.
ghost use Rattle.std.specs.Prelude.{◌≡◌, ℕ, suc, ◌+◌, [], List, Some, true, IfOk, IfErr, IfSome, IsNone, OnErr, not};
ghost use Rattle.histbook.specs.declared.look_entry.LookEntry.{LookEntry};
ghost use Rattle.prio_budget.specs.declared.free.Free.{Free};
ghost use Rattle.streamdefs.specs.Terms.{Terms};
ghost use Rattle.streamdefs.specs.Reorder.{Charge as ChargeMade};
ghost use Rattle.streamdefs.specs.View.{Ask as Request};
ghost use Rattle.streamdefs.specs.Convo.{Act, Event as EventMade, has_other_base, is_live, new_convo};
ghost use Rattle.streamdefs.specs.Totals.{total_of};
ghost use Rattle.streamdefs.specs.Convo.Act.{Seg as SegAct, Answer as AnswerAct, Time as TimeAct, End as EndAct};
ghost use Rattle.streamdefs.specs.Want.{want, with_look, with_free};
ghost use Rattle.streamdefs.specs.Want.Want.{Reserve, Release, Emit as EmitWanted};
ghost use Rattle.flowdir.specs.Boundary.{IsLookOf, charge_by, weight_of};
ghost use Rattle.convo.specs.Weights.{weight_of_want, weight_of_chunks};
ghost use Rattle.convo.specs.Talk.{Talk, SetsUp, IsAnswerTo, IsWantOf, asked_in, due_of, new_talk, talk_at};
ghost use Rattle.convo.specs.Talk.Phase.{Still, Under};
ghost use Rattle.convo.specs.Standing.{IsAskWithin, IsRest, weight_of_convo};
ghost use Rattle.convo.specs.Seen.{packet_of};
ghost use Rattle.coretable.specs.Held.{StandsFor, weight_of_some};
ghost use Rattle.coretable.specs.Summed.{dir_in};

use crate::Memory;
use convo::{AnsweredEvent, Convo, ConvoSet, DirTotal, Want, sums_are_those_of_the_history};
use evring::{Advice, Kept, Reason, Way};
use prio_budget::Charge;
use std::alloc::Global;
use std::marker::Model;
use streamkey::Packet;

/// The last moment, in nanoseconds.
const LAST_MOMENT: u64 = 4_611_686_018_427_387_904;

/// A conversation, seen as it is, with what its next call needs. A call out of its place, which a table doesn't make, answers
/// want of memory.
#[derive(Drop)]
pub struct Held<C: Charge> {
    talk: Convo<C>,
    /// No packet of its own has a higher number.
    last: u32,
    /// The bytes of the ask that waits.
    asked: Option<u32>,
    /// No charge of it goes back.
    gone: bool,
    /// No call has failed.
    works: bool,
}

impl<C: Charge> Model for Held<C> {
    ghost use Rattle.std.specs.Prelude.{◌≡◌, true};
    ghost use Rattle.convo.specs.declared.talk.Convo.{Convo};
    ghost use Rattle.coretable.specs.Held.{IsHeld};

    ghost Value = { Convo C };

    ghost view = { λ h. h.talk };

    ghost invariant = { λ h. h.works ≡ true → IsHeld h.last h.asked h.gone h.talk };
}

/// The bytes that a want asks for.
fn asked_by<C: Charge>(want: &Want<C>) -> Option<u32>
    ensures { result ≡ asked_in want.entry.now }
{
    match want {
        Want::Ask { bytes, .. } => Some(*bytes),
        Want::Free(_) | Want::Emit(_) | Want::Rest => None,
    }
}

/// Whether nothing more is wanted.
fn is_rest<C: Charge>(want: &Want<C>) -> bool
    ensures { result ≡ true → IsRest want.entry.now }
{
    match want {
        Want::Rest => true,
        Want::Ask { .. } | Want::Free(_) | Want::Emit(_) => false,
    }
}

/// Whether a charge is of the bytes that were asked for.
fn pays<C: Charge>(granted: &Option<C>, asked: Option<u32>) -> bool
    ensures { result ≡ true → IfSome granted.entry.now (λ charge. asked ≡ Some (C.amount charge)) }
{
    match granted {
        None => true,
        Some(charge) => asked == Some(charge.amount()),
    }
}

impl<C: Charge> Held<C> {
    /// Before its first entry, which is the first packet's.
    pub(crate) fn new(alloc: Global, set: &ConvoSet, first: &Packet) -> Self
        ensures stands { (t : Terms) → SetsUp set.now t → StandsFor (charge_by C.amount C.stamp) t result (new_talk (packet_of first.entry.now)) Still }
        ensures weight { (w : C → ℕ) → weight_of_convo w result ≡ 0 }
    {
        Held {
            talk: Convo::new(alloc, set, first),
            last: 0,
            asked: None,
            gone: true,
            works: true,
        }
    }

    /// A packet comes.
    pub(crate) fn take(&mut self, set: &ConvoSet, packet: &Packet) -> Result<Want<C>, Memory>
        ensures turn { IfOk result (λ want. (t : Terms) (k : Talk) → SetsUp set.now t → StandsFor (charge_by C.amount C.stamp) t self.old k Still
            → IsWantOf (charge_by C.amount C.stamp) (StandsFor (charge_by C.amount C.stamp) t self.new) t k (SegAct (packet_of packet.entry.now) packet.entry.now.now [] []) 0 want) }
        ensures within { IfOk result (IsAskWithin set.now.marks.limit) }
        ensures weight { IfOk result (λ want. (w : C → ℕ) → weight_of_convo w self.new + weight_of_want w want ≡ weight_of_convo w self.old) }
        ensures err { OnErr result ((w : C → ℕ) → weight_of_convo w self.new ≡ weight_of_convo w self.old) }
    {
        if !self.works || self.last >= packet.number {
            return Err(Memory);
        }
        self.works = false;
        let Ok(want) = self.talk.take(set, packet) else {
            return Err(Memory);
        };
        self.last = packet.number;
        self.asked = asked_by(&want);
        self.gone = is_rest(&want);
        self.works = true;
        Ok(want)
    }

    /// The ask is answered: granted by a charge, or refused. A charge that it doesn't take comes back.
    pub(crate) fn told(&mut self, set: &ConvoSet, granted: Option<C>) -> Result<Want<C>, Option<C>>
        ensures turn { IfOk result (λ w. (t : Terms) (k : Talk) (act : Act) (emitted : ℕ) (look : LookEntry) (request : Request) (mark : ℕ) → SetsUp set.now t
            → StandsFor (charge_by C.amount C.stamp) t self.old k (Under act emitted) → want t k.convo act emitted ≡ Reserve request mark → IsLookOf (charge_by C.amount C.stamp) granted look
            → IsWantOf (charge_by C.amount C.stamp) (StandsFor (charge_by C.amount C.stamp) t self.new) t k (with_look look act) emitted w) }
        ensures within { IfOk result (IsAskWithin set.now.marks.limit) }
        ensures weight { IfOk result (λ want. (w : C → ℕ) → weight_of_convo w self.new + weight_of_want w want ≡ weight_of_convo w self.old + weight_of w granted) }
        ensures err { IfErr result (λ back. (w : C → ℕ) → weight_of_convo w self.new + weight_of w back ≡ weight_of_convo w self.old + weight_of w granted) }
    {
        if !self.works || !pays(&granted, self.asked) {
            return Err(granted);
        }
        self.works = false;
        let Ok(want) = self.talk.told(set, granted) else {
            return Err(None);
        };
        self.asked = asked_by(&want);
        self.gone = is_rest(&want);
        self.works = true;
        Ok(want)
    }

    /// The charge was given back.
    pub(crate) fn freed(&mut self, set: &ConvoSet) -> Result<Want<C>, Memory>
        ensures turn { IfOk result (λ w. (t : Terms) (k : Talk) (act : Act) (emitted : ℕ) (free : Free) (charge : ChargeMade) → SetsUp set.now t
            → StandsFor (charge_by C.amount C.stamp) t self.old k (Under act emitted) → want t k.convo act emitted ≡ Release charge
            → IsWantOf (charge_by C.amount C.stamp) (StandsFor (charge_by C.amount C.stamp) t self.new) t k (with_free free act) emitted w) }
        ensures within { IfOk result (IsAskWithin set.now.marks.limit) }
        ensures weight { IfOk result (λ want. (w : C → ℕ) → weight_of_convo w self.new + weight_of_want w want ≡ weight_of_convo w self.old) }
        ensures err { OnErr result ((w : C → ℕ) → weight_of_convo w self.new ≡ weight_of_convo w self.old) }
    {
        if !self.works {
            return Err(Memory);
        }
        self.works = false;
        let Ok(want) = self.talk.freed(set) else {
            return Err(Memory);
        };
        self.asked = asked_by(&want);
        self.gone = is_rest(&want);
        self.works = true;
        Ok(want)
    }

    /// The event was handed over.
    pub(crate) fn emitted(&mut self, set: &ConvoSet) -> Result<Want<C>, Memory>
        ensures turn { IfOk result (λ w. (t : Terms) (k : Talk) (act : Act) (emitted : ℕ) (event : EventMade) → SetsUp set.now t
            → StandsFor (charge_by C.amount C.stamp) t self.old k (Under act emitted) → want t k.convo act emitted ≡ EmitWanted event
            → IsWantOf (charge_by C.amount C.stamp) (StandsFor (charge_by C.amount C.stamp) t self.new) t k act (suc emitted) w) }
        ensures within { IfOk result (IsAskWithin set.now.marks.limit) }
        ensures weight { IfOk result (λ want. (w : C → ℕ) → weight_of_convo w self.new + weight_of_want w want ≡ weight_of_convo w self.old) }
        ensures err { OnErr result ((w : C → ℕ) → weight_of_convo w self.new ≡ weight_of_convo w self.old) }
    {
        if !self.works {
            return Err(Memory);
        }
        self.works = false;
        let Ok(want) = self.talk.emitted(set) else {
            return Err(Memory);
        };
        self.asked = asked_by(&want);
        self.gone = is_rest(&want);
        self.works = true;
        Ok(want)
    }

    /// A hole or a flush falls due.
    pub(crate) fn time(&mut self, set: &ConvoSet, at: u64) -> Result<Want<C>, Memory>
        ensures turn { IfOk result (λ want. (t : Terms) (k : Talk) → SetsUp set.now t → StandsFor (charge_by C.amount C.stamp) t self.old k Still
            → IsWantOf (charge_by C.amount C.stamp) (StandsFor (charge_by C.amount C.stamp) t self.new) t k (TimeAct at [] []) 0 want) }
        ensures within { IfOk result (IsAskWithin set.now.marks.limit) }
        ensures weight { IfOk result (λ want. (w : C → ℕ) → weight_of_convo w self.new + weight_of_want w want ≡ weight_of_convo w self.old) }
        ensures err { OnErr result ((w : C → ℕ) → weight_of_convo w self.new ≡ weight_of_convo w self.old) }
    {
        if !self.works || at > LAST_MOMENT {
            return Err(Memory);
        }
        self.works = false;
        let Ok(want) = self.talk.time(set, at) else {
            return Err(Memory);
        };
        self.asked = asked_by(&want);
        self.gone = is_rest(&want);
        self.works = true;
        Ok(want)
    }

    /// It ends.
    pub(crate) fn end(&mut self, set: &ConvoSet, at: u64, reason: Reason) -> Result<Want<C>, Memory>
        ensures turn { IfOk result (λ want. (t : Terms) (k : Talk) → SetsUp set.now t → StandsFor (charge_by C.amount C.stamp) t self.old k Still
            → IsWantOf (charge_by C.amount C.stamp) (StandsFor (charge_by C.amount C.stamp) t self.new) t k (EndAct at reason [] []) 0 want) }
        ensures within { IfOk result (IsAskWithin set.now.marks.limit) }
        ensures weight { IfOk result (λ want. (w : C → ℕ) → weight_of_convo w self.new + weight_of_want w want ≡ weight_of_convo w self.old) }
        ensures err { OnErr result ((w : C → ℕ) → weight_of_convo w self.new ≡ weight_of_convo w self.old) }
    {
        if !self.works || at > LAST_MOMENT {
            return Err(Memory);
        }
        self.works = false;
        let Ok(want) = self.talk.end(set, at, reason) else {
            return Err(Memory);
        };
        self.asked = asked_by(&want);
        self.gone = is_rest(&want);
        self.works = true;
        Ok(want)
    }

    /// An answer comes back: advice on an event, and chunks. Chunks that it doesn't take come back.
    pub(crate) fn back(
        &mut self,
        of: AnsweredEvent,
        advice: Advice,
        kept: Kept<C>,
    ) -> Result<Want<C>, Option<Kept<C>>>
        ensures turn { IfOk result (λ want. (t : Terms) (k : Talk) (e : EventMade) (n : ℕ) (frees : List Free) → StandsFor (charge_by C.amount C.stamp) t self.old k Still
            → IsAnswerTo (charge_by C.amount C.stamp) k.convo of advice frees kept e
            → IsWantOf (charge_by C.amount C.stamp) (StandsFor (charge_by C.amount C.stamp) t self.new) t k (AnswerAct n advice frees) 0 want) }
        ensures within { IfOk result (λ want. (limit : ℕ) → IsAskWithin limit want) }
        ensures weight { IfOk result (λ want. (w : C → ℕ) → weight_of_convo w self.new + weight_of_want w want ≡ weight_of_convo w self.old + weight_of_chunks w kept) }
        ensures err { IfErr result (λ back. (w : C → ℕ) → weight_of_convo w self.new + weight_of_some w back ≡ weight_of_convo w self.old + weight_of_chunks w kept) }
    {
        if !self.works || !self.gone {
            return Err(Some(kept));
        }
        self.works = false;
        let Ok(want) = self.talk.back(of, advice, kept) else {
            return Err(None);
        };
        self.asked = asked_by(&want);
        self.gone = is_rest(&want);
        self.works = true;
        Ok(want)
    }

    /// When it falls due, and whether for its End of `idle`.
    pub(crate) fn due(&self, set: &ConvoSet) -> Option<(u64, bool)>
        ensures { (t : Terms) (k : Talk) → SetsUp set.now t → StandsFor (charge_by C.amount C.stamp) t self.now k Still → result ≡ due_of t k.convo }
    {
        self.talk.due(set)
    }

    /// The End that its last entry made due.
    pub(crate) fn ending(&self) -> Option<(Reason, u64)>
        ensures { (t : Terms) (k : Talk) → StandsFor (charge_by C.amount C.stamp) t self.now k Still → result ≡ k.owed }
    {
        self.talk.ending()
    }

    /// What became of the bytes of a direction.
    pub(crate) fn total(&self, way: Way) -> DirTotal
        ensures { (t : Terms) (k : Talk) (acts : List Act) → StandsFor (charge_by C.amount C.stamp) t self.now k Still → k.sums ≡ (talk_at t (new_talk k.convo.first) acts).sums
            → result ≡ dir_in k.convo.first.number way (total_of t (new_convo k.convo.first) way acts) }
    {
        sums_are_those_of_the_history();
        self.talk.total(way)
    }

    pub(crate) fn is_ended(&self) -> bool
        ensures { (t : Terms) (k : Talk) → StandsFor (charge_by C.amount C.stamp) t self.now k Still → result ≡ not (is_live k.convo) }
    {
        self.talk.is_ended()
    }

    /// Whether a packet belongs to a new conversation.
    pub(crate) fn replaces(&self, packet: &Packet) -> bool
        ensures { (t : Terms) (k : Talk) → StandsFor (charge_by C.amount C.stamp) t self.now k Still → result ≡ has_other_base k.convo (packet_of packet.entry.now) }
    {
        self.talk.replaces(packet)
    }

    /// One of its charges. Behind it only this may be called.
    pub(crate) fn drain(&mut self) -> Option<C>
        ensures weight { (w : C → ℕ) → weight_of_convo w self.new + weight_of w result ≡ weight_of_convo w self.old }
        ensures none { IsNone result → (w : C → ℕ) → weight_of_convo w self.old ≡ 0 }
    {
        self.works = false;
        self.talk.drain()
    }
}
