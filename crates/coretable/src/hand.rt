ghost use Rattle.std.specs.Prelude.{◌≡◌, ℕ, ◌+◌, None, true, false, IsNone};
ghost use Rattle.flowdir.specs.Boundary.{weight_of};
ghost use Rattle.convo.specs.Standing.{weight_of_convo};
ghost use Rattle.convo.specs.Weights.{weight_of_chunks, weight_of_event};
ghost use Rattle.coretable.specs.Held.{weight_of_some};
ghost use Rattle.coretable.specs.Table.{is_empty};
ghost use Rattle.coretable.specs.Weighed.{weight_of_hand, weight_of_stage, weight_of_talk};

use crate::{Held, Stage};
use chunkpart::Chunk;
use convo::{drain_chunk, drain_chunks};
use evring::{Event, Kept};
use prio_budget::Charge;

/// What was in hand where a step found no memory, to be given out: a conversation, a charge, and chunks.
#[derive(Drop)]
pub struct Hand<C: Charge> {
    pub talk: Option<Held<C>>,
    pub charge: Option<C>,
    pub kept: Option<Kept<C>>,
    pub chunk: Option<Chunk<C>>,
}

impl<C: Charge> Hand<C> {
    /// Nothing.
    pub(crate) fn empty() -> Self
        ensures { (w : C → ℕ) → weight_of_hand w result ≡ 0 }
    {
        Hand {
            talk: None,
            charge: None,
            kept: None,
            chunk: None,
        }
    }

    /// A conversation.
    pub(crate) fn of(talk: Held<C>) -> Self
        ensures full { is_empty result ≡ false }
        ensures weight { (w : C → ℕ) → weight_of_hand w result ≡ weight_of_convo w talk }
    {
        Hand {
            talk: Some(talk),
            charge: None,
            kept: None,
            chunk: None,
        }
    }

    /// A conversation, and a charge where there is one.
    pub(crate) fn with_charge(talk: Held<C>, charge: Option<C>) -> Self
        ensures { (w : C → ℕ) → weight_of_hand w result ≡ weight_of_convo w talk + weight_of w charge }
    {
        Hand {
            talk: Some(talk),
            charge,
            kept: None,
            chunk: None,
        }
    }

    /// A conversation, and chunks where there are some.
    pub(crate) fn with_kept(talk: Held<C>, kept: Option<Kept<C>>) -> Self
        ensures { (w : C → ℕ) → weight_of_hand w result ≡ weight_of_convo w talk + weight_of_some w kept }
    {
        Hand {
            talk: Some(talk),
            charge: None,
            kept,
            chunk: None,
        }
    }

    /// Chunks.
    pub(crate) fn of_kept(kept: Kept<C>) -> Self
        ensures { (w : C → ℕ) → weight_of_hand w result ≡ weight_of_chunks w kept }
    {
        Hand {
            talk: None,
            charge: None,
            kept: Some(kept),
            chunk: None,
        }
    }

    /// A conversation, and the chunks of an event.
    pub(crate) fn with_event(talk: Held<C>, event: Event<C>) -> Self
        ensures { (w : C → ℕ) → weight_of_hand w result ≡ weight_of_convo w talk + weight_of_event w event }
    {
        match event {
            Event::Chunk { kept, chunk, .. } => Hand {
                talk: Some(talk),
                charge: None,
                kept: Some(kept),
                chunk: Some(chunk),
            },
            Event::New { .. } | Event::Ended { .. } => Hand::of(talk),
        }
    }

    /// What a stage has in hand.
    pub(crate) fn of_stage(stage: Stage<C, Held<C>>) -> Self
        ensures weight { (w : C → ℕ) → weight_of_hand w result ≡ weight_of_stage w stage }
    {
        match stage {
            Stage::Rests => Hand::empty(),
            Stage::Returned { active, kept, .. } => Hand::with_kept(active.talk, Some(kept)),
            Stage::Asked { active, .. } => Hand::of(active.talk),
            Stage::Again { active, .. } => Hand::of(active.talk),
            Stage::Told {
                active,
                granted,
                ..
            } => Hand::with_charge(active.talk, granted),
            Stage::Freeing { active, .. } => Hand::of(active.talk),
            Stage::Freed { active, .. } => Hand::of(active.talk),
            Stage::Emitted { active } => Hand::of(active.talk),
        }
    }

    pub(crate) fn is_empty(&self) -> bool
        ensures { result ≡ is_empty self.now }
    {
        self.talk.is_none() && self.charge.is_none() && self.kept.is_none() && self.chunk.is_none()
    }

    /// One of the charges.
    pub(crate) fn drain(&mut self) -> Option<C>
        ensures weight { (w : C → ℕ) → weight_of_hand w self.new + weight_of w result ≡ weight_of_hand w self.old }
        ensures none { IsNone result → is_empty self.new ≡ true }
    {
        if let Some(charge) = self.charge.take() {
            return Some(charge);
        }
        if let Some(charge) = drain_chunk(&mut self.chunk) {
            return Some(charge);
        }
        clear(&mut self.chunk);
        if let Some(charge) = drain_kept(&mut self.kept) {
            return Some(charge);
        }
        drain_talk(&mut self.talk)
    }
}

/// Nothing is there.
fn clear<T: Drop>(at: &mut Option<T>)
    ensures { at.new ≡ None }
{
    *at = None;
}

/// One of the charges of chunks. Without one, they are let go.
fn drain_kept<C: Charge>(kept: &mut Option<Kept<C>>) -> Option<C>
    ensures weight { (w : C → ℕ) → weight_of_some w kept.new + weight_of w result ≡ weight_of_some w kept.old }
    ensures none { IsNone result → kept.new ≡ None }
{
    let mut chunks = kept.take()?.into_vec();
    let charge = drain_chunks(&mut chunks)?;
    *kept = Some(Kept::of(chunks));
    Some(charge)
}

/// One of the charges of a conversation. Without one, it is let go.
pub(crate) fn drain_talk<C: Charge>(talk: &mut Option<Held<C>>) -> Option<C>
    ensures weight { (w : C → ℕ) → weight_of_talk w talk.new + weight_of w result ≡ weight_of_talk w talk.old }
    ensures none { IsNone result → talk.new ≡ None }
{
    if let Some(held) = talk {
        if let Some(charge) = held.drain() {
            return Some(charge);
        }
    }
    clear(talk);
    None
}
