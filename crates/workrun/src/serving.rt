ghost use Rattle.std.specs.Prelude.{◌≡◌, ◌-◌, ◌<◌, ◌≤◌, ◌++◌, ◌∷◌, [], length, flat_map, IfOk, IfErr, OnOk, OnErr, IsOk, true, false, vec_len, ℕ, None, Ok, Err, not};
ghost use Rattle.std.specs.Vec.{vec_capacity};
ghost use Rattle.scap_world.specs.Contents.{GainsPart};
ghost use Rattle.chunkpart.specs.ChunkParts.{copied_bytes, shown_bytes};
ghost use Rattle.evring.specs.Advice.{no_advice};
ghost use Rattle.evring.specs.Charges.{charges_in, charges_of, charges_of_all};
ghost use Rattle.streamdefs.specs.Convo.Seen.{Data};
ghost use Rattle.streamdefs.specs.Handler.{event_line};
ghost use Rattle.handler.specs.Seen.{conv_of, seen_in};
ghost use Rattle.workrun.specs.InWork.{places_of};
ghost use Rattle.workrun.specs.Outgoing.{charges_left};
ghost use Rattle.workrun.specs.AtWork.{Hand, kept_for, stated_of, taken, with_advice};
ghost use Rattle.workrun.specs.Telling.{HasCause, IsTold};
ghost use Rattle.workrun.specs.Steps.{IsOut, IsReleasing, Served, Stayed, Turned, Worked};

use crate::outgoing::Outgoing;
use crate::release::Release;
use crate::scribe::Scribe;
use crate::work::Work;
use crate::{WorkFault, WorkTurn, Worker};
use chunkpart::Chunk;
use evring::{Advice, Answer, Event, Frees, Kept, Way};
use handler::Handler;
use prio_budget::{Charge, Free};
use scap_world::Sink;
use streamkey::Key;

impl<H: Handler, K: Sink, C: Charge> Worker<H, K, C> {
    /// The first turn for an event.
    pub(crate) fn begin(&mut self, core: u16, event: Event<C>) -> Result<WorkTurn<C>, WorkFault>
        requires empty { self.old.work ≡ Work.Nothing }
        ensures served { self.old.calm ≡ true → IfOk result (Served C.amount C.stamp H.advice K.held self.old.scribe self.new.scribe core event self.new.work) }
        ensures front { OnErr result (GainsPart (K.held self.old.scribe.sink) (K.held self.new.scribe.sink) (event_line (conv_of event) (seen_in event))) }
        ensures turned { IfOk result (Turned C.amount C.stamp core [] (charges_in event) self.old.calm self.new.work) }
        ensures stayed { OnErr result (Stayed core [] (charges_in event) self.new.work) }
        ensures calm { OnOk result (self.new.calm ≡ self.old.calm) }
        ensures fault { OnErr result (self.new.calm ≡ false) }
        ensures drains { self.old.calm ≡ false → IsOk result × (self.new.scribe ≡ self.old.scribe) }
        ensures same { (self.new.scribe.handler ≡ self.old.scribe.handler) × (self.new.circle ≡ self.old.circle) }
        ensures cause { HasCause (K.faults self.old.scribe.sink) (K.faults self.new.scribe.sink) result }
    {
        if !self.calm {
            return Ok(self.go_on(Release::untold(self.alloc, core, event)));
        }
        match event {
            Event::New {
                conv,
                proto,
                source,
                target,
            } => {
                let told = self.scribe.tell_new(core, conv, proto, source, target);
                let event = Event::New {
                    conv,
                    proto,
                    source,
                    target,
                };
                self.close(core, event, told)
            }
            Event::Chunk {
                conv,
                way,
                key,
                kept,
                chunk,
            } => self.begin_chunk(core, conv, way, key, kept.into_vec(), chunk),
            Event::Ended { conv, reason } => {
                let told = self.scribe.tell_end(core, conv, reason);
                self.close(core, Event::Ended { conv, reason }, told)
            }
        }
    }

    /// The answer to an event without chunks that was told.
    fn close(
        &mut self,
        core: u16,
        event: Event<C>,
        told: Result<Advice, WorkFault>,
    ) -> Result<WorkTurn<C>, WorkFault>
        requires empty { self.old.work ≡ Work.Nothing }
        requires bare { charges_in event ≡ [] }
        requires calm { self.old.calm ≡ true }
        ensures answer { IfOk told (λ advice. result ≡ Ok (WorkTurn.Answer core (record { advice = advice; frees = []; kept = []; drained = false }))) }
        ensures done { OnOk told ((self.new.work ≡ Work.Nothing) × (self.new.calm ≡ true)) }
        ensures err { IfErr told (λ fault. result ≡ Err fault) }
        ensures stays { OnErr told ((self.new.work ≡ Work.Loaded core event) × (self.new.calm ≡ false)) }
        ensures same { (self.new.scribe ≡ self.old.scribe) × (self.new.circle ≡ self.old.circle) }
    {
        match told {
            Ok(advice) => {
                let none = Vec::new(self.alloc);
                Ok(answer_of(true, core, advice, none, Vec::new(self.alloc)))
            }
            Err(fault) => {
                self.stay(core, event);
                Err(fault)
            }
        }
    }

    /// At a fault the event stays in hand.
    fn stay(&mut self, core: u16, event: Event<C>)
        ensures { (self.new.work ≡ Work.Loaded core event) × (self.new.calm ≡ false) × (self.new.scribe ≡ self.old.scribe) × (self.new.circle ≡ self.old.circle) }
    {
        self.calm = false;
        self.work = Work::Loaded { core, event };
    }

    /// The first turn for a chunk, with the chunks that ride with it.
    fn begin_chunk(
        &mut self,
        core: u16,
        conv: u32,
        way: Way,
        key: Key,
        mut kept: Vec<Chunk<C>>,
        chunk: Chunk<C>,
    ) -> Result<WorkTurn<C>, WorkFault>
        requires empty { self.old.work ≡ Work.Nothing }
        requires calm { self.old.calm ≡ true }
        ensures served { IfOk result (Served C.amount C.stamp H.advice K.held self.old.scribe self.new.scribe core (Event.Chunk conv way key kept.items chunk) self.new.work) }
        ensures front { OnErr result (GainsPart (K.held self.old.scribe.sink) (K.held self.new.scribe.sink) (event_line conv (seen_in (Event.Chunk conv way key kept.items chunk)))) }
        ensures turned { IfOk result (Turned C.amount C.stamp core [] (charges_in (Event.Chunk conv way key kept.items chunk)) true self.new.work) }
        ensures stayed { OnErr result (Stayed core [] (charges_in (Event.Chunk conv way key kept.items chunk)) self.new.work) }
        ensures calm { OnOk result (self.new.calm ≡ true) }
        ensures fault { OnErr result (self.new.calm ≡ false) }
        ensures same { (self.new.scribe.handler ≡ self.old.scribe.handler) × (self.new.circle ≡ self.old.circle) }
        ensures cause { HasCause (K.faults self.old.scribe.sink) (K.faults self.new.scribe.sink) result }
    {
        let mut frees = Vec::new(self.alloc);
        match tell_chunk(
            &mut self.scribe,
            core,
            conv,
            way,
            &key,
            &mut frees,
            &mut kept,
            &chunk,
        ) {
            Ok(advice) => Ok(self.heed(core, advice, frees, kept, chunk)),
            Err(fault) => {
                let event = Event::Chunk {
                    conv,
                    way,
                    key,
                    kept: Kept::of(kept),
                    chunk,
                };
                self.stay(core, event);
                Err(fault)
            }
        }
    }

    /// The turn behind the advice to a chunk.
    fn heed(
        &mut self,
        core: u16,
        advice: Advice,
        frees: Vec<Free>,
        mut kept: Vec<Chunk<C>>,
        chunk: Chunk<C>,
    ) -> WorkTurn<C>
        requires empty { self.old.work ≡ Work.Nothing }
        requires calm { self.old.calm ≡ true }
        requires room { vec_len kept < vec_capacity kept }
        requires none { frees.items ≡ [] }
        requires places { length (charges_of_all kept.items ++ charges_of chunk) ≤ vec_capacity frees - vec_len frees }
        ensures worked { (conv : ℕ) (way : Way) (key : Key) → advice ≡ stated_of (H.advice self.old.scribe.handler) (Event.Chunk conv way key kept.items chunk)
            → Worked C.amount C.stamp (H.advice self.old.scribe.handler) (taken core (Event.Chunk conv way key kept.items chunk)) self.new.work result }
        ensures turned { Turned C.amount C.stamp core [] (charges_of_all kept.items ++ charges_of chunk) true self.new.work result }
        ensures same { (self.new.scribe ≡ self.old.scribe) × (self.new.circle ≡ self.old.circle) × (self.new.calm ≡ true) }
    {
        if advice.keep {
            kept.push_reserved(chunk);
            return answer_of(true, core, advice, frees, kept);
        }
        self.go_on(Release {
            core,
            advice,
            frees,
            left: Outgoing::of(kept, Some(chunk)),
        })
    }

    /// The next charge of an event goes out, or the answer.
    pub(crate) fn go_on(&mut self, mut release: Release<C>) -> WorkTurn<C>
        requires empty { self.old.work ≡ Work.Nothing }
        requires places { self.old.calm ≡ true → length (charges_left release.left) ≤ places_of release }
        ensures worked { self.old.calm ≡ true → (h : Hand C) → IsReleasing C.amount (H.advice self.old.scribe.handler) h release [] → Worked C.amount C.stamp (H.advice self.old.scribe.handler) h self.new.work result }
        ensures turned { Turned C.amount C.stamp release.core release.frees.items (charges_left release.left) self.old.calm self.new.work result }
        ensures same { (self.new.scribe ≡ self.old.scribe) × (self.new.circle ≡ self.old.circle) × (self.new.calm ≡ self.old.calm) }
    {
        match release.left.take() {
            Some(charge) => self.give(release, charge),
            None => {
                let Release {
                    core,
                    advice,
                    frees,
                    ..
                } = release;
                let kept = Vec::new(self.alloc);
                answer_of(self.calm, core, advice, frees, kept)
            }
        }
    }

    /// A charge goes out.
    fn give(&mut self, release: Release<C>, charge: C) -> WorkTurn<C>
        requires places { self.old.calm ≡ true → length (charges_left release.left) < places_of release }
        ensures free { result ≡ WorkTurn.Free charge }
        ensures waits { IsOut (C.amount charge) (C.stamp charge) release self.new.work }
        ensures same { (self.new.scribe ≡ self.old.scribe) × (self.new.circle ≡ self.old.circle) × (self.new.calm ≡ self.old.calm) }
    {
        self.work = Work::Waits {
            bytes: charge.amount(),
            stamp: charge.stamp(),
            release,
        };
        WorkTurn::Free(charge)
    }
}

/// Makes room for the releases of a chunk and for the chunk among the kept ones, and tells of it.
#[tactic(auto, using(crate::proofs::TellingLemmas::none_data))]
fn tell_chunk<H: Handler, K: Sink, C: Charge>(
    scribe: &mut Scribe<H, K>,
    core: u16,
    conv: u32,
    way: Way,
    key: &Key,
    frees: &mut Vec<Free>,
    kept: &mut Vec<Chunk<C>>,
    chunk: &Chunk<C>,
) -> Result<Advice, WorkFault>
    ensures told { IfOk result (IsTold H.advice K.held scribe.old scribe.new core conv (Data key.now way chunk.now.start chunk.now.gap (length (copied_bytes chunk.now)) (flat_map shown_bytes kept.old.items) (shown_bytes chunk.now))) }
    ensures front { OnErr result (GainsPart (K.held scribe.old.sink) (K.held scribe.new.sink) (event_line conv (Data key.now way chunk.now.start chunk.now.gap (length (copied_bytes chunk.now)) (flat_map shown_bytes kept.old.items) (shown_bytes chunk.now)))) }
    ensures cause { HasCause (K.faults scribe.old.sink) (K.faults scribe.new.sink) result }
    ensures handler { scribe.new.handler ≡ scribe.old.handler }
    ensures kept { kept.new.items ≡ kept.old.items }
    ensures frees { frees.new.items ≡ frees.old.items }
    ensures places { OnOk result (length (charges_of_all kept.new.items ++ charges_of chunk.now) ≤ vec_capacity frees.new - vec_len frees.new) }
    ensures room { OnOk result (vec_len kept.new < vec_capacity kept.new) }
{
    make_room(frees, kept, chunk)?;
    scribe.tell_chunk(core, conv, way, key, kept, chunk)
}

/// Makes room for the releases of a chunk and of those that ride with it, and for the chunk among these.
fn make_room<C: Charge>(
    frees: &mut Vec<Free>,
    kept: &mut Vec<Chunk<C>>,
    chunk: &Chunk<C>,
) -> Result<(), chunkpart::Memory>
    ensures kept { kept.new.items ≡ kept.old.items }
    ensures frees { frees.new.items ≡ frees.old.items }
    ensures places { OnOk result (length (charges_of_all kept.new.items ++ charges_of chunk.now) ≤ vec_capacity frees.new - vec_len frees.new) }
    ensures room { OnOk result (vec_len kept.new < vec_capacity kept.new) }
{
    frees.reserve(count_charges(kept, chunk)?)?;
    kept.reserve(1)?;
    Ok(())
}

/// The number of charges of a chunk and of those that ride with it.
fn count_charges<C: Charge>(kept: &[Chunk<C>], chunk: &Chunk<C>) -> Result<usize, chunkpart::Memory>
    ensures { IfOk result (λ n. n ≡ length (charges_of_all kept.now ++ charges_of chunk.now)) }
{
    let mut count = chunk.parts();
    for before in kept {
        count = count.checked_add(before.parts()).ok_or(chunkpart::Memory)?;
    }
    Ok(count)
}

/// The answer to an event: what the handler wants and what comes back, and neither in drain mode.
fn answer_of<C: Charge>(
    calm: bool,
    core: u16,
    advice: Advice,
    frees: Vec<Free>,
    kept: Vec<Chunk<C>>,
) -> WorkTurn<C>
    ensures calm { calm ≡ true → result ≡ WorkTurn.Answer core (record { advice = advice; frees = frees.items; kept = kept.items; drained = false }) }
    ensures drained { calm ≡ false → result ≡ WorkTurn.Answer core (record { advice = no_advice; frees = frees.items; kept = kept.items; drained = true }) }
{
    let advice = if calm { advice } else { Advice::none() };
    WorkTurn::Answer {
        core,
        answer: Answer {
            advice,
            frees: Frees::of(frees),
            kept: Kept::of(kept),
            drained: !calm,
        },
    }
}
