ghost use Rattle.std.specs.Prelude.{◌≡◌, [], length, flat_map, IfOk, OnOk, OnErr};
ghost use Rattle.scap_world.specs.Contents.{extended, GainsPart};
ghost use Rattle.chunkpart.specs.ChunkParts.{copied_bytes, shown_bytes};
ghost use Rattle.streamkey.specs.Key.{key_of};
ghost use Rattle.streamdefs.specs.Convo.Seen.{Data, Over};
ghost use Rattle.streamdefs.specs.Handler.{event_line};
ghost use Rattle.handler.specs.Seen.{created_by};
ghost use Rattle.workrun.specs.Telling.{HasCause, IsTold};

use crate::WorkFault;
use chunkpart::Chunk;
use evring::{Advice, Reason, Way};
use handler::{ChunkView, Handler, put_chunk, put_created, put_ended};
use histbook::WorkList;
use prio_budget::Charge;
use scap_world::{Sink, write_whole};
use std::alloc::Global;
use streamkey::{End, Key, Proto};

/// Tells events to a handler and writes their lines. It keeps the list of the cores whose events it told, and its buffers.
#[derive(Drop)]
pub(crate) struct Scribe<H: Handler, K: Sink> {
    pub(crate) handler: H,
    pub(crate) sink: K,
    pub(crate) served: WorkList,
    pub(crate) line: Vec<u8>,
    pub(crate) shown: Vec<u8>,
    pub(crate) kept: Vec<u8>,
}

impl<H: Handler, K: Sink> Scribe<H, K> {
    /// Nothing was told yet.
    pub(crate) fn new(alloc: Global, handler: H, sink: K) -> Scribe<H, K>
        ensures same { (result.handler ≡ handler) × (result.sink ≡ sink) }
        ensures served { result.served ≡ [] }
    {
        Scribe {
            handler,
            sink,
            served: WorkList::new(alloc),
            line: Vec::new(alloc),
            shown: Vec::new(alloc),
            kept: Vec::new(alloc),
        }
    }

    /// Tells that a conversation began. All memory but the sink's own is taken before the handler is called.
    #[tactic(auto, using(crate::proofs::TellingLemmas::none_new))]
    pub(crate) fn tell_new(
        &mut self,
        core: u16,
        conv: u32,
        proto: Proto,
        source: End,
        target: End,
    ) -> Result<Advice, WorkFault>
        ensures told { IfOk result (IsTold H.advice K.held self.old self.new core conv (created_by (key_of proto source target))) }
        ensures front { OnErr result (GainsPart (K.held self.old.sink) (K.held self.new.sink) (event_line conv (created_by (key_of proto source target)))) }
        ensures cause { HasCause (K.faults self.old.sink) (K.faults self.new.sink) result }
        ensures handler { self.new.handler ≡ self.old.handler }
    {
        let (key, toward) = Key::of(proto, source, target);
        self.line.clear();
        put_created(&mut self.line, conv, &key, toward)?;
        self.served.push(core, 1)?;
        let advice = self.handler.created(conv, &key, toward);
        write_whole(&mut self.sink, &self.line)?;
        Ok(advice)
    }

    /// Tells of a chunk, with the chunks that ride with it.
    #[tactic(auto, using(crate::proofs::TellingLemmas::none_data))]
    pub(crate) fn tell_chunk<C: Charge>(
        &mut self,
        core: u16,
        conv: u32,
        way: Way,
        key: &Key,
        kept: &[Chunk<C>],
        chunk: &Chunk<C>,
    ) -> Result<Advice, WorkFault>
        ensures told { IfOk result (IsTold H.advice K.held self.old self.new core conv (Data key.now way chunk.now.start chunk.now.gap (length (copied_bytes chunk.now)) (flat_map shown_bytes kept.now) (shown_bytes chunk.now))) }
        ensures front { OnErr result (GainsPart (K.held self.old.sink) (K.held self.new.sink) (event_line conv (Data key.now way chunk.now.start chunk.now.gap (length (copied_bytes chunk.now)) (flat_map shown_bytes kept.now) (shown_bytes chunk.now)))) }
        ensures cause { HasCause (K.faults self.old.sink) (K.faults self.new.sink) result }
        ensures handler { self.new.handler ≡ self.old.handler }
    {
        lay_out(kept, &mut self.kept)?;
        self.shown.clear();
        chunk.shown(&mut self.shown)?;
        let view = ChunkView {
            conv,
            way,
            key,
            start: chunk.start(),
            gap: chunk.gap(),
            over: chunk.tail_len(),
            kept: &self.kept,
            shown: &self.shown,
        };
        self.line.clear();
        put_chunk(&mut self.line, &view)?;
        self.served.push(core, 1)?;
        let advice = self.handler.chunk(&view);
        write_whole(&mut self.sink, &self.line)?;
        Ok(advice)
    }

    /// Tells that a conversation ended.
    #[tactic(auto, using(crate::proofs::TellingLemmas::none_over))]
    pub(crate) fn tell_end(
        &mut self,
        core: u16,
        conv: u32,
        reason: Reason,
    ) -> Result<Advice, WorkFault>
        ensures told { IfOk result (IsTold H.advice K.held self.old self.new core conv (Over reason)) }
        ensures front { OnErr result (GainsPart (K.held self.old.sink) (K.held self.new.sink) (event_line conv (Over reason))) }
        ensures cause { HasCause (K.faults self.old.sink) (K.faults self.new.sink) result }
        ensures handler { self.new.handler ≡ self.old.handler }
    {
        self.line.clear();
        put_ended(&mut self.line, conv, reason)?;
        self.served.push(core, 1)?;
        let advice = self.handler.ended(conv, reason);
        write_whole(&mut self.sink, &self.line)?;
        Ok(advice)
    }
}

/// The bytes of chunks, joined, in a buffer.
fn lay_out<C: Charge>(chunks: &[Chunk<C>], out: &mut Vec<u8>) -> Result<(), chunkpart::Memory>
    ensures { OnOk result (out.new.items ≡ flat_map shown_bytes chunks.now) }
{
    out.clear();
    for chunk in chunks {
        chunk.shown(out)?;
    }
    Ok(())
}
