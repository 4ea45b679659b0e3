// What handlers are told, as the text of the deliveries.
ghost use Rattle.std.specs.Prelude.{◌≡◌, ◌≤◌, ◌++◌, [], None, IfOk, OnOk};
ghost use Rattle.streamkey.specs.Key.{source_of, target_of};
ghost use Rattle.streamdefs.specs.Handler.{new_line, end_line};
ghost use Rattle.datagrams.specs.Flow.{chunk_of, size};
ghost use Rattle.datagrams.specs.Released.{chunk_line, frees_from, freed_of};

use crate::lines::{put_data_line, put_end_line, put_new_line};
use crate::{Memory, release_chunk};
use chunkpart::Chunk;
use evring::{Frees, Reason, Way};
use prio_budget::{PlainBudget, PlainCharge};
use std::alloc::Global;
use std::marker::Model;
use streamkey::{Key, Toward};

/// The text of the deliveries so far. After want of memory it may end within a line.
#[derive(Drop)]
pub struct Served {
    text: Vec<u8>,
    shown: Vec<u8>,
}

impl Model for Served {
    ghost use Rattle.std.specs.Prelude.{ℕ, List};

    ghost Value = { List ℕ };

    ghost view = { λ s. s.text.items };
}

/// Appends the line of a chunk. `shown` is a buffer for its bytes.
fn put_chunk(
    text: &mut Vec<u8>,
    shown: &mut Vec<u8>,
    conv: u32,
    way: Way,
    chunk: &Chunk<PlainCharge>,
) -> Result<(), Memory>
    requires { chunk.now.tail ≡ None }
    ensures { OnOk result (text.new.items ≡ text.old.items ++ chunk_line conv way (chunk_of chunk.now)) }
{
    shown.clear();
    if chunk.shown(shown).is_err() {
        return Err(Memory);
    }
    put_data_line(text, conv, way, chunk.start(), chunk.gap(), shown)
}

impl Served {
    /// Before any event.
    pub fn new(alloc: Global) -> Served
        ensures { result ≡ [] }
    {
        Served {
            text: Vec::new(alloc),
            shown: Vec::new(alloc),
        }
    }

    /// Tells that a conversation begins.
    pub fn open(&mut self, conv: u32, key: &Key, toward: Toward) -> Result<(), Memory>
        ensures { OnOk result (self.new ≡ self.old ++ new_line conv key.now.proto (source_of key.now toward) (target_of key.now toward)) }
    {
        put_new_line(
            &mut self.text,
            conv,
            key.proto,
            key.source(toward),
            key.target(toward),
        )
    }

    /// Delivers a chunk and releases its charges, also at want of memory.
    pub fn hand_over(
        &mut self,
        alloc: Global,
        budget: &mut PlainBudget,
        conv: u32,
        way: Way,
        chunk: Chunk<PlainCharge>,
    ) -> Result<Frees, Memory>
        requires bare { chunk.tail ≡ None }
        requires held { size (chunk_of chunk).parts ≤ budget.old.used }
        ensures budget { budget.new ≡ freed_of (chunk_of chunk).parts budget.old }
        ensures text { OnOk result (self.new ≡ self.old ++ chunk_line conv way (chunk_of chunk)) }
        ensures frees { IfOk result (λ frees. frees ≡ frees_from budget.old.stamp (chunk_of chunk).parts) }
    {
        let written = put_chunk(&mut self.text, &mut self.shown, conv, way, &chunk);
        let frees = release_chunk(alloc, budget, chunk);
        written?;
        Ok(Frees::of(frees?))
    }

    /// Tells that a conversation ends.
    pub fn end(&mut self, conv: u32, reason: Reason) -> Result<(), Memory>
        ensures { OnOk result (self.new ≡ self.old ++ end_line conv reason) }
    {
        put_end_line(&mut self.text, conv, reason)
    }

    /// The text.
    pub fn into_text(self) -> Vec<u8>
        ensures { result.items ≡ self }
    {
        self.text
    }
}
