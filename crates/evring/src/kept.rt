ghost use Rattle.std.specs.Prelude.{◌≡◌, ◌++◌, [], OnOk, IfErr};

use chunkpart::Chunk;
use prio_budget::Charge;
use std::alloc::Global;
use std::marker::Model;

/// Chunks that are to be shown again, the earliest first, seen as a list.
#[derive(Drop)]
pub struct Kept<C: Charge> {
    items: Vec<Chunk<C>>,
}

impl<C: Charge> Model for Kept<C> {
    ghost use Rattle.std.specs.Prelude.{List};
    ghost use Rattle.chunkpart.specs.ChunkParts.{ChunkParts};

    ghost Value = { List (ChunkParts C) };

    ghost view = { λ k. k.items.items };
}

impl<C: Charge> Kept<C> {
    pub fn of(items: Vec<Chunk<C>>) -> Self
        ensures { result ≡ items.items }
    {
        Kept { items }
    }

    /// No chunks.
    pub fn none(alloc: Global) -> Self
        ensures { result ≡ [] }
    {
        Kept {
            items: Vec::new(alloc),
        }
    }

    pub fn as_slice(&self) -> &[Chunk<C>]
        ensures { result.now ≡ self.now }
    {
        &self.items
    }

    pub fn into_vec(self) -> Vec<Chunk<C>>
        ensures { result.items ≡ self }
    {
        self.items
    }

    /// Puts chunks behind these. For want of memory they come back.
    pub fn append(&mut self, more: Kept<C>) -> Result<(), Kept<C>>
        ensures ok { OnOk result (self.new ≡ self.old ++ more) }
        ensures err { IfErr result (λ back. (back ≡ more) × (self.new ≡ self.old)) }
    {
        let mut items = more.into_vec();
        match self.items.append(&mut items) {
            Ok(()) => Ok(()),
            Err(_) => Err(Kept { items }),
        }
    }
}
