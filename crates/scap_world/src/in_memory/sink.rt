ghost use Rattle.std.specs.Prelude.{◌≡◌, ◌++◌, ◌<◌, Some, IfOk, IsErr, OnErr, IsTrue, length, min, take};
ghost use Rattle.scap_world.specs.Causes.{unless_memory};
ghost use Rattle.scap_world.specs.Plans.{is_next_named, next};

use super::bytes::Bytes;
use super::calls::Calls;
use crate::{Sink, WorldFault};

/// A file in memory that is written.
#[derive(Drop)]
pub struct MemSink {
    pub(crate) bytes: Vec<u8>,
    pub(crate) most: usize,
    pub(crate) calls: Calls,
    ghost some: { 0 < most },
}

impl MemSink {
    ghost use Rattle.std.specs.Prelude.{◌≡◌, ◌/◌, IsTrue, length, take};
    ghost use Rattle.scap_world.specs.MemSink.{held_of};

    /// What is left of it once it is finished: half of it where that fails.
    pub(crate) fn into_bytes(self, fails: bool) -> Bytes
        ensures whole { ¬ IsTrue fails → result ≡ held_of self }
        ensures half { IsTrue fails → result ≡ take (length (held_of self) / 2) (held_of self) }
    {
        let MemSink { bytes, .. } = self;
        let mut bytes = bytes;
        if fails {
            bytes.truncate(bytes.len() / 2);
        }
        Bytes::of(bytes)
    }
}

impl Sink for MemSink {
    ghost use Rattle.scap_world.specs.MemSink.{held_of, piece_of, writes_of};

    ghost held = { λ s. Some (held_of s) };

    ghost faults = { λ s. (writes_of s).faults };

    fn write(&mut self, piece: &[u8]) -> Result<usize, WorldFault>
        ensures count { IfOk result (λ n. n ≡ min (length piece.now) (piece_of self.old)) }
        ensures held { IfOk result (λ n. held_of self.new ≡ held_of self.old ++ take n piece.now) }
        ensures err { OnErr result (held_of self.new ≡ held_of self.old) }
        ensures piece { piece_of self.new ≡ piece_of self.old }

        // It fails exactly where `fail` named the call, unless memory is wanting: then the call counts for nothing.
        ensures named { IsTrue (is_next_named (writes_of self.old)) → IsErr result }
        ensures cause { result ≡ Err WorldFault.Failed → IsTrue (is_next_named (writes_of self.old)) }
        ensures counted { writes_of self.new ≡ unless_memory result (next (writes_of self.old)) (writes_of self.old) }
    {
        let n = piece.len().min(self.most);
        self.bytes.reserve(n)?;
        if self.calls.call() {
            return Err(WorldFault::Failed);
        }
        self.bytes.extend_from_slice(&piece[..n])?;
        Ok(n)
    }
}
