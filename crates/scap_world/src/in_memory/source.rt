ghost use Rattle.std.specs.Prelude.{◌≡◌, ◌≢◌, ◌+◌, ◌<◌, ◌≤◌, ◌↔◌, Some, IfOk, IsErr, OnErr, IsTrue, drop, length, min, take, vec_len};
ghost use Rattle.scap_world.specs.Plans.{is_next_named, next};

use super::calls::Calls;
use crate::{Source, WorldFault};

/// A file in memory that is read.
#[derive(Drop)]
pub struct MemSource {
    pub(crate) bytes: Vec<u8>,
    pub(crate) at: usize,
    pub(crate) most: usize,
    pub(crate) calls: Calls,
    ghost within: { at ≤ vec_len bytes },
    ghost some: { 0 < most },
}

impl Source for MemSource {
    ghost use Rattle.scap_world.specs.MemSource.{left_of, taken_of, piece_of, reads_of};

    ghost left = { λ s. Some (left_of s) };

    ghost taken = { taken_of };

    ghost faults = { λ s. (reads_of s).faults };

    fn read(&mut self, into: &mut [u8]) -> Result<usize, WorldFault>
        ensures count { IfOk result (λ n. n ≡ min (min (length into.new) (piece_of self.old)) (length (left_of self.old))) }
        ensures left { IfOk result (λ n. left_of self.new ≡ drop n (left_of self.old)) }
        ensures bytes { IfOk result (λ n. take n into.new ≡ take n (left_of self.old)) }
        ensures taken { IfOk result (λ n. taken_of self.new ≡ taken_of self.old + n) }
        ensures err { OnErr result ((left_of self.new ≡ left_of self.old) × (taken_of self.new ≡ taken_of self.old)) }
        ensures piece { piece_of self.new ≡ piece_of self.old }

        // It fails exactly where `fail` named the call, and takes no memory.
        ensures named { (result ≡ Err WorldFault.Failed) ↔ IsTrue (is_next_named (reads_of self.old)) }
        ensures no_memory { result ≢ Err WorldFault.Memory }
        ensures counted { reads_of self.new ≡ next (reads_of self.old) }
    {
        if self.calls.call() {
            return Err(WorldFault::Failed);
        }
        let rest = &self.bytes[self.at..];
        let n = into.len().min(self.most).min(rest.len());
        into[..n].copy_from_slice(&rest[..n]);
        self.at += n;
        Ok(n)
    }
}
