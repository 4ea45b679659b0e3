ghost use Rattle.std.specs.Prelude.{◌≡◌, ◌+◌, ◌≤◌, ◌^◌, length, IfOk};
ghost use Rattle.reorder.specs.Frags.{end_of, cells_of, bytes_in, overlaid_one};
ghost use Rattle.reorder.specs.Starts.{AreSettled};

use crate::new_starts::NewStarts;
use crate::over::Over;
use crate::settlement::{settled_runs, write_runs};
use crate::start_run::StartRun;
use chunkpart::Memory;
use prio_budget::{Charge, Part};
use std::alloc::Global;
use std::marker::Model;

/// A held part from a position on, with the starts of its bytes. The first run of starts takes no memory.
#[derive(Drop)]
pub(crate) struct Held<C: Charge> {
    at: u64,
    part: Part<C>,
    first: StartRun,
    more: Vec<StartRun>,
}

impl<C: Charge> Model for Held<C> {
    ghost use Rattle.std.specs.Prelude.{◌≡◌, ◌+◌, ◌≤◌, ◌^◌, ◌∷◌, length};
    ghost use Rattle.reorder.specs.Frags.{Frag};
    ghost use Rattle.reorder.specs.Starts.{run_bytes, cells_in};

    ghost Value = { Frag C };

    ghost view = { λ h. record { at = h.at; cells = cells_in (h.first ∷ h.more.items) h.part.0; charge = h.part.1 } };

    ghost invariant = { λ h. (run_bytes (h.first ∷ h.more.items) ≡ length h.part.0) × (h.at + length h.part.0 ≤ 2 ^ 62) };
}

impl<C: Charge> Held<C> {
    /// Bytes of one segment.
    pub(crate) fn new(alloc: Global, at: u64, start: i64, part: Part<C>) -> Held<C>
        requires { at + length part.0 ≤ 2 ^ 62 }
        ensures { result ≡ record { at = at; cells = cells_of start part.0; charge = part.1 } }
    {
        let len = part.bytes().len() as u64;
        Held {
            at,
            part,
            first: StartRun { len, start },
            more: Vec::new(alloc),
        }
    }

    pub(crate) fn at(&self) -> u64
        ensures { result ≡ self.now.at }
    {
        self.at
    }

    pub(crate) fn len(&self) -> u64
        ensures { result ≡ length self.now.cells }
    {
        self.part.bytes().len() as u64
    }

    /// The position behind it.
    pub(crate) fn end(&self) -> u64
        ensures { result ≡ end_of self.now }
    {
        self.at + self.len()
    }

    pub(crate) fn into_part(self) -> Part<C>
        ensures { result ≡ (bytes_in self.cells, self.charge) }
    {
        self.part
    }

    /// The starts of its bytes once a later segment's are settled.
    pub(crate) fn settled(&self, alloc: Global, over: Over) -> Result<NewStarts, Memory>
        requires { over.from ≤ over.to }
        ensures { IfOk result (λ starts. AreSettled over self.now starts) }
    {
        let made = settled_runs(alloc, over, self.at, self.first, &self.more)?;
        Ok(NewStarts::of(made))
    }

    /// Settles overlap with a later segment's bytes, of which the new starts are there. It takes no memory.
    pub(crate) fn settle(&mut self, over: Over, bytes: &[u8], starts: NewStarts)
        requires to { over.to ≡ over.from + length bytes.now }
        requires starts { AreSettled over self.old starts }
        ensures { self.new ≡ overlaid_one over.policy over.start over.from bytes.now self.old }
    {
        write_runs(&mut self.part, over, bytes, self.at, self.first, &self.more);
        self.first = StartRun {
            len: 0,
            start: over.start,
        };
        self.more = starts.into_vec();
    }
}
