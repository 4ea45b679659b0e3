ghost use Rattle.std.specs.Prelude.{◌≡◌, ◌+◌, ◌-◌, ◌<◌, ◌≤◌, ◌^◌, ◌++◌, length, None, Some, IfOk, IfErr, OnOk, OnErr, option_to_list};
ghost use Rattle.datagrams.specs.Entered.{entered};
ghost use Rattle.datagrams.specs.Flow.{chunk_list, closed_by_gap, dry, granted_to, handed_over, is_ready as says_ready, left_open, open_in, paid_of, refused_to, HasNoCopy};

use crate::asked::{Asked, ask};
use crate::{Entered, Memory};
use chunkpart::Chunk;
use histbook::LookEntry;
use prio_budget::{Part, PartBytes, PlainBudget, PlainCharge};
use std::alloc::Global;
use std::marker::Model;

/// One direction of a conversation of datagrams: how many bytes came, the front, and the open chunk.
#[derive(Drop)]
pub struct HalfStream {
    sent: u64,
    front: u64,
    chunk: Option<Chunk<PlainCharge>>,
}

impl Model for HalfStream {
    ghost use Rattle.datagrams.specs.Flow.{Flow, IsKept, open_in};

    ghost Value = { Flow };

    ghost view = { λ h. record { sent = h.sent; front = h.front; chunk = open_in h.chunk } };

    ghost invariant = { λ h. IsKept h.sent h.front h.chunk };
}

/// Whether there is a chunk of so many bytes.
fn is_ready(chunk: &Option<Chunk<PlainCharge>>, least: u64) -> bool
    ensures { result ≡ says_ready least (open_in chunk.now) }
{
    match chunk {
        Some(chunk) => chunk.fresh_len() >= least,
        None => false,
    }
}

impl HalfStream {
    /// Before any datagram.
    pub fn new() -> HalfStream
        ensures { result ≡ dry }
    {
        HalfStream {
            sent: 0,
            front: 0,
            chunk: None,
        }
    }

    /// How many bytes came.
    pub fn sent(&self) -> u64
        ensures { result ≡ self.now.sent }
    {
        self.sent
    }

    /// Passes by a datagram without bytes, or one that was refused.
    pub fn skip(&mut self, bytes: u64)
        requires { self.old.sent + bytes < 2 ^ 64 }
        ensures { self.new ≡ refused_to self.old bytes }
    {
        self.sent += bytes;
    }

    /// Takes a granted datagram, into the open chunk or, behind a gap or where none is open, into a new one. The chunk that a
    /// gap closes comes out. For want of memory the part comes back, and nothing changes.
    pub fn accept(
        &mut self,
        alloc: Global,
        part: Part<PlainCharge>,
    ) -> Result<Option<Chunk<PlainCharge>>, Part<PlainCharge>>
        requires some { 0 < length part.0 }
        requires fits { self.old.sent + length part.0 < 2 ^ 64 }
        ensures flow { OnOk result (self.new ≡ granted_to self.old (paid_of part)) }
        ensures closed { IfOk result (λ closed. chunk_list (open_in closed) ≡ closed_by_gap self.old) }
        ensures bare { IfOk result HasNoCopy }
        ensures err { IfErr result (λ back. (back ≡ part) × (self.new ≡ self.old)) }
    {
        let bytes = part.bytes().len() as u64;
        if self.sent == self.front
            && let Some(chunk) = &mut self.chunk
        {
            chunk.append(part)?;
            self.sent += bytes;
            self.front = self.sent;
            return Ok(None);
        }
        let mut next = Chunk::new(alloc, self.sent, self.sent - self.front, None);
        next.append(part)?;
        self.sent += bytes;
        self.front = self.sent;
        Ok(self.chunk.replace(next))
    }

    /// The open chunk, where it has at least so many bytes.
    pub fn take_ready(&mut self, least: u64) -> Option<Chunk<PlainCharge>>
        ensures flow { self.new ≡ left_open least self.old }
        ensures chunk { chunk_list (open_in result) ≡ handed_over least self.old }
        ensures bare { HasNoCopy result }
    {
        if is_ready(&self.chunk, least) {
            self.chunk.take()
        } else {
            None
        }
    }

    /// What a datagram does once its bytes are granted. For want of memory the charge is released, and nothing else changes.
    fn enter_granted(
        &mut self,
        alloc: Global,
        budget: &mut PlainBudget,
        look: LookEntry,
        part: Part<PlainCharge>,
        least: u64,
    ) -> Result<Entered, Memory>
        requires some { 0 < length part.0 }
        requires fits { self.old.sent + length part.0 < 2 ^ 64 }
        requires used { part.1.amount ≤ budget.old.used }
        ensures look { IfOk result (λ e. e.look ≡ Some look) }
        ensures flow { OnOk result (self.new ≡ left_open least (granted_to self.old (paid_of part))) }
        ensures over { IfOk result (λ e. chunk_list (open_in e.closed) ++ chunk_list (open_in e.full) ≡ closed_by_gap self.old ++ handed_over least (granted_to self.old (paid_of part))) }
        ensures bare { IfOk result (λ e. HasNoCopy e.closed × HasNoCopy e.full) }
        ensures budget { OnOk result (budget.new ≡ budget.old) }
        ensures err { OnErr result (self.new ≡ self.old) }
        ensures released { OnErr result (budget.new ≡ record budget.old { stamp = budget.new.stamp; used = budget.old.used - part.1.amount }) }
    {
        match self.accept(alloc, part) {
            Ok(closed) => {
                let full = self.take_ready(least);
                Ok(Entered {
                    look: Some(look),
                    closed,
                    full,
                })
            }
            Err(part) => {
                let (_, charge) = part.unpack();
                budget.release(charge);
                Err(Memory)
            }
        }
    }

    /// What a datagram does that was refused, or is empty.
    fn enter_still(&mut self, look: Option<LookEntry>, bytes: u64, least: u64) -> Entered
        requires { self.old.sent + bytes < 2 ^ 64 }
        ensures look { result.look ≡ look }
        ensures flow { self.new ≡ left_open least (refused_to self.old bytes) }
        ensures over { chunk_list (open_in result.closed) ++ chunk_list (open_in result.full) ≡ handed_over least (refused_to self.old bytes) }
        ensures bare { HasNoCopy result.closed × HasNoCopy result.full }
    {
        self.skip(bytes);
        let full = self.take_ready(least);
        Entered {
            look,
            closed: None,
            full,
        }
    }

    /// Enters a datagram: asks for its bytes up to the mark, keeps what is granted, and hands over what a gap closes and
    /// what then has at least so many bytes. At want of memory nothing changes but the budget's stamp.
    pub fn enter(
        &mut self,
        alloc: Global,
        budget: &mut PlainBudget,
        mark: u32,
        least: u64,
        payload: &[u8],
    ) -> Result<Entered, Memory>
        requires mark { mark ≤ budget.old.limit }
        requires fits { self.old.sent + length payload.now < 2 ^ 64 }
        requires few { length payload.now < 2 ^ 32 }
        ensures looks { IfOk result (λ e. option_to_list e.look ≡ (entered mark least budget.old self.old payload.now).looks) }
        ensures over { IfOk result (λ e. chunk_list (open_in e.closed) ++ chunk_list (open_in e.full) ≡ (entered mark least budget.old self.old payload.now).over) }
        ensures flow { OnOk result (self.new ≡ (entered mark least budget.old self.old payload.now).flow) }
        ensures budget { OnOk result (budget.new ≡ (entered mark least budget.old self.old payload.now).budget) }
        ensures bare { IfOk result (λ e. HasNoCopy e.closed × HasNoCopy e.full) }
        ensures stamp { OnOk result (0 < length payload.now → budget.old.stamp < 2 ^ 31) }
        ensures err { OnErr result (self.new ≡ self.old) }
        ensures released { OnErr result (budget.new ≡ record budget.old { stamp = budget.new.stamp }) }
        ensures limit { budget.new.limit ≡ budget.old.limit }
    {
        if payload.is_empty() {
            return Ok(self.enter_still(None, 0, least));
        }
        let bytes = PartBytes::of(Vec::from_slice(alloc, payload)?);
        match ask(budget, payload.len() as u32, mark) {
            Some(
                Asked {
                    look,
                    charge: Some(charge),
                },
            ) => self.enter_granted(alloc, budget, look, Part::new(bytes, charge), least),
            Some(Asked { look, charge: None }) => {
                Ok(self.enter_still(Some(look), payload.len() as u64, least))
            }
            None => Err(Memory),
        }
    }

    /// The open chunk.
    pub fn take_open(&mut self) -> Option<Chunk<PlainCharge>>
        ensures flow { self.new ≡ record self.old { chunk = None } }
        ensures chunk { open_in result ≡ self.old.chunk }
        ensures bare { HasNoCopy result }
    {
        self.chunk.take()
    }
}
