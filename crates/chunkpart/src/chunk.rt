ghost use Rattle.std.specs.Prelude.{◌≡◌, ◌+◌, ◌-◌, ◌<◌, ◌≤◌, ◌^◌, ◌↔◌, ◌⊎◌, [], ◌∷◌, ◌++◌, length, take, drop, None, IsOk, IsNone, OnOk, OnErr, IfOk, IfErr, vec_len, option_to_list};
ghost use Rattle.std.specs.Vec.{vec_capacity};
ghost use Rattle.chunkpart.specs.Parts.{bytes_of};
ghost use Rattle.chunkpart.specs.ChunkParts.{copied_bytes, fresh_bytes, parts_of, shown_bytes};
ghost use Rattle.chunkpart.specs.LastBytes.{last_of};

use crate::Memory;
use prio_budget::{Charge, Part};
use std::alloc::Global;
use std::collections::VecDeque;
use std::marker::Model;

/// A piece of the flow of one direction: where it starts, the gap before it, a copy of last bytes of the chunk before
/// it where there is one, and its fresh bytes, kept as the parts in which they came. A part that is dropped with its
/// chunk keeps its bytes in the budget's used number, so whoever owns a chunk takes its parts and releases them.
#[derive(Drop)]
pub struct Chunk<C: Charge> {
    start: u64,
    gap: u64,
    pub(crate) fresh_len: u64,
    pub(crate) tail: Option<Part<C>>,
    fresh: VecDeque<Part<C>>,
}

impl<C: Charge> Model for Chunk<C> {
    ghost use Rattle.std.specs.Prelude.{◌-◌};
    ghost use Rattle.std.specs.VecDeque.{deque_len, deque_capacity};
    ghost use Rattle.chunkpart.specs.Parts.{AreKept};
    ghost use Rattle.chunkpart.specs.ChunkParts.{ChunkParts};

    ghost Value = { ChunkParts C };

    ghost view = { λ c. record { start = c.start; gap = c.gap; tail = c.tail; fresh = c.fresh.items; room = deque_capacity c.fresh - deque_len c.fresh } };

    ghost invariant = { λ c. AreKept C.amount c.fresh_len c.fresh.items };
}

impl<C: Charge> Chunk<C> {
    /// A chunk without fresh bytes. `start` is the position of the first that will come, `gap` the number of positions
    /// before it that were passed without a byte.
    pub fn new(alloc: Global, start: u64, gap: u64, tail: Option<Part<C>>) -> Chunk<C>
        ensures places { (result.start ≡ start) × (result.gap ≡ gap) }
        ensures parts { (result.tail ≡ tail) × (result.fresh ≡ []) }
    {
        Chunk {
            start,
            gap,
            fresh_len: 0,
            tail,
            fresh: VecDeque::new(alloc),
        }
    }

    /// Makes room for so many more parts. At want of memory nothing changes.
    pub fn reserve(&mut self, parts: usize) -> Result<(), Memory>
        ensures ok { OnOk result (parts ≤ self.new.room) }
        ensures err { OnErr result (self.new ≡ self.old) }

        // Nothing but the room changes, and room that is there is not made again.
        ensures same { self.new ≡ record self.old { room = self.new.room } }
        ensures grows { self.old.room ≤ self.new.room }

        // Room that is made is for as many parts again as there are: so many small calls move each part only a few times.
        ensures ample { OnOk result ((parts ≤ self.old.room) ⊎ (length self.old.fresh ≤ self.new.room)) }
        ensures there { parts ≤ self.old.room → IsOk result × (self.new ≡ self.old) }
    {
        let filled = self.fresh.len();
        if parts <= self.fresh.capacity() - filled {
            return Ok(());
        }
        self.fresh.reserve_exact(parts.max(filled))?;
        Ok(())
    }

    /// Puts a part behind the others. The part comes back for want of memory alone, never where room was made.
    pub fn append(&mut self, part: Part<C>) -> Result<(), Part<C>>
        requires { length (fresh_bytes self.old) + length part.0 < 2 ^ 64 }
        ensures ok { OnOk result (self.new ≡ record self.old { fresh = self.old.fresh ++ part ∷ []; room = self.new.room }) }
        ensures reserved { 0 < self.old.room → IsOk result × (self.new.room + 1 ≡ self.old.room) }

        // Where there was none, room is made for as many parts again as there are.
        ensures ample { OnOk result ((0 < self.old.room) ⊎ (length self.old.fresh ≤ self.new.room + 1)) }
        ensures err { IfErr result (λ back. (back ≡ part) × (self.new ≡ self.old)) }
    {
        if self.reserve(1).is_err() {
            return Err(part);
        }
        self.fresh_len += part.bytes().len() as u64;
        self.fresh.push_back_reserved(part);
        Ok(())
    }

    /// The position of the first fresh byte that was appended to this chunk, also after parts were taken from it.
    pub fn start(&self) -> u64
        ensures { result ≡ self.now.start }
    {
        self.start
    }

    /// The number of positions before the start that were passed without a byte.
    pub fn gap(&self) -> u64
        ensures { result ≡ self.now.gap }
    {
        self.gap
    }

    /// The number of copied bytes.
    pub fn tail_len(&self) -> u64
        ensures { result ≡ length (copied_bytes self.now) }
    {
        match &self.tail {
            Some(copy) => copy.bytes().len() as u64,
            None => 0,
        }
    }

    /// The number of fresh bytes.
    pub fn fresh_len(&self) -> u64
        ensures { result ≡ length (fresh_bytes self.now) }
    {
        self.fresh_len
    }

    /// The number of parts: the copy, where there is one, and the fresh parts.
    pub fn parts(&self) -> usize
        ensures { result ≡ length (parts_of self.now) }
    {
        match &self.tail {
            Some(_) => self.fresh.len() + 1,
            None => self.fresh.len(),
        }
    }

    /// Appends the copy and the fresh bytes. At want of memory `out` holds what it held.
    pub fn shown(&self, out: &mut Vec<u8>) -> Result<(), Memory>
        ensures ok { OnOk result (out.new.items ≡ out.old.items ++ shown_bytes self.now) }
        ensures err { OnErr result (out.new.items ≡ out.old.items) }
        ensures full { OnErr result (vec_capacity out.old < vec_len out.old + length (shown_bytes self.now)) }
    {
        let before = out.len();
        if self.put_bytes(out).is_err() {
            out.truncate(before);
            return Err(Memory);
        }
        Ok(())
    }

    /// As `shown`, but at want of memory some of the bytes may stand behind those that `out` held.
    fn put_bytes(&self, out: &mut Vec<u8>) -> Result<(), Memory>
        ensures ok { OnOk result (out.new.items ≡ out.old.items ++ shown_bytes self.now) }
        ensures front { take (length out.old.items) out.new.items ≡ out.old.items }
        ensures full { OnErr result (vec_capacity out.old < vec_len out.old + length (shown_bytes self.now)) }
    {
        if let Some(copy) = &self.tail {
            out.extend_from_slice(copy.bytes())?;
        }
        let (first, second) = self.fresh.as_slices();
        put_parts(first, out)?;
        put_parts(second, out)
    }

    /// Appends the last `n` fresh bytes. At want of memory `out` holds what it held.
    pub fn last(&self, n: u32, out: &mut Vec<u8>) -> Result<(), Memory>
        requires { n ≤ length (fresh_bytes self.now) }
        ensures ok { OnOk result (out.new.items ≡ out.old.items ++ last_of n (fresh_bytes self.now)) }
        ensures err { OnErr result (out.new.items ≡ out.old.items) }
        ensures full { OnErr result (vec_capacity out.old < vec_len out.old + n) }
    {
        let before = out.len();
        if self.put_last(n, out).is_err() {
            out.truncate(before);
            return Err(Memory);
        }
        Ok(())
    }

    /// As `last`, but at want of memory some of the bytes may stand behind those that `out` held.
    fn put_last(&self, n: u32, out: &mut Vec<u8>) -> Result<(), Memory>
        requires { n ≤ length (fresh_bytes self.now) }
        ensures ok { OnOk result (out.new.items ≡ out.old.items ++ last_of n (fresh_bytes self.now)) }
        ensures front { take (length out.old.items) out.new.items ≡ out.old.items }
        ensures full { OnErr result (vec_capacity out.old < vec_len out.old + n) }
    {
        let skipped = self.fresh_len - u64::from(n);
        let (first, second) = self.fresh.as_slices();
        let left = put_parts_behind(first, skipped, out)?;
        put_parts_behind(second, left, out)?;
        Ok(())
    }

    /// The next part: the copy first, then the fresh parts in order. None where no part is left. Start and gap stay
    /// what they were, those of the whole chunk.
    pub fn take_part(&mut self) -> Option<Part<C>>
        ensures order { parts_of self.old ≡ option_to_list result ++ parts_of self.new }
        ensures none { IsNone result ↔ (parts_of self.old ≡ []) }

        // The copy is gone, and nothing else changes.
        ensures tail { self.new.tail ≡ None }
        ensures places { (self.new.start ≡ self.old.start) × (self.new.gap ≡ self.old.gap) }
        ensures room { self.old.room ≤ self.new.room }
    {
        if let Some(copy) = self.tail.take() {
            return Some(copy);
        }
        let part = self.fresh.pop_front()?;
        self.fresh_len -= part.bytes().len() as u64;
        Some(part)
    }
}

/// Appends the bytes of parts. At want of memory some of them may stand behind those that `out` held.
fn put_parts<C: Charge>(parts: &[Part<C>], out: &mut Vec<u8>) -> Result<(), Memory>
    ensures ok { OnOk result (out.new.items ≡ out.old.items ++ bytes_of parts.now) }
    ensures front { take (length out.old.items) out.new.items ≡ out.old.items }
    ensures capacity { vec_capacity out.old ≤ vec_capacity out.new }
    ensures full { OnErr result (vec_capacity out.old < vec_len out.old + length (bytes_of parts.now)) }
{
    for part in parts {
        out.extend_from_slice(part.bytes())?;
    }
    Ok(())
}

/// Appends what stands behind the first `skipped` bytes of parts, and tells how many more bytes are to be skipped. At want
/// of memory some of it may stand behind what `out` held.
fn put_parts_behind<C: Charge>(
    parts: &[Part<C>],
    skipped: u64,
    out: &mut Vec<u8>,
) -> Result<u64, Memory>
    ensures ok { OnOk result (out.new.items ≡ out.old.items ++ drop skipped (bytes_of parts.now)) }
    ensures left { IfOk result (λ left. left ≡ skipped - length (bytes_of parts.now)) }
    ensures front { take (length out.old.items) out.new.items ≡ out.old.items }
    ensures capacity { vec_capacity out.old ≤ vec_capacity out.new }
    ensures full { OnErr result (vec_capacity out.old < vec_len out.old + length (drop skipped (bytes_of parts.now))) }
{
    let mut left = skipped;
    for part in parts {
        left = put_behind(part.bytes(), left, out)?;
    }
    Ok(left)
}

/// As `put_parts_behind`, of bytes. At want of memory `out` holds what it held.
fn put_behind(bytes: &[u8], skipped: u64, out: &mut Vec<u8>) -> Result<u64, Memory>
    ensures ok { OnOk result (out.new.items ≡ out.old.items ++ drop skipped bytes.now) }
    ensures left { IfOk result (λ left. left ≡ skipped - length bytes.now) }
    ensures err { OnErr result (out.new.items ≡ out.old.items) }
    ensures capacity { vec_capacity out.old ≤ vec_capacity out.new }
    ensures full { OnErr result (vec_capacity out.old < vec_len out.old + length (drop skipped bytes.now)) }
{
    let len = bytes.len() as u64;
    if len <= skipped {
        return Ok(skipped - len);
    }
    let (_, behind) = bytes.split_at(skipped as usize);
    out.extend_from_slice(behind)?;
    Ok(0)
}
