// The matches of a capture whose records come in pieces.
ghost use Rattle.std.specs.Prelude.{◌≡◌, ◌<◌, ◌^◌, ◌++◌, OnOk, length};
ghost use Rattle.porthdr.specs.Transport.{kind_of};
ghost use Rattle.labtop.specs.Matching.{is_match, line_for};

use crate::memory::Memory;
use capfilter::Filter;
use linkip::network;
use pcapfile::{FileHead, Frame, FrameFault, Frames, Link, MOST_BYTES, MOST_RECORDS, Next, Tail};
use porthdr::{Seen, transport};
use std::alloc::Global;
use textout::{put_number, put_text};

/// Whether a record is accepted and the filter holds of its packet.
fn is_match(filter: &Filter, link: Link, frame: &Frame) -> bool
    requires { length frame.now.bytes < 2 ^ 32 }
    ensures { result ≡ is_match filter.now (kind_of link frame.now.bytes) }
{
    match transport(network(link, frame.bytes.as_slice())) {
        Seen::Accepted { key, toward, .. } => filter.matches(&key, toward),
        Seen::Skipped(_) => false,
    }
}

/// Appends the line of a record of that number, where it matches.
fn put_match(
    text: &mut Vec<u8>,
    filter: &Filter,
    number: u32,
    link: Link,
    frame: &Frame,
) -> Result<(), Memory>
    requires { length frame.now.bytes < 2 ^ 32 }
    ensures { OnOk result (text.new.items ≡ text.old.items ++ line_for filter.now number (kind_of link frame.now.bytes)) }
{
    if is_match(filter, link, frame) {
        put_number(text, u64::from(number))?;
        put_text(text, "\n")?;
    }
    Ok(())
}

/// What was taken of the bytes that came.
#[derive(Clone, Copy)]
pub(crate) enum Took {
    /// A record.
    Record,
    /// Nothing: no record is whole yet.
    More,
    /// Nothing, and no record can follow.
    Fault(FrameFault),
}

/// The lines of the records that match, and how the capture ended.
#[derive(Drop)]
pub(crate) struct Matches {
    pub text: Vec<u8>,
    pub end: Result<Tail, FrameFault>,
}

/// A capture that is read: the link and the records as they come, how many there were, and the lines of those that match.
#[derive(Drop)]
pub(crate) struct Matching {
    pub link: Link,
    pub frames: Frames,
    pub number: u32,
    pub text: Vec<u8>,
}

impl Matching {
    ghost use Rattle.std.specs.Prelude.{◌≡◌, ◌≤◌, ◌<◌, ◌+◌, ◌++◌, ℕ, List, IfOk, OnOk, length};
    ghost use Rattle.capfilter.specs.Expr.{Expr};
    ghost use Rattle.pcapfile.specs.declared.head.FileHead.{FileHead as Head};
    ghost use Rattle.pcapfile.specs.Reading.{IsOpen, place_at};
    ghost use Rattle.labtop.specs.Drill.{limits};
    ghost use Rattle.labtop.specs.Matched.{came, HasAll, HasFault, HasRead, HasReadTo, HasTaken, IsInside};

    /// A capture of which these bytes came behind its head.
    pub(crate) fn begin(alloc: Global, head: FileHead, rest: &[u8]) -> Result<Matching, Memory>
        ensures inside { IfOk result IsInside }
        ensures read { (filter : Expr) → IfOk result (λ m. HasRead filter head rest.now m) }
    {
        let mut frames = Frames::new(alloc, head, MOST_RECORDS, MOST_BYTES);
        frames.feed(rest)?;
        Ok(Matching {
            link: head.link,
            frames,
            number: 0,
            text: Vec::new(alloc),
        })
    }

    /// Takes the next record.
    fn take_record(&mut self, filter: &Filter) -> Result<Took, Memory>
        requires { IsInside self.old }
        ensures inside { OnOk result (IsInside self.new) }
        ensures came { OnOk result (came self.new ≡ came self.old) }
        ensures less { IfOk result (λ took. took ≡ Took.Record → length self.new.frames.rest < length self.old.frames.rest) }
        ensures open { IfOk result (λ took. took ≡ Took.More → IsOpen (place_at self.new.frames)) }
        ensures room { IfOk result (λ took. took ≡ Took.More → came self.new ≤ limits.bytes) }
        ensures read { (head : Head) (fed : List ℕ) → HasRead filter.now head fed self.old → IfOk result (λ took. HasTaken filter.now head fed took self.new) }
    {
        match self.frames.next()? {
            Next::Whole(frame) => {
                self.number += 1;
                put_match(&mut self.text, filter, self.number, self.link, &frame)?;
                Ok(Took::Record)
            }
            Next::More => Ok(Took::More),
            Next::Fault(fault) => Ok(Took::Fault(fault)),
        }
    }

    /// Takes the records that are whole, and answers a fault that stands behind them.
    pub(crate) fn take_records(&mut self, filter: &Filter) -> Result<Option<FrameFault>, Memory>
        requires { IsInside self.old }
        ensures inside { OnOk result (IsInside self.new) }
        ensures came { OnOk result (came self.new ≡ came self.old) }
        ensures open { IfOk result (λ fault. fault ≡ None → IsOpen (place_at self.new.frames)) }
        ensures room { IfOk result (λ fault. fault ≡ None → came self.new ≤ limits.bytes) }
        ensures read { (head : Head) (fed : List ℕ) → HasRead filter.now head fed self.old → IfOk result (λ fault. HasReadTo filter.now head fed fault self.new) }
    {
        'records: loop {
            match self.take_record(filter)? {
                Took::Record => {}
                Took::More => return Ok(None),
                Took::Fault(fault) => return Ok(Some(fault)),
            }
        }
    }

    /// Appends to the bytes that came.
    pub(crate) fn feed(&mut self, piece: &[u8]) -> Result<(), Memory>
        requires { IsInside self.old }
        ensures inside { OnOk result (IsInside self.new) }
        ensures came { OnOk result (came self.new ≡ came self.old + length piece.now) }
        ensures read { (filter : Expr) (head : Head) (fed : List ℕ) → HasRead filter head fed self.old → OnOk result (HasRead filter head (fed ++ piece.now) self.new) }
    {
        self.frames.feed(piece)?;
        Ok(())
    }

    /// No more bytes come.
    pub(crate) fn finish(self) -> Matches
        requires { IsOpen (place_at self.frames) }
        ensures { (filter : Expr) (head : Head) (bytes : List ℕ) → HasRead filter head bytes self → HasAll filter head bytes result }
    {
        let Matching { frames, text, .. } = self;
        Matches {
            text,
            end: Ok(frames.finish()),
        }
    }

    /// No more records follow.
    pub(crate) fn stop(self, fault: FrameFault) -> Matches
        ensures { (filter : Expr) (head : Head) (fed rest : List ℕ) → HasFault filter head fed fault self → HasAll filter head (fed ++ rest) result }
    {
        Matches {
            text: self.text,
            end: Err(fault),
        }
    }
}
