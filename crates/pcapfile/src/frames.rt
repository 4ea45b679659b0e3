ghost use Rattle.std.specs.Prelude.{◌≡◌, ◌≢◌, ◌+◌, ◌*◌, ◌≤◌, ◌<◌, ◌⊎◌, ◌++◌, ◌^◌, [], IfOk, OnOk, OnErr, length, drop, vec_len};
ghost use Rattle.std.specs.Vec.{vec_capacity};

use crate::found::{Found, found_at};
use crate::limits::{HEAD_SIZE, HEADER_SIZE};
use crate::{FileHead, Frame, FrameBytes, Memory, Next, Tail};
use std::alloc::Global;
use std::marker::Model;

/// The records of a capture behind its file header, as its bytes come: an offset in the file, the number of records
/// before it, and the bytes from there that have come.
#[derive(Drop)]
pub struct Frames {
    alloc: Global,
    head: FileHead,
    most_frames: u32,
    most_bytes: u64,
    count: u32,
    at: u64,
    stream: Vec<u8>,
    place: usize,
}

impl Model for Frames {
    ghost use Rattle.std.specs.Prelude.{◌+◌, ◌*◌, ◌≤◌, drop, vec_len};
    ghost use Rattle.pcapfile.specs.State.{State};

    ghost Value = { State };

    ghost view = { λ f. record {
      head = f.head;
      limits = record { frames = f.most_frames; bytes = f.most_bytes };
      at = f.at;
      count = f.count;
      rest = drop f.place f.stream.items;
    } };

    // The bytes before `place` were read, and no more of them are kept than of those that were not. The offset stays
    // below 2 ^ 64, since each record has at most 262,160 bytes.
    ghost invariant = { λ f. (2 * f.place ≤ vec_len f.stream) × (f.count ≤ f.most_frames) × (f.at ≤ 24 + 262160 * f.count) };
}

/// Lets go of the bytes before a place once they are more than the others, and answers the place of the others. No
/// more bytes are moved than are let go.
fn let_go(bytes: &mut Vec<u8>, place: usize) -> usize
    requires { place ≤ vec_len bytes.old }
    ensures others { drop result bytes.new.items ≡ drop place bytes.old.items }
    ensures few { 2 * result ≤ vec_len bytes.new }
    ensures moved { result ≢ place → vec_len bytes.new ≤ place }
{
    if place > bytes.len() / 2 {
        bytes.drain(..place);
        0
    } else {
        place
    }
}

/// Puts a piece behind the bytes. Room that is made is for as many bytes again as there are, so that many small pieces
/// move each byte only a few times.
fn put_behind(bytes: &mut Vec<u8>, piece: &[u8]) -> Result<(), Memory>
    ensures ok { OnOk result (bytes.new.items ≡ bytes.old.items ++ piece.now) }
    ensures err { OnErr result (bytes.new.items ≡ bytes.old.items) }
    ensures memory { OnErr result (0 < length piece.now) }
    ensures ample { OnOk result ((vec_len bytes.old + length piece.now ≤ vec_capacity bytes.old) ⊎ (2 * vec_len bytes.old ≤ vec_capacity bytes.new)) }
{
    let filled = bytes.len();
    if piece.len() > bytes.capacity() - filled {
        bytes.reserve_exact(piece.len().max(filled))?;
    }
    bytes.extend_from_slice(piece)?;
    Ok(())
}

impl Frames {
    ghost use Rattle.std.specs.Prelude.{◌≡◌, ◌<◌, ◌++◌, [], IfOk, OnOk, OnErr, length};
    ghost use Rattle.pcapfile.specs.State.{State};
    ghost use Rattle.pcapfile.specs.Capture.{Ends};
    ghost use Rattle.pcapfile.specs.Reading.{place_at, Answers, IsOpen, IsRecord, end_of_tail};
    ghost use Rattle.pcapfile.specs.Laws.{opened};
    ghost use Rattle.pcapfile.specs.Fed.{StandsFor, IsFed, IsNext, IsFinished};

    /// Nothing has come yet. At most `most_frames` records and `most_bytes` bytes of the file are read.
    pub fn new(alloc: Global, head: FileHead, most_frames: u32, most_bytes: u64) -> Frames
        ensures opened { result ≡ opened head (record { frames = most_frames; bytes = most_bytes }) }
        ensures stands { StandsFor head (record { frames = most_frames; bytes = most_bytes }) [] [] result }
    {
        Frames {
            alloc,
            head,
            most_frames,
            most_bytes,
            count: 0,
            at: HEAD_SIZE as u64,
            stream: Vec::new(alloc),
            place: 0,
        }
    }

    /// Appends to the stream, whose first byte is the one at offset 24 of the file, in time that grows with the piece.
    /// No memory is wanted where nothing is appended.
    pub fn feed(&mut self, piece: &[u8]) -> Result<(), Memory>
        ensures ok { OnOk result (self.new ≡ record self.old { rest = self.old.rest ++ piece.now }) }
        ensures err { OnErr result (self.new ≡ self.old) }
        ensures memory { OnErr result (0 < length piece.now) }
        ensures fed { OnOk result (IsFed self.old piece.now self.new) }
    {
        put_behind(&mut self.stream, piece)?;
        Ok(())
    }

    /// The next record of the stream so far; `More` where no record is whole and no fault stands. A record and a fault
    /// are the same whatever is fed later. Memory is wanted only where a whole record stands.
    pub fn next(&mut self) -> Result<Next, Memory>
        ensures ok { IfOk result (λ next. Answers self.old next self.new) }
        ensures err { OnErr result (self.new ≡ self.old) }
        ensures memory { OnErr result (IsRecord (place_at self.old)) }
        ensures given { IfOk result (λ next. IsNext self.old next self.new) }
    {
        let next = self.read()?;
        Ok(next)
    }

    // What stands next, and the step behind it.
    #[tactic(auto, unfolding(crate::specs::Capture::place_of, crate::specs::Capture::record_at))]
    fn read(&mut self) -> Result<Next, Memory>
        ensures ok { IfOk result (λ next. Answers self.old next self.new) }
        ensures err { OnErr result (self.new ≡ self.old) }
        ensures memory { OnErr result (IsRecord (place_at self.old)) }
    {
        let rest = &self.stream[self.place..];
        let at = self.at;
        match found_at(
            self.head,
            self.most_frames,
            self.most_bytes,
            at,
            self.count,
            rest,
        ) {
            Found::Open => Ok(Next::More),
            Found::Fault(fault) => Ok(Next::Fault(fault)),
            Found::Record { moment, len } => {
                let bytes = Vec::from_slice(self.alloc, &rest[HEADER_SIZE..HEADER_SIZE + len])?;
                self.at += (HEADER_SIZE + len) as u64;
                self.place = let_go(&mut self.stream, self.place + HEADER_SIZE + len);
                self.count += 1;
                Ok(Next::Whole(Frame {
                    at,
                    moment,
                    bytes: FrameBytes::of(bytes),
                }))
            }
        }
    }

    // The bytes that are left behind the last record, where no more come.
    #[tactic(auto, unfolding(crate::specs::Capture::place_of, crate::specs::Capture::record_at))]
    fn tail(&self) -> Tail
        requires { IsOpen (place_at self.now) }
        ensures { place_at self.now ≡ Ends (end_of_tail result) }
    {
        let left = self.stream.len() - self.place;
        if left == 0 {
            Tail::Whole
        } else {
            Tail::Cut { bytes: left as u64 }
        }
    }

    /// How the stream ended, where the last `next` answered `More`.
    pub fn finish(self) -> Tail
        requires { IsOpen (place_at self) }
        ensures tail { place_at self ≡ Ends (end_of_tail result) }
        ensures finished { IsFinished self result }
    {
        self.tail()
    }
}
