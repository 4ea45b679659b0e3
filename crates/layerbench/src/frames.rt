use crate::Fault;
use pcapfile::{
    FileHead, Frame, Frames, HEAD_SIZE, LONGEST_RECORD, MOST_BYTES, MOST_RECORDS, Next, put_frame,
    put_head,
};
use std::alloc::Global;

/// What came of a capture.
#[derive(Clone, Copy)]
pub struct Sums {
    pub records: u64,
    pub bytes: u64,
}

impl Sums {
    fn add(&mut self, frame: &Frame) {
        let len = frame.bytes.as_slice().len() as u64;
        self.records = self.records.saturating_add(1);
        self.bytes = self.bytes.saturating_add(len);
    }
}

/// A written capture of so many records of so many bytes.
pub fn written(alloc: Global, records: usize, len: usize) -> Result<Vec<u8>, Fault> {
    if len > LONGEST_RECORD as usize {
        return Err(Fault::Words);
    }
    let bytes = vec![in alloc; 7; len]?;
    let mut capture = Vec::new(alloc);
    put_head(&mut capture)?;
    for i in 0..records {
        put_frame(&mut capture, (i % 65_536) as u32, 0, &bytes)?;
    }
    Ok(capture)
}

/// Reads a capture in pieces of so many bytes.
pub fn read(alloc: Global, capture: &[u8], size: usize) -> Result<Sums, Fault> {
    let Ok(head) = FileHead::read(capture) else {
        return Err(Fault::Words);
    };
    if size == 0 {
        return Err(Fault::Words);
    }
    let mut frames = Frames::new(alloc, head, MOST_RECORDS, MOST_BYTES);
    let mut sums = Sums {
        records: 0,
        bytes: 0,
    };
    for piece in capture[HEAD_SIZE..].chunks(size) {
        frames.feed(piece)?;
        take_records(&mut frames, piece.len(), &mut sums)?;
    }
    Ok(sums)
}

/// Takes all records that a piece has made whole. Each has bytes of the piece, so they are at most its bytes.
fn take_records(frames: &mut Frames, fed: usize, sums: &mut Sums) -> Result<(), Fault> {
    for _ in 0..=fed {
        match frames.next()? {
            Next::Whole(frame) => sums.add(&frame),
            Next::More => break,
            Next::Fault(_) => break,
        }
    }
    Ok(())
}
