//! Capture files of pcap 2.4: the file header, the records behind it as the bytes of the file come, and captures that are written.
//! Each answer is the one that the definition of a capture in specs/ gives for the bytes so far, and a record or a fault stays the answer whatever comes behind.
//! Stands on byteorder.
#![tactic(auto)]

mod bytes;
mod found;
mod frame;
mod frame_fault;
mod frames;
mod head;
mod head_fault;
pub mod laws;
mod limits;
mod link;
mod memory;
mod next;
mod number;
mod put;
pub mod rows;
mod tail;
#[cfg(test)]
mod tests;

pub use bytes::FrameBytes;
pub use frame::Frame;
pub use frame_fault::FrameFault;
pub use frames::Frames;
pub use head::FileHead;
pub use head_fault::HeadFault;
pub use limits::{HEAD_SIZE, HEADER_SIZE, LONGEST_RECORD, MOST_BYTES, MOST_RECORDS, READ_SIZE};
pub use link::Link;
pub use memory::Memory;
pub use next::Next;
pub use put::{put_frame, put_head};
pub use tail::Tail;
