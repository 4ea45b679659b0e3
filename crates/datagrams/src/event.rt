use chunkpart::Chunk;
use evring::{Reason, Way};
use prio_budget::PlainCharge;
use std::marker::Model;
use streamkey::{Key, Toward};

/// An event of a conversation, whose handler is still to be told.
#[derive(Drop)]
pub enum Event {
    /// The conversation began, with the way of its first packet.
    Opened { key: Key, toward: Toward },
    /// A chunk of one direction was handed over.
    Handed { way: Way, chunk: Chunk<PlainCharge> },
    /// The conversation ended.
    Over { reason: Reason },
}
