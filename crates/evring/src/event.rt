use crate::{Kept, Reason, Way};
use chunkpart::Chunk;
use prio_budget::Charge;
use streamkey::{End, Key, Proto};

/// What a core tells its worker of a conversation, which is named by the number of its first packet.
#[derive(Drop)]
pub enum Event<C: Charge> {
    /// It opened: its first packet goes from `source` to `target`.
    New {
        conv: u32,
        proto: Proto,
        source: End,
        target: End,
    },
    /// Bytes of one direction, with the chunks that were kept before.
    Chunk {
        conv: u32,
        way: Way,
        key: Key,
        kept: Kept<C>,
        chunk: Chunk<C>,
    },
    /// It ended.
    Ended {
        conv: u32,
        reason: Reason,
    },
}
