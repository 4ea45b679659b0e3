use chunkpart::Chunk;
use histbook::LookEntry;
use prio_budget::PlainCharge;

/// What a datagram's entry has and hands over: its look, the chunk that a gap closed, and the one that was full.
#[derive(Drop)]
pub struct Entered {
    pub look: Option<LookEntry>,
    pub closed: Option<Chunk<PlainCharge>>,
    pub full: Option<Chunk<PlainCharge>>,
}
