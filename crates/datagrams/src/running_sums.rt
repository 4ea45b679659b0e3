ghost use Rattle.std.specs.Prelude.{◌≡◌, ◌+◌, ◌-◌, ◌<◌, ◌≤◌, ◌^◌};
ghost use Rattle.datagrams.specs.Flow.{chunk_of, size};
ghost use Rattle.datagrams.specs.Sums.{no_sums, with_chunk, with_datagram};

use chunkpart::Chunk;
use prio_budget::PlainCharge;
use std::marker::Model;

/// The numbers of one direction so far: its bytes that came, were handed over, were granted and were refused, and its gaps
/// and their bytes.
#[derive(Clone, Copy, Debug, PartialEq, Eq)]
pub struct RunningSums {
    pub payload: u64,
    pub delivered: u64,
    pub taken: u64,
    pub shed: u64,
    pub gaps: u64,
    pub gap_bytes: u64,
}

impl Model for RunningSums {
    ghost use Rattle.datagrams.specs.Sums.{Sums};

    ghost Value = { Sums };

    ghost view = { λ s. record { payload = s.payload; delivered = s.delivered; taken = s.taken; shed = s.shed; gaps = s.gaps; gap_bytes = s.gap_bytes } };

    ghost inverse = { λ s. record { payload = s.payload; delivered = s.delivered; taken = s.taken; shed = s.shed; gaps = s.gaps; gap_bytes = s.gap_bytes } };
}

impl RunningSums {
    /// Before any datagram.
    pub fn new() -> RunningSums
        ensures { result ≡ no_sums }
    {
        RunningSums {
            payload: 0,
            delivered: 0,
            taken: 0,
            shed: 0,
            gaps: 0,
            gap_bytes: 0,
        }
    }

    /// Counts a datagram of so many bytes, of which so many were granted.
    pub fn count_datagram(&mut self, payload: u64, taken: u64)
        requires part { taken ≤ payload }
        requires payload { self.old.payload + payload < 2 ^ 64 }
        requires taken { self.old.taken + taken < 2 ^ 64 }
        requires shed { self.old.shed + (payload - taken) < 2 ^ 64 }
        ensures { self.new ≡ with_datagram self.old payload taken }
    {
        self.payload += payload;
        self.taken += taken;
        self.shed += payload - taken;
    }

    /// Counts a chunk that is handed over, and the gap before it.
    pub fn count_chunk(&mut self, chunk: &Chunk<PlainCharge>)
        requires delivered { self.old.delivered + size (chunk_of chunk.now).parts < 2 ^ 64 }
        requires gap_bytes { self.old.gap_bytes + chunk.now.gap < 2 ^ 64 }
        requires gaps { self.old.gaps ≤ self.old.gap_bytes }
        ensures { self.new ≡ with_chunk self.old (chunk_of chunk.now) }
    {
        let gap = chunk.gap();
        self.delivered += chunk.fresh_len();
        self.gap_bytes += gap;
        if gap > 0 {
            self.gaps += 1;
        }
    }
}
