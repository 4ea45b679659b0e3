ghost use Rattle.std.specs.Prelude.{◌≡◌, ◌+◌, ◌<◌, ◌≤◌, ◌^◌, IfOk, OnOk};

use crate::pool::{Granted, Pool};
use crate::serving::{come, end};
use crate::slow::{ORIGIN, Slow};
use crate::{Counts, Dir, DirMode, Seg};
use overpolicy::{Mode, Policy, Shape};
use seqspace::Seq;
use std::alloc::Global;
use std::test::Fail;

/// What segments bring: each has its own twenty bytes.
const TEXT: &str =
    "abcdefghijklmnopqrstuvwxyzABCDEFGHIJKLMNOPQRSTUVWXYZ0123456789+/zyxwvutsrqponmlkjihgfedcbaZYXWVUTSRQPONMLKJIHGFEDCBA9876543210-_abcdefghijklmnopqrstuvwxyzABCDEFGHIJKLMNOP";

/// A generator of drawn numbers.
#[derive(Clone, Copy)]
struct Draws {
    state: u64,
}

impl Draws {
    fn below(&mut self, k: u32) -> u32
        requires { 1 ≤ k }
        ensures { result < k }
    {
        self.state = self
            .state
            .wrapping_mul(6364136223846793005)
            .wrapping_add(1442695040888963407);
        ((self.state >> 32) as u32) % k
    }

    /// Bits of which one in four is set.
    fn refusals(&mut self) -> u64 {
        let mut bits = 0;
        for _ in 0..64 {
            bits = bits << 1;
            if self.below(4) == 0 {
                bits |= 1;
            }
        }
        bits
    }

    fn policy(&mut self) -> Policy {
        match self.below(4) {
            0 => Policy::First,
            1 => Policy::Last,
            2 => Policy::Bsd,
            _ => Policy::Linux,
        }
    }
}

/// A strict direction beside the slow one, each with its own budget.
#[derive(Drop)]
struct Pair {
    shape: Shape,
    cutoff: u32,
    dir: Dir<Granted>,
    pool: Pool,
    slow: Slow,
    slow_pool: Pool,
}

fn drawn_pair(alloc: Global, draws: &mut Draws) -> Result<Pair, Fail>
    ensures { IfOk result (λ pair. pair.dir.last ≡ 0) }
{
    let policy = draws.policy();
    let reorder = draws.below(41);
    let refused = draws.refusals();
    // One list in three has a cutoff within reach.
    let cutoff = draws.below(180);
    let shape = Shape {
        mode: Mode::Strict,
        policy,
        chunk: 16384,
        overlap: 0,
        flush: 0,
        hole: 1_000_000_000,
        reorder,
        idle: 300_000_000_000,
    };
    Ok(Pair {
        shape,
        cutoff,
        dir: Dir::new(alloc, DirMode::Strict),
        pool: Pool::new(1_000_000, refused),
        slow: Slow::new(alloc, policy, reorder as usize)?,
        slow_pool: Pool::new(1_000_000, refused),
    })
}

impl Pair {
    /// A segment comes to both, at a place counted from `ORIGIN` before the stream.
    fn arrive(&mut self, alloc: Global, number: u32, at: u32, bytes: &[u8]) -> Result<bool, Fail>
        requires { (self.old.dir.last < number) × (number ≤ 2 ^ 22) }
        ensures { OnOk result (self.new.dir.last ≡ number) }
    {
        let seg = Seg {
            number,
            now: 0,
            seq: Seq(992_u32.wrapping_add(at)),
            syn: number == 1,
            fin: false,
            live: true,
            declared: 0,
            payload: bytes,
        };
        let cutoff = Some(u64::from(self.cutoff));
        let counts = come(
            alloc,
            &mut self.dir,
            &self.shape,
            &mut self.pool,
            &seg,
            cutoff,
        )?;
        let limit = ORIGIN.saturating_add(self.cutoff as usize);
        let wanted = self
            .slow
            .arrive(alloc, at as usize, bytes, limit, &mut self.slow_pool)?;
        Ok(counts == wanted && self.is_level())
    }

    /// Whether both were asked for the same and stand at one front.
    fn is_level(&self) -> bool {
        let front = self.slow.front().saturating_sub(ORIGIN) as u64;
        self.dir.front() == front && self.pool.sum() == self.slow_pool.sum()
    }

    /// Both end. Gives whether they have the same stream.
    fn end(&mut self, alloc: Global) -> Result<bool, Fail> {
        end(alloc, &mut self.dir, &self.shape)?;
        let stream = stream(alloc, &mut self.dir)?;
        Ok(stream == self.slow.end(alloc)?)
    }
}

/// What a direction hands over: the bytes shown, a dot for each byte of a gap.
fn stream(alloc: Global, dir: &mut Dir<Granted>) -> Result<Vec<u8>, Fail> {
    let mut stream = Vec::new(alloc);
    for _ in 0..100 {
        let Some(chunk) = dir.take_closed() else {
            return Ok(stream);
        };
        for _ in 0..chunk.gap() {
            stream.push(b'.')?;
        }
        if chunk.start() != stream.len() as u64 || chunk.shown(&mut stream).is_err() {
            return Err("a delivery has another start".into());
        }
    }
    Err("deliveries go on and on".into())
}

/// Whether a drawn list of segments comes out as the slow direction has it.
fn is_alike(alloc: Global, seed: u64) -> Result<bool, Fail> {
    let mut draws = Draws { state: seed };
    let mut pair = drawn_pair(alloc, &mut draws)?;
    let mut text = TEXT.as_bytes();
    // A SYN, whose own number is the one before the stream's first byte.
    let mut alike = pair.arrive(alloc, 1, 7, &[])?;
    let mut number: u32 = 1;
    'segments: for _ in 0..8 {
        if number >= 100 {
            return Err("too many segments".into());
        }
        number += 1;
        let at = draws.below(60);
        let len = draws.below(21) as usize;
        let Some((own, rest)) = text.split_at_checked(20) else {
            return Err("no text is left".into());
        };
        text = rest;
        let bytes = own.get(..len).ok_or("the text is short")?;
        alike = pair.arrive(alloc, number, at, bytes)? && alike;
    }
    Ok(pair.end(alloc)? && alike)
}

#[test]
fn drawn_segments_come_out_as_kept_position_by_position(rt: HostRuntime) -> Result<(), Fail> {
    for seed in 0..2000 {
        assert!(rt; is_alike(rt.alloc(), seed)?, "{seed}");
    }
    Ok(())
}
