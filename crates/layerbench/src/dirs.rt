ghost use Rattle.std.specs.Prelude.{◌≡◌, ◌<◌, ◌≤◌, ◌^◌, length, IfOk, OnOk};
ghost use Rattle.flowdir.specs.Boundary.{asked_by};
ghost use Rattle.flowdir.specs.Kept.{bytes_next};

use crate::Fault;
use flowdir::{Dir, DirMode, Seg, Step};
use overpolicy::{Mode, Policy, Shape};
use prio_budget::Charge;
use seqspace::Seq;
use std::alloc::Global;

/// What a grant leaves, by a budget that grants all.
#[derive(Drop)]
pub struct Granted(pub u32);

impl Charge for Granted {
    ghost use Rattle.prio_budget.specs.Share.{no_share};

    ghost amount = { λ c. c.0 };

    ghost stamp = { λ _. 0 };

    ghost share = { λ _. no_share };

    fn amount(&self) -> u32 {
        self.0
    }

    fn stamp(&self) -> u32 {
        0
    }
}

/// No front jumps for what is held.
const SHAPE: Shape = Shape {
    mode: Mode::Strict,
    policy: Policy::Linux,
    chunk: 16_384,
    overlap: 0,
    flush: 0,
    hole: 1_000_000_000,
    reorder: 1_000_000_000,
    idle: 300_000_000_000,
};

/// How far apart the fragments begin that are held.
const SPACE: u32 = 100;

/// Grants all that a segment asks for, and tells how many of its bytes were taken.
fn serve(alloc: Global, dir: &mut Dir<Granted>, first: Step<Granted>) -> Result<u64, Fault>
    requires { bytes_next dir.old.work ≡ asked_by first }
    ensures { dir.new.last ≡ dir.old.last }
{
    let mut step = first;
    'wants: for _ in 0..1_000_000 {
        step = match step {
            Step::Done(counts) => return Ok(counts.taken),
            Step::Ask { bytes } => dir.told(alloc, &SHAPE, Some(Granted(bytes)))?,
            Step::Free(_) => dir.freed()?,
        };
    }
    Err(Fault::Memory)
}

/// A segment comes whose first byte has this sequence number.
fn come(
    alloc: Global,
    dir: &mut Dir<Granted>,
    number: u32,
    seq: u32,
    payload: &[u8],
) -> Result<u64, Fault>
    requires { (dir.old.last < number) × (number ≤ 2 ^ 22) }
    ensures { OnOk result (dir.new.last ≡ number) }
{
    if payload.len() > 262_144 {
        return Err(Fault::Words);
    }
    let seg = Seg {
        number,
        now: 0,
        seq: Seq(seq),
        syn: false,
        fin: false,
        live: true,
        declared: 0,
        payload,
    };
    let step = dir.begin(alloc, &SHAPE, &seg, None)?;
    serve(alloc, dir, step)
}

/// So many segments of some bytes, each behind the one before: how many bytes were taken.
pub fn in_order(alloc: Global, segments: u32, payload: &[u8]) -> Result<u64, Fault> {
    let len = u32::try_from(payload.len()).map_err(|_| Fault::Words)?;
    let mut dir = Dir::new(alloc, DirMode::Strict);
    let mut taken: u64 = 0;
    let mut seq: u32 = 0;
    let mut number: u32 = 0;
    'segments: for _ in 0..segments {
        if number >= 4_000_000 {
            return Err(Fault::Words);
        }
        number += 1;
        taken = taken.saturating_add(come(alloc, &mut dir, number, seq, payload)?);
        seq = seq.wrapping_add(len);
        let _ = dir.take_closed();
    }
    Ok(taken)
}

/// Where the k-th segment begins: first so many fragments, with holes between, then anywhere over them, past the first hole.
fn scattered(k: u32, fragments: u32) -> u32 {
    if k < fragments || fragments == 0 {
        return SPACE.wrapping_mul(k);
    }
    let fragment = k.wrapping_mul(7_919) % fragments;
    SPACE
        .wrapping_mul(fragment.saturating_add(1))
        .saturating_add(20)
}

/// So many fragments that are held, and then so many segments over them: how many bytes were taken.
pub fn over_held(
    alloc: Global,
    fragments: u32,
    segments: u32,
    payload: &[u8],
) -> Result<u64, Fault> {
    let mut dir = Dir::new(alloc, DirMode::Strict);
    let mut taken: u64 = 0;
    let mut number: u32 = 0;
    'segments: for k in 0..fragments.saturating_add(segments) {
        if number >= 4_000_000 {
            return Err(Fault::Words);
        }
        number += 1;
        let seq = scattered(k, fragments);
        taken = taken.saturating_add(come(alloc, &mut dir, number, seq, payload)?);
    }
    Ok(taken)
}
