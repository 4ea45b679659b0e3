ghost use Rattle.std.specs.Prelude.{◌≡◌, ◌<◌, ◌≤◌, ◌^◌, length, Some, IfSome, IfOk, OnOk};
ghost use Rattle.flowdir.specs.Boundary.{asked_by};
ghost use Rattle.flowdir.specs.Kept.{bytes_next};

use crate::pool::{Granted, Pool};
use crate::{Counts, Dir, Seg, Step};
use overpolicy::Shape;
use std::alloc::Global;
use std::test::Fail;

/// Tells a direction what its ask was answered.
pub(crate) fn tell(
    alloc: Global,
    dir: &mut Dir<Granted>,
    shape: &Shape,
    granted: Option<Granted>,
) -> Result<Step<Granted>, Fail>
    requires { IfSome granted (λ charge. bytes_next dir.old.work ≡ Some charge.amount) }
    ensures asked { IfOk result (λ step. bytes_next dir.new.work ≡ asked_by step) }
    ensures last { dir.new.last ≡ dir.old.last }
{
    match dir.told(alloc, shape, granted) {
        Ok(step) => Ok(step),
        Err(_) => Err("told: out of memory".into()),
    }
}

/// Tells it that its charge was given back.
pub(crate) fn free(dir: &mut Dir<Granted>) -> Result<Step<Granted>, Fail>
    ensures asked { IfOk result (λ step. bytes_next dir.new.work ≡ asked_by step) }
    ensures last { dir.new.last ≡ dir.old.last }
{
    match dir.freed() {
        Ok(step) => Ok(step),
        Err(_) => Err("freed: out of memory".into()),
    }
}

/// Answers what an entry wants until it is done.
pub(crate) fn serve(
    alloc: Global,
    dir: &mut Dir<Granted>,
    shape: &Shape,
    pool: &mut Pool,
    first: Step<Granted>,
) -> Result<Counts, Fail>
    requires { bytes_next dir.old.work ≡ asked_by first }
    ensures last { dir.new.last ≡ dir.old.last }
{
    let mut step = first;
    'wants: for _ in 0..100 {
        step = match step {
            Step::Done(counts) => return Ok(counts),
            Step::Ask { bytes } => tell(alloc, dir, shape, pool.ask(bytes))?,
            Step::Free(charge) => {
                pool.give(charge);
                free(dir)?
            }
        };
    }
    Err("an entry goes on and on".into())
}

/// A segment comes.
pub(crate) fn come(
    alloc: Global,
    dir: &mut Dir<Granted>,
    shape: &Shape,
    pool: &mut Pool,
    seg: &Seg<'_>,
    cutoff: Option<u64>,
) -> Result<Counts, Fail>
    requires number { (dir.old.last < seg.now.number) × (seg.now.number ≤ 2 ^ 22) }
    requires now { seg.now.now ≤ 2 ^ 62 }
    ensures last { OnOk result (dir.new.last ≡ seg.entry.now.number) }
{
    if seg.payload.len() > 262_144 {
        return Err("too many bytes".into());
    }
    let Ok(step) = dir.begin(alloc, shape, seg, cutoff) else {
        return Err("begin: out of memory".into());
    };
    serve(alloc, dir, shape, pool, step)
}

/// A hole or a flush falls due.
pub(crate) fn fall_due(
    alloc: Global,
    dir: &mut Dir<Granted>,
    shape: &Shape,
    pool: &mut Pool,
    at: u64,
) -> Result<Counts, Fail>
    requires { at ≤ 2 ^ 62 }
    ensures last { dir.new.last ≡ dir.old.last }
{
    match dir.time(alloc, shape, at) {
        Ok(step) => serve(alloc, dir, shape, pool, step),
        Err(_) => Err("time: out of memory".into()),
    }
}

/// A direction ends.
pub(crate) fn end(alloc: Global, dir: &mut Dir<Granted>, shape: &Shape) -> Result<Counts, Fail> {
    let mut pool = Pool::new(0, 0);
    match dir.end(alloc, 0) {
        Ok(step) => serve(alloc, dir, shape, &mut pool, step),
        Err(_) => Err("end: out of memory".into()),
    }
}
