//! The layers below the commands at work, for the scripts of bench/: `frames RECORDS LENGTH PIECE`, `hash BYTES`, `cores KEYS`,
//! `ring ITEMS PLACES`, `word THREADS ASKS`, `locked THREADS ASKS`, `dues IDS`, `order SEGMENTS LENGTH`,
//! `held FRAGMENTS SEGMENTS LENGTH`, `events EVENTS LENGTH` or `copies COPIES LENGTH`; `each` does a little of each.
//! It prints what came of it, and where the last word is `timed` the nanoseconds that the work took.
//! Stands on pcapfile, streamkey, evring, prio_budget, deadlines, flowdir and workrun.
#![tactic(auto)]

mod budgets;
mod dirs;
mod dues;
mod events;
mod fault;
mod frames;
mod hashes;
mod rings;

use fault::Fault;
use std::env;
use std::process::ExitCode;
use std::rt::{Clock, Env};
use std::sync::Wait;
use std::thread::Threads;
use std::time::Instant;
use streamkey::toeplitz;

/// The number at a place of the words.
fn number(words: &[String], at: usize) -> Result<usize, Fault> {
    match words.get(at) {
        Some(word) => word.parse().map_err(|_| Fault::Words),
        None => Err(Fault::Words),
    }
}

/// The same, below 2^32.
fn short_number(words: &[String], at: usize) -> Result<u32, Fault> {
    u32::try_from(number(words, at)?).map_err(|_| Fault::Words)
}

fn has_word(words: &[String], at: usize, text: &str) -> bool {
    match words.get(at) {
        Some(word) => word.as_str() == text,
        None => false,
    }
}

/// Reads a written capture in pieces of some size. Tells the nanoseconds.
fn bench_frames<R: Print + Clock + AllocGlobal>(
    rt: &R,
    records: usize,
    len: usize,
    piece: usize,
) -> Result<u128, Fault> {
    let capture = frames::written(rt.alloc(), records, len)?;
    let start = Instant::now(rt)?;
    let sums = frames::read(rt.alloc(), &capture, piece)?;
    let nanos = start.elapsed(rt)?.as_nanos();
    println!(rt; "records {} bytes {}", sums.records, sums.bytes)?;
    Ok(nanos)
}

/// Hashes so many bytes at once.
fn bench_hash<R: Print + Clock + AllocGlobal>(rt: &R, bytes: usize) -> Result<u128, Fault> {
    let input = hashes::bytes(rt.alloc(), bytes)?;
    let start = Instant::now(rt)?;
    let hash = toeplitz(&input);
    let nanos = start.elapsed(rt)?.as_nanos();
    println!(rt; "hash {hash}")?;
    Ok(nanos)
}

/// Finds the cores of so many keys.
fn bench_cores<R: Print + Clock>(rt: &R, keys: usize) -> Result<u128, Fault> {
    let start = Instant::now(rt)?;
    let sum = hashes::cores(keys);
    let nanos = start.elapsed(rt)?.as_nanos();
    println!(rt; "sum {sum}")?;
    Ok(nanos)
}

/// Passes so many numbers through a ring from one thread to another.
fn bench_ring<R: Print + Clock + AllocGlobal + Threads + Wait + Sync>(
    rt: &R,
    items: usize,
    places: usize,
) -> Result<u128, Fault> {
    let start = Instant::now(rt)?;
    let right = rings::pass(rt, rt.alloc(), items as u64, places)?;
    let nanos = start.elapsed(rt)?.as_nanos();
    println!(rt; "right {right}")?;
    Ok(nanos)
}

/// Asks the budget word in so many threads.
fn bench_word<R: Print + Clock + AllocGlobal + Threads + Sync>(
    rt: &R,
    threads: usize,
    asks: u32,
) -> Result<u128, Fault> {
    let start = Instant::now(rt)?;
    let grants = budgets::word(rt, rt.alloc(), threads, asks)?;
    let nanos = start.elapsed(rt)?.as_nanos();
    println!(rt; "granted {grants}")?;
    Ok(nanos)
}

/// Asks a plain budget behind a lock in so many threads.
fn bench_locked<R: Print + Clock + Threads + Wait + Sync>(
    rt: &R,
    threads: usize,
    asks: u32,
) -> Result<u128, Fault> {
    let start = Instant::now(rt)?;
    let grants = budgets::locked(rt, threads, asks)?;
    let nanos = start.elapsed(rt)?.as_nanos();
    println!(rt; "granted {grants}")?;
    Ok(nanos)
}

/// Sets moments for so many ids, sets them anew, and takes them out as they fall due.
fn bench_dues<R: Print + Clock + AllocGlobal>(rt: &R, ids: u32) -> Result<u128, Fault> {
    let start = Instant::now(rt)?;
    let right = dues::in_order(rt.alloc(), ids)?;
    let nanos = start.elapsed(rt)?.as_nanos();
    println!(rt; "in order {right}")?;
    Ok(nanos)
}

/// So many segments of a direction, each behind the one before.
fn bench_order<R: Print + Clock + AllocGlobal>(
    rt: &R,
    segments: u32,
    len: usize,
) -> Result<u128, Fault> {
    let payload = hashes::bytes(rt.alloc(), len)?;
    let start = Instant::now(rt)?;
    let taken = dirs::in_order(rt.alloc(), segments, &payload)?;
    let nanos = start.elapsed(rt)?.as_nanos();
    println!(rt; "taken {taken}")?;
    Ok(nanos)
}

/// So many segments of a direction over fragments that are held.
fn bench_held<R: Print + Clock + AllocGlobal>(
    rt: &R,
    fragments: u32,
    segments: u32,
    len: usize,
) -> Result<u128, Fault> {
    let payload = hashes::bytes(rt.alloc(), len)?;
    let start = Instant::now(rt)?;
    let taken = dirs::over_held(rt.alloc(), fragments, segments, &payload)?;
    let nanos = start.elapsed(rt)?.as_nanos();
    println!(rt; "taken {taken}")?;
    Ok(nanos)
}

/// Serves so many chunks by a worker.
fn bench_events<R: Print + Clock + AllocGlobal>(
    rt: &R,
    count: u32,
    len: usize,
) -> Result<u128, Fault> {
    let payload = hashes::bytes(rt.alloc(), len)?;
    let chunks = events::chunks(rt.alloc(), count, &payload)?;
    let start = Instant::now(rt)?;
    let written = events::served(rt.alloc(), chunks)?;
    let nanos = start.elapsed(rt)?.as_nanos();
    println!(rt; "written {written}")?;
    Ok(nanos)
}

/// Copies so many texts.
fn bench_copies<R: Print + Clock + AllocGlobal>(
    rt: &R,
    count: u32,
    len: usize,
) -> Result<u128, Fault> {
    let text = hashes::bytes(rt.alloc(), len)?;
    let start = Instant::now(rt)?;
    let copied = events::copied(rt.alloc(), count, &text)?;
    let nanos = start.elapsed(rt)?.as_nanos();
    println!(rt; "copied {copied}")?;
    Ok(nanos)
}

/// Does a little of each. What it prints is always the same.
fn bench_each<R: Print + Clock + AllocGlobal + Threads + Wait + Sync>(
    rt: &R,
) -> Result<u128, Fault> {
    let mut nanos = bench_frames(rt, 1_000, 60, 1_500)?;
    nanos = nanos.saturating_add(bench_hash(rt, 20_001)?);
    nanos = nanos.saturating_add(bench_cores(rt, 1_000)?);
    nanos = nanos.saturating_add(bench_ring(rt, 10_000, 16)?);
    nanos = nanos.saturating_add(bench_word(rt, 1, 10_000)?);
    nanos = nanos.saturating_add(bench_locked(rt, 4, 10_000)?);
    nanos = nanos.saturating_add(bench_dues(rt, 1_000)?);
    nanos = nanos.saturating_add(bench_order(rt, 1_000, 100)?);
    nanos = nanos.saturating_add(bench_held(rt, 100, 1_000, 90)?);
    nanos = nanos.saturating_add(bench_events(rt, 1_000, 100)?);
    Ok(nanos.saturating_add(bench_copies(rt, 1_000, 200)?))
}

/// Does what the words ask for, of what works in one thread.
fn bench_alone<R: Print + Clock + AllocGlobal>(rt: &R, words: &[String]) -> Result<u128, Fault> {
    if has_word(words, 0, "frames") {
        return bench_frames(rt, number(words, 1)?, number(words, 2)?, number(words, 3)?);
    }
    if has_word(words, 0, "hash") {
        return bench_hash(rt, number(words, 1)?);
    }
    if has_word(words, 0, "cores") {
        return bench_cores(rt, number(words, 1)?);
    }
    if has_word(words, 0, "dues") {
        return bench_dues(rt, short_number(words, 1)?);
    }
    if has_word(words, 0, "order") {
        return bench_order(rt, short_number(words, 1)?, number(words, 2)?);
    }
    if has_word(words, 0, "events") {
        return bench_events(rt, short_number(words, 1)?, number(words, 2)?);
    }
    if has_word(words, 0, "copies") {
        return bench_copies(rt, short_number(words, 1)?, number(words, 2)?);
    }
    if has_word(words, 0, "held") {
        return bench_held(
            rt,
            short_number(words, 1)?,
            short_number(words, 2)?,
            number(words, 3)?,
        );
    }
    Err(Fault::Words)
}

/// Does what the words ask for.
fn bench<R: Print + Clock + AllocGlobal + Threads + Wait + Sync>(
    rt: &R,
    words: &[String],
) -> Result<u128, Fault> {
    if has_word(words, 0, "each") {
        return bench_each(rt);
    }
    if has_word(words, 0, "ring") {
        return bench_ring(rt, number(words, 1)?, number(words, 2)?);
    }
    if has_word(words, 0, "word") {
        return bench_word(rt, number(words, 1)?, short_number(words, 2)?);
    }
    if has_word(words, 0, "locked") {
        return bench_locked(rt, number(words, 1)?, short_number(words, 2)?);
    }
    bench_alone(rt, words)
}

fn run<R: Print + Env + Clock + AllocGlobal + Threads + Wait + Sync>(rt: &R) -> Result<(), Fault> {
    let words: Vec<String> = env::args(rt)?.skip(1).collect(rt.alloc())?;
    let nanos = bench(rt, &words)?;
    if has_word(&words, words.len().saturating_sub(1), "timed") {
        println!(rt; "nanoseconds {nanos}")?;
    }
    Ok(())
}

fn main(rt: HostRuntime) -> ExitCode {
    match run(&rt) {
        Ok(()) => ExitCode::SUCCESS,
        Err(fault) => ExitCode::from(fault.number()),
    }
}
