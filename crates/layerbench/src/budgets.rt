ghost use Rattle.std.specs.Prelude.{◌≡◌, ◌≤◌};

use crate::Fault;
use prio_budget::{
    Answered, Charge, Home, Marks, Named, NewBudget, PlainBudget, PlainCharge, WordBudget,
};
use std::alloc::Global;
use std::marker::Brand;
use std::sync::{Mutex, Wait};
use std::thread;
use std::thread::Threads;

/// The limit and every mark.
const LIMIT: u32 = 4_096;

/// Asks again and again, and releases what is granted at once. Tells how often it was granted.
fn ask_word<B: Named>(word: &WordBudget<B>, home: Home<B>, turns: u32) -> u64
    requires { B.limit ≡ 4096 }
{
    let mut home = home;
    let mut grants: u64 = 0;
    for turn in 0..turns {
        let answer = word.try_reserve(&mut home, 1 + turn % 1_024, LIMIT);
        if let Answered::Granted { charge, look: _ } = answer {
            word.release(&mut home, charge);
            grants = grants.saturating_add(1);
        }
    }
    grants
}

fn ask_word_twice<B: Named + Send + Sync, R: Threads + Sync>(
    rt: &R,
    word: &WordBudget<B>,
    left: Home<B>,
    right: Home<B>,
    turns: u32,
) -> u64
    requires { B.limit ≡ 4096 }
{
    let (a, b) = thread::join(
        rt,
        move || -> u64
            requires { B.limit ≡ 4096 }
        { ask_word(word, left, turns) },
        move || -> u64
            requires { B.limit ≡ 4096 }
        { ask_word(word, right, turns) },
    );
    a.saturating_add(b)
}

/// The grants of 1, 2 or 4 threads.
fn ask_in_threads<B: Named + Send + Sync, R: Threads + Sync>(
    rt: &R,
    budget: NewBudget,
    threads: usize,
    turns: u32,
) -> Result<u64, Fault>
    requires names { (budget.table ≡ B.table) × (budget.limit ≡ B.limit) × (budget.first ≡ B.first) }
    requires limit { B.limit ≡ 4096 }
{
    let (word, mut home) = budget.named::<B>();
    if threads == 1 {
        return Ok(ask_word(&word, home, turns));
    }
    let one = word.home(&mut home);
    if threads == 2 {
        return Ok(ask_word_twice(rt, &word, home, one, turns));
    }
    if threads != 4 {
        return Err(Fault::Words);
    }
    let two = word.home(&mut home);
    let three = word.home(&mut home);
    let shared = &word;
    let (a, b) = thread::join(
        rt,
        move || -> u64
            requires { B.limit ≡ 4096 }
        { ask_word_twice(rt, shared, home, one, turns) },
        move || -> u64
            requires { B.limit ≡ 4096 }
        { ask_word_twice(rt, shared, two, three, turns) },
    );
    Ok(a.saturating_add(b))
}

/// So many asks in each of 1, 2 or 4 threads of the budget word, each released at once: the number of grants.
pub fn word<R: Threads + Sync>(
    rt: &R,
    alloc: Global,
    threads: usize,
    turns: u32,
) -> Result<u64, Fault> {
    let Ok(marks) = Marks::new(LIMIT, LIMIT, 1) else {
        return Err(Fault::Words);
    };
    let budget = NewBudget::new(alloc, &marks, 0)?;
    ask_in_threads::<Brand, R>(rt, budget, threads, turns)
}

/// A plain budget that a lock keeps.
#[derive(Drop)]
struct GuardedBudget {
    budget: PlainBudget,
    ghost limited: { budget.limit ≡ 4096 },
}

impl GuardedBudget {
    /// The charge, where it is granted.
    fn ask(&mut self, bytes: u32) -> Option<PlainCharge>
        requires { 1 ≤ bytes }
    {
        match self.budget.reserve(bytes, LIMIT) {
            Answered::Granted { charge, look: _ } => Some(charge),
            _ => None,
        }
    }

    /// Gives it back. No fact spans two locks, so that its bytes are in use is looked at.
    fn give_back(&mut self, charge: PlainCharge) {
        if charge.amount() <= self.budget.used() {
            self.budget.release(charge);
        }
    }
}

/// The same of a plain budget behind a lock.
fn ask_plain(rt: &impl Wait, budget: &Mutex<GuardedBudget>, turns: u32) -> u64 {
    let mut grants: u64 = 0;
    for turn in 0..turns {
        let charge = budget.lock(rt).ask(1 + turn % 1_024);
        if let Some(charge) = charge {
            budget.lock(rt).give_back(charge);
            grants = grants.saturating_add(1);
        }
    }
    grants
}

fn ask_plain_twice<R: Threads + Wait + Sync>(
    rt: &R,
    budget: &Mutex<GuardedBudget>,
    turns: u32,
) -> u64 {
    let (a, b) = thread::join(
        rt,
        || -> u64 { ask_plain(rt, budget, turns) },
        || -> u64 { ask_plain(rt, budget, turns) },
    );
    a.saturating_add(b)
}

/// So many asks in each of 1, 2 or 4 threads of a plain budget behind a lock, each released at once: the number of grants.
pub fn locked<R: Threads + Wait + Sync>(rt: &R, threads: usize, turns: u32) -> Result<u64, Fault> {
    let Ok(marks) = Marks::new(LIMIT, LIMIT, 1) else {
        return Err(Fault::Words);
    };
    let budget = Mutex::new(GuardedBudget {
        budget: PlainBudget::new(&marks, 0),
    });
    let shared = &budget;
    match threads {
        1 => Ok(ask_plain(rt, shared, turns)),
        2 => Ok(ask_plain_twice(rt, shared, turns)),
        4 => {
            let (a, b) = thread::join(
                rt,
                || -> u64 { ask_plain_twice(rt, shared, turns) },
                || -> u64 { ask_plain_twice(rt, shared, turns) },
            );
            Ok(a.saturating_add(b))
        }
        _ => Err(Fault::Words),
    }
}
