ghost use Rattle.std.specs.Prelude.{◌≡◌};

use crate::{Giver, Memory, Taker, ring};
use prio_budget::{Answered, Free, Home, Marks, Named, NewBudget, WordBudget, WordCharge};
use std::alloc::Global;
use std::marker::Brand;
use std::sync::Wait;
use std::test::*;
use std::thread;
use std::thread::Threads;

/// Asks for bytes, and gives the charge on.
fn give_charge<B: Named>(
    word: &WordBudget<B>,
    home: Home<B>,
    giver: Giver<WordCharge<B>>,
) -> Home<B>
    requires { B.limit ≡ 4096 }
{
    let mut home = home;
    let mut giver = giver;
    if let Answered::Granted { charge, look: _ } = word.try_reserve(&mut home, 4_000, 4_096) {
        let _ = giver.push(charge);
    }
    home
}

/// Takes a charge and releases it.
fn take_charge<B: Named>(
    rt: &impl Wait,
    word: &WordBudget<B>,
    home: Home<B>,
    taker: Taker<WordCharge<B>>,
) -> (Home<B>, Free) {
    let mut home = home;
    let mut taker = taker;
    for _ in rt.forever() {
        if let Some(charge) = taker.pop() {
            let free = word.release(&mut home, charge);
            return (home, free);
        }
        thread::yield_now();
    }
    unreachable!()
}

/// A charge of one thread that another releases. Both homes come in again.
fn pass_charge<B: Named + Send + Sync, R: Threads + Wait + Sync>(
    rt: &R,
    alloc: Global,
    budget: NewBudget,
) -> Result<Free, Memory>
    requires names { (budget.table ≡ B.table) × (budget.limit ≡ B.limit) × (budget.first ≡ B.first) }
    requires limit { B.limit ≡ 4096 }
{
    let (word, mut home) = budget.named::<B>();
    let (giver, taker) = ring(alloc, 4)?;
    let asker = word.home(&mut home);
    let freer = word.home(&mut home);
    let shared = &word;
    let (asker, (freer, free)) = thread::join(
        rt,
        move ||
            requires { B.limit ≡ 4096 }
        { give_charge(shared, asker, giver) },
        move || take_charge(rt, shared, freer, taker),
    );
    word.gather(&mut home, asker);
    word.gather(&mut home, freer);
    Ok(free)
}

#[test]
fn a_charge_crosses_a_ring(rt: HostRuntime) -> Result<(), Fail> {
    let marks = Marks::new(4_096, 4_096, 1)?;
    let budget = NewBudget::new(rt.alloc(), &marks, 0)?;
    let free = Free {
        stamp: 1,
        bytes: 4_000,
    };
    assert_eq!(rt; pass_charge::<Brand, _>(&rt, rt.alloc(), budget), Ok(free));
    Ok(())
}
