ghost use Rattle.std.specs.Prelude.{◌≡◌};
ghost use Rattle.prio_budget.specs.WordTests.{IsBalanced};

use crate::{Answered, Charge, Closed, Free, Home, Look, Marks, Named, NewBudget, WordBudget};
use std::marker::Brand;
use std::sync::Wait;
use std::test::*;
use std::thread;
use std::thread::Threads;

/// Two grants with a refusal between them, up to the limit: what the three asks found, and the end.
fn fill<B: Named>(budget: NewBudget) -> Option<(Look, Look, Look, Closed)>
    requires names { (budget.table ≡ B.table) × (budget.limit ≡ B.limit) × (budget.first ≡ B.first) }
    requires limit { B.limit ≡ 4096 }
{
    let (word, mut home) = budget.named::<B>();
    let Answered::Granted {
        charge: most,
        look: first,
    } = word.try_reserve(&mut home, 4_000, 4_096)
    else {
        return None;
    };
    let Answered::Past { look: past } = word.try_reserve(&mut home, 97, 4_096) else {
        return None;
    };
    let Answered::Granted {
        charge: rest,
        look: last,
    } = word.try_reserve(&mut home, 96, 4_096)
    else {
        return None;
    };
    word.release(&mut home, most);
    word.release(&mut home, rest);
    Some((first, past, last, word.close(home)))
}

#[test]
fn asks_are_granted_up_to_the_limit(rt: HostRuntime) -> Result<(), Fail> {
    let marks = Marks::new(4_096, 4_096, 1)?;
    let budget = NewBudget::new(rt.alloc(), &marks, 0)?;
    let first = Look { stamp: 0, found: 0 };
    let past = Look {
        stamp: 1,
        found: 4_000,
    };
    let closed = Closed { stamp: 4, used: 0 };
    assert_eq!(rt; fill::<Brand>(budget), Some((first, past, past, closed)));
    Ok(())
}

/// A grant in one home that is released in another: what asks under a mark of 0 find before and after the release, and the end.
fn hand_over<B: Named>(budget: NewBudget) -> Option<(Look, (u32, u32), Free, Look, Closed)>
    requires names { (budget.table ≡ B.table) × (budget.limit ≡ B.limit) × (budget.first ≡ B.first) }
    requires limit { B.limit ≡ 4096 }
{
    let (word, mut home) = budget.named::<B>();
    let mut other = word.home(&mut home);
    let Answered::Granted { charge, look: _ } = word.try_reserve(&mut other, 1_460, 4_096) else {
        return None;
    };
    let numbers = (charge.amount(), charge.stamp());
    let Answered::Past { look: before } = word.try_reserve(&mut home, 1, 0) else {
        return None;
    };
    let free = word.release(&mut home, charge);
    let Answered::Past { look: after } = word.try_reserve(&mut home, 1, 0) else {
        return None;
    };
    word.gather(&mut home, other);
    Some((before, numbers, free, after, word.close(home)))
}

/// The stamp and the used number as one number of 64 bits.
fn word_of(look: Look) -> u64 {
    (u64::from(look.stamp) << 32) + u64::from(look.found)
}

#[test]
fn a_charge_is_released_in_another_home(rt: HostRuntime) -> Result<(), Fail> {
    let marks = Marks::new(4_096, 4_096, 1)?;
    let budget = NewBudget::new(rt.alloc(), &marks, 2)?;
    let Some((before, numbers, free, after, closed)) = hand_over::<Brand>(budget) else {
        panic!(rt; "another answer")
    };
    assert_eq!(rt; word_of(before), 12_884_903_348);
    assert_eq!(rt; numbers, (1_460, 2));
    assert_eq!(rt;
        free,
        Free {
            stamp: 3,
            bytes: 1_460
        }
    );
    assert_eq!(rt; word_of(after), 17_179_869_184);
    assert_eq!(rt; closed, Closed { stamp: 4, used: 0 });
    Ok(())
}

/// Whether asks for a byte and for all bytes find the stamps spent.
fn is_spent<B: Named>(budget: NewBudget) -> bool
    requires names { (budget.table ≡ B.table) × (budget.limit ≡ B.limit) × (budget.first ≡ B.first) }
    requires limit { B.limit ≡ 4096 }
{
    let (word, mut home) = budget.named::<B>();
    let one = word.try_reserve(&mut home, 1, 4_096);
    let most = word.try_reserve(&mut home, u32::MAX, 0);
    matches!(one, Answered::Spent { .. }) && matches!(most, Answered::Spent { .. })
}

#[test]
fn nothing_is_granted_from_the_spent_stamp_on(rt: HostRuntime) -> Result<(), Fail> {
    let marks = Marks::new(4_096, 4_096, 1)?;
    let spent = NewBudget::new(rt.alloc(), &marks, 2_147_483_648)?;
    assert!(rt; is_spent::<Brand>(spent));
    let last = NewBudget::new(rt.alloc(), &marks, 2_147_483_647)?;
    assert!(rt; !is_spent::<Brand>(last));
    Ok(())
}

/// A note brings what one home has seen to another: whether a release behind it has a later stamp than the grant before it, and the end.
fn pass_a_note<B: Named>(budget: NewBudget) -> Option<(u32, Free, Closed)>
    requires names { (budget.table ≡ B.table) × (budget.limit ≡ B.limit) × (budget.first ≡ B.first) }
    requires limit { B.limit ≡ 4096 }
{
    let (word, mut home) = budget.named::<B>();
    let Answered::Granted { charge, look } = word.try_reserve(&mut home, 10, 4_096) else {
        return None;
    };
    let mut other = word.home(&mut home);
    let note = word.note(&mut home);
    word.meet(&mut other, note);
    let free = word.release(&mut other, charge);
    word.gather(&mut home, other);
    Some((look.stamp, free, word.close(home)))
}

#[test]
fn a_note_comes_in(rt: HostRuntime) -> Result<(), Fail> {
    let marks = Marks::new(4_096, 4_096, 1)?;
    let budget = NewBudget::new(rt.alloc(), &marks, 5)?;
    let free = Free {
        stamp: 6,
        bytes: 10,
    };
    let closed = Closed { stamp: 7, used: 0 };
    assert_eq!(rt; pass_a_note::<Brand>(budget), Some((5, free, closed)));
    Ok(())
}

/// Asks again and again, and releases what is granted at once. Tells how often it was granted.
#[tactic(auto, using(crate::proofs::Totals::total_snoc))]
fn ask_and_release<B: Named>(word: &WordBudget<B>, home: Home<B>, turns: u32) -> (Home<B>, u32)
    requires { B.limit ≡ 4096 }
    ensures { IsBalanced home result.0 }
{
    let mut home = home;
    let mut grants = 0;
    for turn in 0..turns {
        let answer = word.try_reserve(&mut home, 1 + turn % 2_048, 4_096);
        if let Answered::Granted { charge, look: _ } = answer {
            word.release(&mut home, charge);
            grants += 1;
        }
    }
    (home, grants)
}

fn ask_in_two_threads<B: Named + Send + Sync, R: Threads + Sync>(
    rt: &R,
    word: &WordBudget<B>,
    left: Home<B>,
    right: Home<B>,
    turns: u32,
) -> ((Home<B>, u32), (Home<B>, u32))
    requires { B.limit ≡ 4096 }
    ensures { IsBalanced left result.0.0 × IsBalanced right result.1.0 }
{
    thread::join(
        rt,
        move || -> (Home<B>, u32)
            requires { B.limit ≡ 4096 }
            ensures { IsBalanced left result.0 }
        { ask_and_release(word, left, turns) },
        move || -> (Home<B>, u32)
            requires { B.limit ≡ 4096 }
            ensures { IsBalanced right result.0 }
        { ask_and_release(word, right, turns) },
    )
}

/// The number of grants in four threads, and the end.
fn ask_in_four_threads<B: Named + Send + Sync, R: Threads + Sync>(
    rt: &R,
    budget: NewBudget,
    turns: u32,
) -> (u64, Closed)
    requires names { (budget.table ≡ B.table) × (budget.limit ≡ B.limit) × (budget.first ≡ B.first) }
    requires limit { B.limit ≡ 4096 }
{
    let (word, mut home) = budget.named::<B>();
    let one = word.home(&mut home);
    let two = word.home(&mut home);
    let three = word.home(&mut home);
    let four = word.home(&mut home);
    let shared = &word;
    let (left, right) = thread::join(
        rt,
        move || -> ((Home<B>, u32), (Home<B>, u32))
            requires { B.limit ≡ 4096 }
            ensures { IsBalanced one result.0.0 × IsBalanced two result.1.0 }
        { ask_in_two_threads(rt, shared, one, two, turns) },
        move || -> ((Home<B>, u32), (Home<B>, u32))
            requires { B.limit ≡ 4096 }
            ensures { IsBalanced three result.0.0 × IsBalanced four result.1.0 }
        { ask_in_two_threads(rt, shared, three, four, turns) },
    );
    let ((one, a), (two, b)) = left;
    let ((three, c), (four, d)) = right;
    word.gather(&mut home, one);
    word.gather(&mut home, two);
    word.gather(&mut home, three);
    word.gather(&mut home, four);
    let grants = u64::from(a) + u64::from(b) + u64::from(c) + u64::from(d);
    (grants, word.close(home))
}

#[test]
fn four_threads_take_two_stamps_a_grant(rt: HostRuntime) -> Result<(), Fail> {
    let marks = Marks::new(4_096, 4_096, 1)?;
    let budget = NewBudget::new(rt.alloc(), &marks, 0)?;
    let (grants, closed) = ask_in_four_threads::<Brand, _>(&rt, budget, 100_000);
    assert_eq!(rt; closed.stamp % 2, 0);
    assert_eq!(rt; u64::from(closed.stamp / 2), grants);
    assert_eq!(rt; closed.used, 0);
    Ok(())
}
