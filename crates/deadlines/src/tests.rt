use crate::Due;
use std::test::Fail;

/// A call, with the first due that is expected where one is asked for.
#[derive(Clone, Copy)]
enum Call {
    Set(u32, u64),
    Remove(u32),
    First(u64, Option<(u64, u32)>),
}

#[test]
fn the_first_due_is_the_least_up_to_now(rt: HostRuntime) -> Result<(), Fail> {
    let calls = [
        Call::First(u64::MAX, None),
        // A moment comes at its own time and not before.
        Call::Set(7, 20),
        Call::First(19, None),
        Call::First(20, Some((20, 7))),
        // The least moment comes first, whatever the id and whenever it was set.
        Call::Set(9, 10),
        Call::Set(1, 30),
        Call::First(30, Some((10, 9))),
        Call::First(9, None),
        // Of equal moments the least id comes first.
        Call::Set(3, 10),
        Call::First(10, Some((10, 3))),
        // A moment set anew replaces the one before.
        Call::Set(3, 40),
        Call::First(10, Some((10, 9))),
        Call::Set(9, 10),
        Call::First(10, Some((10, 9))),
        Call::Set(9, 50),
        Call::First(30, Some((20, 7))),
        // What is removed is due no more, and what isn't there can be removed.
        Call::Remove(7),
        Call::Remove(7),
        Call::Remove(8),
        Call::First(30, Some((30, 1))),
        Call::Remove(1),
        Call::First(39, None),
        Call::First(40, Some((40, 3))),
        Call::Remove(3),
        Call::Set(u32::MAX, u64::MAX),
        Call::Remove(9),
        Call::First(u64::MAX - 1, None),
        Call::First(u64::MAX, Some((u64::MAX, u32::MAX))),
    ];
    let mut due = Due::new(rt.alloc());
    for call in calls {
        match call {
            Call::Set(id, moment) => due.set(id, moment)?,
            Call::Remove(id) => due.remove(id),
            Call::First(now, first) => assert_eq!(rt; due.first_due(now), first),
        }
    }
    Ok(())
}

#[test]
fn many_come_in_the_order_of_their_moments(rt: HostRuntime) -> Result<(), Fail> {
    let mut due = Due::new(rt.alloc());
    for id in 0..500u32 {
        due.set(id, 5)?;
        due.set(id, u64::from(id * 7 % 500))?;
    }
    for moment in 0..500u64 {
        let Some((first, id)) = due.first_due(u64::MAX) else {
            panic!(rt; "nothing is due")
        };
        assert_eq!(rt; first, moment);
        due.remove(id);
    }
    assert_eq!(rt; due.first_due(u64::MAX), None);
    Ok(())
}
