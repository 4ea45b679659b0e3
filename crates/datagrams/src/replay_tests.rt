use crate::{Datagram, Replay, replay_all};
use evring::Way;
use prio_budget::Marks;
use std::test::Fail;
use streamkey::{Addr, End, Key, Proto, Toward};

/// From 10.0.0.1:5000 to 10.0.0.2:53.
fn key_and_way() -> (Key, Toward) {
    let source = End {
        addr: Addr::V4([10, 0, 0, 1]),
        port: 5000,
    };
    let target = End {
        addr: Addr::V4([10, 0, 0, 2]),
        port: 53,
    };
    Key::of(Proto::Udp, source, target)
}

#[test]
fn a_conversation_opens_and_is_told(rt: HostRuntime) -> Result<(), Fail> {
    let (key, toward) = key_and_way();
    let mut replay = Replay::new(rt.alloc(), &Marks::new(4096, 4096, 1)?, 2);
    replay.open(1, key, toward)?;
    assert_eq!(rt; replay.waiting_len(), 1);
    replay.answer(rt.alloc())?;
    assert_eq!(rt; replay.waiting_len(), 0);
    let (_, made) = replay.into_parts();
    let expected = "new 1 udp 10.0.0.1 5000 10.0.0.2 53\n";
    assert_eq!(rt; made.text.as_slice(), expected.as_bytes());
    assert_eq!(rt; made.book.len(), 1);
    Ok(())
}

#[test]
fn a_datagram_is_entered(rt: HostRuntime) -> Result<(), Fail> {
    let (key, toward) = key_and_way();
    let mut replay = Replay::new(rt.alloc(), &Marks::new(4096, 4096, 1)?, 2);
    replay.open(1, key, toward)?;
    replay.enter_at(rt.alloc(), 0, 1, Way::Fore, 1, 5, b"hi")?;
    assert_eq!(rt; replay.waiting_len(), 2);
    assert_eq!(rt; replay.into_parts().1.book.len(), 1);
    Ok(())
}

#[test]
fn a_conversation_ends(rt: HostRuntime) -> Result<(), Fail> {
    let (key, toward) = key_and_way();
    let mut replay = Replay::new(rt.alloc(), &Marks::new(4096, 4096, 1)?, 2);
    replay.open(1, key, toward)?;
    replay.end_at(rt.alloc(), 0, 1, 5)?;
    assert_eq!(rt; replay.waiting_len(), 2);
    assert_eq!(rt; replay.into_parts().1.book.len(), 1);
    Ok(())
}

#[test]
fn a_capture_is_replayed(rt: HostRuntime) -> Result<(), Fail> {
    let (key, toward) = key_and_way();
    let packets = [
        Datagram {
            number: 1,
            clock: 5,
            key,
            toward,
            declared: 2,
            payload: b"hi",
        },
        Datagram {
            number: 2,
            clock: 6,
            key,
            toward,
            declared: 0,
            payload: b"",
        },
    ];
    let marks = Marks::new(4096, 4096, 1)?;
    let (budget, whole) = replay_all(rt.alloc(), &marks, 16_384, &packets, 6);
    let Ok(whole) = whole else {
        panic!(rt; "there is memory")
    };
    let expected = "new 1 udp 10.0.0.1 5000 10.0.0.2 53\ndata 1 > 0 0 0 0 6869\nend 1 finish\n";
    assert_eq!(rt; whole.text.as_slice(), expected.as_bytes());
    assert_eq!(rt; budget.used(), 0);
    assert_eq!(rt; (whole.stamps, whole.peak), (2, 2));
    assert_eq!(rt; whole.refused, 0);
    Ok(())
}
