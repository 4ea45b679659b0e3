use crate::{Conversation, Conversations, RunningSums};
use evring::Way;
use std::test::Fail;
use streamkey::{Addr, End, Key, Proto, Toward};

/// 10.0.0.1, the given port.
fn near(port: u16) -> End {
    End {
        addr: Addr::V4([10, 0, 0, 1]),
        port,
    }
}

/// 10.0.0.2:53.
fn far() -> End {
    End {
        addr: Addr::V4([10, 0, 0, 2]),
        port: 53,
    }
}

/// Opens the conversation of a packet from one end to the other.
fn open(table: &mut Conversations, number: u32, source: End, target: End) -> Result<(), Fail> {
    let (key, toward) = Key::of(Proto::Udp, source, target);
    if let Some(_) = table.place(&key) {
        return Err("the key has a conversation".into());
    }
    table.open(Conversation::new(number, key, toward))?;
    Ok(())
}

/// Counts a datagram of so many bytes that was refused.
fn refuse(table: &mut Conversations, key: &Key, way: Way, bytes: u16) -> Result<(), Fail> {
    let Some(place) = table.place(key) else {
        return Err("no conversation".into());
    };
    let (mut half, mut sums) = table.take_half(place, way);
    if half.sent() > 1_000_000
        || sums.payload > 1_000_000
        || sums.taken > 1_000_000
        || sums.shed > 1_000_000
    {
        return Err("too many bytes".into());
    }
    half.skip(u64::from(bytes));
    sums.count_datagram(u64::from(bytes), 0);
    table.put_half(place, way, half, sums);
    Ok(())
}

#[test]
fn conversations_are_found_by_their_keys(rt: HostRuntime) -> Result<(), Fail> {
    let mut table = Conversations::new(rt.alloc());
    open(&mut table, 3, far(), near(4000))?;
    open(&mut table, 8, near(4001), far())?;
    assert_eq!(rt; table.len(), 2);
    let (key, _) = Key::of(Proto::Udp, near(4000), far());
    assert_eq!(rt; table.place(&key), Some(0));
    let (key, _) = Key::of(Proto::Udp, far(), near(4001));
    assert_eq!(rt; table.place(&key), Some(1));
    let (key, _) = Key::of(Proto::Udp, far(), near(4002));
    assert_eq!(rt; table.place(&key), None);
    let list = table.as_slice();
    assert_eq!(rt; list.len(), 2);
    assert_eq!(rt; list[0].number, 3);
    assert_eq!(rt; list[0].toward, Toward::Down);
    assert_eq!(rt; list[1].number, 8);
    assert_eq!(rt; list[1].toward, Toward::Up);
    Ok(())
}

#[test]
fn one_direction_changes(rt: HostRuntime) -> Result<(), Fail> {
    let mut table = Conversations::new(rt.alloc());
    open(&mut table, 3, far(), near(4000))?;
    open(&mut table, 8, near(4001), far())?;
    let (key, _) = Key::of(Proto::Udp, near(4001), far());
    refuse(&mut table, &key, Way::Back, 5)?;
    refuse(&mut table, &key, Way::Back, 7)?;
    let list = table.as_slice();
    assert_eq!(rt; list.len(), 2);
    assert_eq!(rt; list[1].back.sent(), 12);
    let expected = RunningSums {
        payload: 12,
        delivered: 0,
        taken: 0,
        shed: 12,
        gaps: 0,
        gap_bytes: 0,
    };
    assert_eq!(rt; list[1].back_sums, expected);
    assert_eq!(rt; list[1].fore.sent(), 0);
    assert_eq!(rt; list[1].fore_sums, RunningSums::new());
    assert_eq!(rt; list[0].back.sent(), 0);
    assert_eq!(rt; list[0].back_sums, RunningSums::new());
    Ok(())
}
