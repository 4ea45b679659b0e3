use crate::{ChunkView, Memory, put_chunk, put_created, put_ended};
use evring::{Reason, Way};
use streamkey::{Addr, End, Key, Proto, Toward};

const OLD: End = End {
    addr: Addr::V4([10, 0, 0, 1]),
    port: 5_000,
};

const NAMES: End = End {
    addr: Addr::V4([10, 0, 0, 2]),
    port: 53,
};

const NEW: End = End {
    addr: Addr::V6([0, 0, 0, 0, 0, 0, 0, 0, 0, 0, 0, 0, 0, 0, 0x12, 0xff]),
    port: 65_535,
};

const LINES: &str = "before
new 1 udp 10.0.0.1 5000 10.0.0.2 53
new 2 udp 10.0.0.2 53 10.0.0.1 5000
new 3 tcp 0000:0000:0000:0000:0000:0000:0000:12ff 65535 10.0.0.2 53
data 1 > 0 0 0 0 6869
data 4194304 < 6 18446744073709551615 2 3 00ff10
end 1 reset
end 1 closed
end 1 idle
end 1 replaced
end 4194304 finish
";

fn put_new(
    out: &mut Vec<u8>,
    conv: u32,
    proto: Proto,
    source: End,
    target: End,
) -> Result<(), Memory> {
    let (key, toward) = Key::of(proto, source, target);
    put_created(out, conv, &key, toward)
}

fn put_data(out: &mut Vec<u8>) -> Result<(), Memory> {
    let (key, _) = Key::of(Proto::Udp, OLD, NAMES);
    let first = ChunkView {
        conv: 1,
        way: Way::Fore,
        key: &key,
        start: 0,
        gap: 0,
        over: 0,
        kept: b"",
        shown: b"hi",
    };
    put_chunk(out, &first)?;
    let second = ChunkView {
        conv: 4_194_304,
        way: Way::Back,
        key: &key,
        start: 6,
        gap: u64::MAX,
        over: 2,
        kept: b"abc",
        shown: &[0, 0xff, 0x10],
    };
    put_chunk(out, &second)
}

fn put_ends(out: &mut Vec<u8>) -> Result<(), Memory> {
    for reason in [
        Reason::Reset,
        Reason::Closed,
        Reason::Idle,
        Reason::Replaced,
    ] {
        put_ended(out, 1, reason)?;
    }
    put_ended(out, 4_194_304, Reason::Finish)
}

#[test]
fn events_have_their_lines(rt: HostRuntime) -> Result<(), Memory> {
    let mut out = Vec::from_slice(rt.alloc(), b"before\n")?;
    put_new(&mut out, 1, Proto::Udp, OLD, NAMES)?;
    put_new(&mut out, 2, Proto::Udp, NAMES, OLD)?;
    put_new(&mut out, 3, Proto::Tcp, NEW, NAMES)?;
    put_data(&mut out)?;
    put_ends(&mut out)?;
    assert_eq!(rt; out.as_slice(), LINES.as_bytes());
    Ok(())
}

/// A packet from an end to itself goes up.
#[test]
fn an_end_speaks_to_itself(rt: HostRuntime) -> Result<(), Memory> {
    let mut out = Vec::new(rt.alloc());
    let (key, _) = Key::of(Proto::Udp, NAMES, NAMES);
    put_created(&mut out, 9, &key, Toward::Up)?;
    assert_eq!(rt;
        out.as_slice(),
        b"new 9 udp 10.0.0.2 53 10.0.0.2 53\n".as_slice()
    );
    Ok(())
}
