use crate::{Addr, End, Key, Packet, Proto, Toward, core_of, toeplitz};
use std::alloc::{AllocError, Global};
use std::collections::BTreeMap;
use std::test::Fail;

/// 10.0.0.1:40000.
fn client() -> End {
    End {
        addr: Addr::V4([10, 0, 0, 1]),
        port: 40_000,
    }
}

/// 10.0.0.2:80.
fn server() -> End {
    End {
        addr: Addr::V4([10, 0, 0, 2]),
        port: 80,
    }
}

/// 2001:db8::1, the given port.
fn newer(port: u16) -> End {
    End {
        addr: Addr::V6([0x20, 1, 0x0d, 0xb8, 0, 0, 0, 0, 0, 0, 0, 0, 0, 0, 0, 1]),
        port,
    }
}

#[test]
fn keys_have_the_earlier_end_low(rt: HostRuntime) {
    let client_low_port = End {
        addr: client().addr,
        port: 80,
    };
    let rows = [
        (client(), server(), client(), server(), Toward::Up),
        (server(), client(), client(), server(), Toward::Down),
        (server(), newer(53), server(), newer(53), Toward::Up),
        (newer(53), server(), server(), newer(53), Toward::Down),
        (
            client(),
            client_low_port,
            client_low_port,
            client(),
            Toward::Down,
        ),
        (newer(53), newer(256), newer(53), newer(256), Toward::Up),
        (server(), server(), server(), server(), Toward::Up),
    ];
    for (source, target, low, high, toward) in rows {
        let (key, way) = Key::of(Proto::Tcp, source, target);
        assert_eq!(rt; key.proto, Proto::Tcp);
        assert_eq!(rt; key.low, low);
        assert_eq!(rt; key.high, high);
        assert_eq!(rt; way, toward);
        assert_eq!(rt; key.source(way), source);
        assert_eq!(rt; key.target(way), target);
    }
}

#[test]
fn keys_are_keys_of_a_map(rt: HostRuntime) -> Result<(), Fail> {
    let (key, _) = Key::of(Proto::Udp, client(), server());
    let (same, _) = Key::of(Proto::Udp, server(), client());
    let (other, _) = Key::of(Proto::Tcp, client(), server());
    let mut numbers = BTreeMap::new(rt.alloc());
    let _ = numbers.insert(key, 1u32)?;
    assert_eq!(rt; numbers.get(&same), Some(&1));
    assert_eq!(rt; numbers.get(&other), None);
    Ok(())
}

fn end(addr: Addr, port: u16) -> End {
    End { addr, port }
}

fn put_addr(out: &mut Vec<u8>, addr: &Addr) -> Result<(), AllocError> {
    match addr {
        Addr::V4(bytes) => out.extend_from_slice(bytes),
        Addr::V6(bytes) => out.extend_from_slice(bytes),
    }
}

/// The addresses and then the ports of two ends, in network order.
fn input_of(alloc: Global, a: &End, b: &End) -> Result<Vec<u8>, AllocError> {
    let mut input = Vec::new(alloc);
    put_addr(&mut input, &a.addr)?;
    put_addr(&mut input, &b.addr)?;
    input.extend_from_slice(&a.port.to_be_bytes())?;
    input.extend_from_slice(&b.port.to_be_bytes())?;
    Ok(input)
}

/// The hashes are those that bench/toeplitz.py works out bit by bit.
#[test]
fn both_ways_have_one_hash_and_one_core(rt: HostRuntime) -> Result<(), Fail> {
    let alloc = rt.alloc();
    let link_local = Addr::V6([
        0xfe, 0x80, 0, 0, 0, 0, 0, 0, 0x12, 0x34, 0x56, 0x78, 0x9a, 0xbc, 0xde, 0xf0,
    ]);
    let global = Addr::V6([
        0x20, 1, 0x0d, 0xb8, 0x85, 0xa3, 0, 0, 0, 0, 0x8a, 0x2e, 3, 0x70, 0x73, 0x34,
    ]);
    let second = Addr::V6([0x20, 1, 0x0d, 0xb8, 0, 0, 0, 0, 0, 0, 0, 0, 0, 0, 0, 2]);
    let none = end(Addr::V4([0; 4]), 0);
    let last = end(Addr::V4([255; 4]), 65_535);
    let low = end(Addr::V4([0, 0, 0, 1]), 1);
    // the ends, their hash, and the core of 2, 3, 4 and 16
    let rows = [
        (client(), server(), 0x07f3_07f3, [1, 2, 3, 3]),
        (none, none, 0, [0, 0, 0, 0]),
        (last, low, 0xffff_ffff, [1, 0, 3, 15]),
        (newer(53), end(second, 40_000), 0xa19a_a19a, [0, 0, 2, 10]),
        (
            end(link_local, 443),
            end(global, 50_123),
            0x1dc0_1dc0,
            [0, 1, 0, 0],
        ),
        (server(), newer(53), 0x9ed1_9ed1, [1, 2, 1, 1]),
    ];
    for (a, b, hash, cores) in rows {
        assert_eq!(rt; toeplitz(&input_of(alloc, &a, &b)?), hash);
        assert_eq!(rt; toeplitz(&input_of(alloc, &b, &a)?), hash);
        let (key, _) = Key::of(Proto::Tcp, a, b);
        let (same, _) = Key::of(Proto::Udp, b, a);
        let found = [
            core_of(&key, 2),
            core_of(&key, 3),
            core_of(&key, 4),
            core_of(&key, 16),
        ];
        assert_eq!(rt; found, cores);
        assert_eq!(rt; core_of(&same, 16), cores[3]);
        assert_eq!(rt; core_of(&key, 1), 0);
    }
    Ok(())
}

#[test]
fn bytes_of_any_number_are_hashed(rt: HostRuntime) {
    assert_eq!(rt; toeplitz(b""), 0);
    assert_eq!(rt; toeplitz(&[128]), 0x6d5a_6d5a);
    assert_eq!(rt; toeplitz(&[0, 1]), 0x36ad_36ad);
    assert_eq!(rt; toeplitz(b"abc"), 0x10a2_10a2);
}

#[test]
fn packets_are_copied_with_their_control_bits(rt: HostRuntime) -> Result<(), Fail> {
    // the protocol and the control bits of a packet, and whether it has FIN, SYN, RST
    let rows = [
        (Proto::Tcp, 0b0000_0010, [false, true, false]),
        (Proto::Tcp, 0b0001_0001, [true, false, false]),
        (Proto::Tcp, 0b1111_1100, [false, false, true]),
        (Proto::Udp, 0b0000_0111, [false, false, false]),
    ];
    for (proto, flags, bits) in rows {
        let (key, toward) = Key::of(proto, server(), client());
        let packet = Packet::copy(rt.alloc(), 7, 1 << 62, key, toward, 5, flags, 9, b"hi")?;
        let found = [packet.has_fin(), packet.has_syn(), packet.has_rst()];
        assert_eq!(rt; found, bits);
        assert_eq!(rt; packet.payload.as_slice(), b"hi".as_slice());
    }
    Ok(())
}
