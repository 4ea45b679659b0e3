use crate::Fault;
use std::alloc::Global;
use streamkey::{Addr, End, Key, Proto, core_of};

/// So many bytes that repeat after 251.
pub fn bytes(alloc: Global, count: usize) -> Result<Vec<u8>, Fault> {
    let mut all = Vec::new(alloc);
    for i in 0..count {
        all.push((i % 251) as u8)?;
    }
    Ok(all)
}

/// The key of a client, whose address is that number, and one server.
fn key(client: u32) -> Key {
    let source = End {
        addr: Addr::V4(client.to_be_bytes()),
        port: 40_000,
    };
    let target = End {
        addr: Addr::V4([10, 1, 0, 1]),
        port: 443,
    };
    Key::of(Proto::Tcp, source, target).0
}

/// The numbers of the cores of so many keys, of 16 cores, added up; the keys repeat after 65,536.
pub fn cores(keys: usize) -> u64 {
    let mut sum: u64 = 0;
    for client in 0..keys {
        sum = sum.saturating_add(u64::from(core_of(&key((client % 65_536) as u32), 16)));
    }
    sum
}
