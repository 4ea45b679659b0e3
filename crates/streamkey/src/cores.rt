ghost use Rattle.std.specs.Prelude.{◌≡◌, ◌≤◌};
ghost use Rattle.streamkey.specs.Address.{HasItsBytes};
ghost use Rattle.streamkey.specs.Hash.{addr_bytes, core_number, toeplitz_of};

use crate::{Addr, Key, toeplitz};

/// The hash of an address alone.
fn hash_of_addr(addr: &Addr) -> u32
    ensures hash { result ≡ toeplitz_of (addr_bytes addr.now) }
    ensures bytes { HasItsBytes addr.now }
{
    match addr {
        Addr::V4(bytes) => toeplitz(bytes),
        Addr::V6(bytes) => toeplitz(bytes),
    }
}

/// The core that has the packets of a key, of so many cores: the same for both ways.
pub fn core_of(key: &Key, cores: u16) -> u16
    requires some { 1 ≤ cores }
    requires few { cores ≤ 16 }
    ensures { result ≡ core_number key.now cores }
{
    // Each part stands at an even place, so it is hashed by itself.
    let hash = hash_of_addr(&key.low.addr)
        ^ hash_of_addr(&key.high.addr)
        ^ toeplitz(&key.low.port.to_be_bytes())
        ^ toeplitz(&key.high.port.to_be_bytes());
    (hash % u32::from(cores)) as u16
}
