ghost use Rattle.std.specs.Prelude.{◌≡◌, ◌≤◌};

use crate::Served;
use chunkpart::Chunk;
use evring::{Reason, Way};
use prio_budget::{Answered, Free, Marks, Part, PartBytes, PlainBudget, PlainCharge};
use std::alloc::Global;
use std::test::Fail;
use streamkey::{Addr, End, Key, Proto};

/// Puts a datagram that is granted into a chunk.
fn put_datagram(
    alloc: Global,
    budget: &mut PlainBudget,
    chunk: &mut Chunk<PlainCharge>,
    bytes: &[u8],
) -> Result<(), Fail>
    requires { 4096 ≤ budget.old.limit }
    ensures limit { budget.new.limit ≡ budget.old.limit }
    ensures tail { chunk.new.tail ≡ chunk.old.tail }
{
    let amount = u32::try_from(bytes.len())?;
    if amount == 0 || amount > 4096 || chunk.fresh_len() > 4096 {
        return Err("no bytes, or too many".into());
    }
    let bytes = PartBytes::of(bytes.to_vec(alloc)?);
    let Answered::Granted { charge, .. } = budget.reserve(amount, 4096) else {
        return Err("no grant".into());
    };
    let part = Part::new(bytes, charge);
    if chunk.append(part).is_err() {
        return Err("the part came back".into());
    }
    Ok(())
}

/// From 10.0.0.1:40000 to 10.0.0.2:53.
fn open_one(served: &mut Served) -> Result<(), Fail> {
    let source = End {
        addr: Addr::V4([10, 0, 0, 1]),
        port: 40_000,
    };
    let target = End {
        addr: Addr::V4([10, 0, 0, 2]),
        port: 53,
    };
    let (key, toward) = Key::of(Proto::Udp, source, target);
    served.open(7, &key, toward)?;
    Ok(())
}

#[test]
fn events_are_told(rt: HostRuntime) -> Result<(), Fail> {
    let marks = Marks::new(4096, 4096, 1)?;
    let mut budget = PlainBudget::new(&marks, 10);
    let mut served = Served::new(rt.alloc());
    open_one(&mut served)?;
    let mut chunk = Chunk::new(rt.alloc(), 3, 2, None);
    put_datagram(rt.alloc(), &mut budget, &mut chunk, b"ab")?;
    put_datagram(rt.alloc(), &mut budget, &mut chunk, b"c")?;
    if chunk.fresh_len() > u64::from(budget.used()) {
        return Err("more bytes than are in use".into());
    }
    let frees = served.hand_over(rt.alloc(), &mut budget, 7, Way::Fore, chunk)?;
    served.end(7, Reason::Finish)?;
    assert_eq!(rt; budget.used(), 0);
    let expected = [
        Free {
            stamp: 12,
            bytes: 2,
        },
        Free {
            stamp: 13,
            bytes: 1,
        },
    ];
    assert_eq!(rt; frees.as_slice(), expected.as_slice());
    let text = "new 7 udp 10.0.0.1 40000 10.0.0.2 53\ndata 7 > 3 2 0 0 616263\nend 7 finish\n";
    assert_eq!(rt; served.into_text().as_slice(), text.as_bytes());
    Ok(())
}
