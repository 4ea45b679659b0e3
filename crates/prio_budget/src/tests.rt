use crate::*;
use std::test::Fail;

#[test]
fn priorities_have_their_marks(rt: HostRuntime) -> Result<(), Fail> {
    let three = Marks::new(10_000, 4_000, 3)?;
    assert_eq!(rt; three.limit(), 10_000);
    let rows = [
        (0u8, 6_000u32),
        (1, 8_000),
        (2, 10_000),
        (3, 10_000),
        (255, 10_000),
    ];
    for (priority, mark) in rows {
        assert_eq!(rt; three.mark(priority), mark, "of {priority}");
    }
    let most = Marks::new(2_147_483_647, 0, 16)?;
    for (priority, mark) in [
        (0u8, 134_217_727u32),
        (14, 2_013_265_919),
        (15, 2_147_483_647),
    ] {
        assert_eq!(rt; most.mark(priority), mark, "of {priority}");
    }
    let least = Marks::new(4_096, 4_096, 1)?;
    assert_eq!(rt; least.mark(0), 4_096);
    assert!(rt; three != most);
    Ok(())
}

#[test]
fn the_first_fault_is_told(rt: HostRuntime) {
    let rows = [
        (4_095u32, 0u32, 1u8, MarkFault::Limit),
        (2_147_483_648, 0, 1, MarkFault::Limit),
        (10_000, 10_001, 1, MarkFault::Base),
        (10_000, 0, 17, MarkFault::Count),
        (10_000, 0, 0, MarkFault::Count),
        (4_095, 4_096, 17, MarkFault::Limit),
        (10_000, 10_001, 17, MarkFault::Base),
    ];
    for (limit, base, n, fault) in rows {
        assert_eq!(rt;
            Marks::new(limit, base, n),
            Err(fault),
            "of {limit} {base} {n}"
        );
    }
}

#[test]
fn an_ask_is_granted_up_to_its_mark(rt: HostRuntime) -> Result<(), Fail> {
    let marks = Marks::new(10_000, 4_000, 3)?;
    let mut budget = PlainBudget::new(&marks, 0);
    let Answered::Granted { charge: _, look } = budget.reserve(5_000, marks.mark(0)) else {
        panic!(rt; "the first ask is refused")
    };
    assert_eq!(rt; look, Look { stamp: 0, found: 0 });
    let past = Answered::Past {
        look: Look {
            stamp: 1,
            found: 5_000,
        },
    };
    assert_eq!(rt; budget.reserve(1_001, marks.mark(0)), past);
    let Answered::Granted { charge, look } = budget.reserve(1_000, marks.mark(0)) else {
        panic!(rt; "an ask up to the mark is refused")
    };
    assert_eq!(rt;
        look,
        Look {
            stamp: 1,
            found: 5_000
        }
    );
    assert_eq!(rt; budget.used(), 6_000);
    assert_eq!(rt;
        budget.release(charge),
        Free {
            stamp: 2,
            bytes: 1_000
        }
    );
    let Answered::Granted { charge, look } = budget.reserve(1_001, marks.mark(1)) else {
        panic!(rt; "an ask of the next priority is refused")
    };
    assert_eq!(rt;
        look,
        Look {
            stamp: 3,
            found: 5_000
        }
    );
    assert_eq!(rt; charge.amount(), 1_001);
    assert_eq!(rt; charge.stamp(), 3);
    assert_eq!(rt; budget.used(), 6_001);
    Ok(())
}

/// The stamp and the used number as one number of 64 bits.
fn word_of(look: Look) -> u64 {
    (u64::from(look.stamp) << 32) + u64::from(look.found)
}

#[test]
fn a_release_takes_a_stamp(rt: HostRuntime) -> Result<(), Fail> {
    let marks = Marks::new(10_000, 4_000, 3)?;
    let mut budget = PlainBudget::new(&marks, 2);
    let Answered::Granted { charge, look: _ } = budget.reserve(1_460, marks.mark(0)) else {
        panic!(rt; "the first ask is refused")
    };
    let Answered::Past { look } = budget.reserve(1, 0) else {
        panic!(rt; "an ask above a mark of 0 is granted")
    };
    assert_eq!(rt; word_of(look), 12_884_903_348);
    assert_eq!(rt;
        budget.release(charge),
        Free {
            stamp: 3,
            bytes: 1_460
        }
    );
    assert_eq!(rt; budget.used(), 0);
    assert_eq!(rt; budget.stamp(), 4);
    let Answered::Past { look } = budget.reserve(1, 0) else {
        panic!(rt; "an ask above a mark of 0 is granted")
    };
    assert_eq!(rt; word_of(look), 17_179_869_184);
    Ok(())
}

#[test]
fn nothing_is_granted_once_the_stamps_are_spent(rt: HostRuntime) -> Result<(), Fail> {
    let marks = Marks::new(10_000, 4_000, 3)?;
    let spent = Look {
        stamp: 2_147_483_648,
        found: 0,
    };
    let mut budget = PlainBudget::new(&marks, 2_147_483_648);
    assert_eq!(rt;
        budget.reserve(1, marks.mark(2)),
        Answered::Spent { look: spent }
    );
    assert_eq!(rt;
        budget.reserve(10_001, marks.mark(0)),
        Answered::Spent { look: spent }
    );
    assert_eq!(rt;
        budget.reserve(u32::MAX, 0),
        Answered::Spent { look: spent }
    );
    Ok(())
}

#[test]
fn the_last_charge_is_released_behind_the_last_stamp(rt: HostRuntime) -> Result<(), Fail> {
    let marks = Marks::new(10_000, 4_000, 3)?;
    let mut budget = PlainBudget::new(&marks, 2_147_483_647);
    let Answered::Granted { charge, look: _ } = budget.reserve(10_000, marks.mark(2)) else {
        panic!(rt; "the last stamp grants nothing")
    };
    let spent = Look {
        stamp: 2_147_483_648,
        found: 10_000,
    };
    assert_eq!(rt;
        budget.reserve(1, marks.mark(2)),
        Answered::Spent { look: spent }
    );
    let free = Free {
        stamp: 2_147_483_648,
        bytes: 10_000,
    };
    assert_eq!(rt; budget.release(charge), free);
    Ok(())
}

/// How many bytes a part has, how many its charge pays for, and the charge's stamp.
fn sizes_of<C: Charge>(part: Part<C>) -> (usize, u32, u32) {
    let (bytes, charge) = part.unpack();
    (bytes.as_slice().len(), charge.amount(), charge.stamp())
}

#[test]
fn a_part_keeps_its_bytes_and_its_charge(rt: HostRuntime) -> Result<(), Fail> {
    let marks = Marks::new(10_000, 4_000, 3)?;
    let mut budget = PlainBudget::new(&marks, 7);
    let Answered::Granted { charge, look: _ } = budget.reserve(3, marks.mark(0)) else {
        panic!(rt; "the ask is refused")
    };
    let bytes = PartBytes::of([1u8, 2, 3].to_vec(rt.alloc())?);
    assert_eq!(rt; bytes.as_slice().len(), 3);
    let mut part = Part::new(bytes, charge);
    assert_eq!(rt; part.bytes(), [1, 2, 3].as_slice());
    part.set(1, 9);
    let (bytes, charge) = part.unpack();
    assert_eq!(rt; bytes.into_vec().as_slice(), [1, 9, 3].as_slice());
    assert_eq!(rt; charge.stamp(), 7);
    assert_eq!(rt; budget.release(charge), Free { stamp: 8, bytes: 3 });
    let Answered::Granted { charge, look: _ } = budget.reserve(2, marks.mark(0)) else {
        panic!(rt; "the ask is refused")
    };
    let bytes = PartBytes::of([4u8, 5].to_vec(rt.alloc())?);
    assert_eq!(rt; bytes.as_slice().len(), 2);
    assert_eq!(rt; sizes_of(Part::new(bytes, charge)), (2, 2, 9));
    Ok(())
}
