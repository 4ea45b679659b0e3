// Settings are copied whole.
use convo::ConvoSet;
use cutclass::{Classes, Cut, Cutoffs};
use overpolicy::{Mode, Policy, Shape};
use prio_budget::Marks;
use std::test::Fail;

#[test]
fn a_copy_is_equal(rt: HostRuntime) -> Result<(), Fail> {
    let shape = Shape {
        mode: Mode::Fast,
        policy: Policy::Linux,
        chunk: 1,
        overlap: 2,
        flush: 3,
        hole: 4,
        reorder: 5,
        idle: 6,
    };
    let cutoffs = Cutoffs {
        default: Cut::At(7),
        fore: Cut::Endless,
        back: Cut::Unset,
        classes: Classes::new(rt.alloc()),
    };
    let marks = Marks::new(10_000, 4_000, 3)?;
    let set = ConvoSet {
        shape,
        cutoffs,
        marks,
    };
    let copy = set.copy()?;
    assert_eq!(rt; copy.shape, shape);
    assert_eq!(rt; copy.marks, marks);
    assert_eq!(rt; copy.cutoffs.default, Cut::At(7));
    assert_eq!(rt; copy.cutoffs.fore, Cut::Endless);
    assert_eq!(rt; copy.cutoffs.back, Cut::Unset);
    assert!(rt; copy.cutoffs.classes.as_slice().is_empty());
    Ok(())
}
