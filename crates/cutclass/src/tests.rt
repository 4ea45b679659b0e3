use crate::*;
use capfilter::Filter;
use std::alloc::Global;
use std::test::Fail;
use streamkey::{Addr, End, Key, Proto};

fn rule_of(alloc: Global, priority: u8, cut: Cut, filter: &str) -> Result<ClassRule, Fail> {
    Ok(ClassRule {
        priority,
        cut,
        filter: Filter::parse(alloc, filter)?,
    })
}

/// A class in words.
fn shown(alloc: Global, rule: &ClassRule) -> Result<String, Fail> {
    let priority = rule.priority;
    let cut = rule.cut;
    let filter = rule.filter.to_string(alloc)?;
    Ok(format!(in alloc; "{priority} {cut:?} {filter}")?)
}

#[test]
fn the_33rd_class_is_refused_and_handed_back(rt: HostRuntime) -> Result<(), Fail> {
    let mut classes = Classes::new(rt.alloc());
    assert!(rt; classes.as_slice().is_empty());
    for priority in 0..32 {
        classes.add(rule_of(rt.alloc(), priority, Cut::Endless, "tcp")?)?;
    }
    let one_more = rule_of(rt.alloc(), 32, Cut::At(7), "port 53")?;
    let Err(ClassError::Full(rule)) = classes.add(one_more) else {
        panic!(rt; "the 33rd class is added")
    };
    assert_eq!(rt; shown(rt.alloc(), &rule)?.as_str(), "32 At(7) port 53");
    assert_eq!(rt; classes.as_slice().len(), 32);
    for (i, rule) in classes.as_slice().iter().enumerate() {
        assert_eq!(rt; usize::from(rule.priority), i);
    }
    Ok(())
}

#[test]
fn copies_are_equal(rt: HostRuntime) -> Result<(), Fail> {
    let mut classes = Classes::new(rt.alloc());
    classes.add(rule_of(rt.alloc(), 3, Cut::At(100), "udp and dst port 53")?)?;
    classes.add(rule_of(rt.alloc(), 0, Cut::Unset, "not net 10.0.0.0/8")?)?;
    let cutoffs = Cutoffs {
        default: Cut::At(1),
        fore: Cut::Endless,
        back: Cut::At(u64::MAX),
        classes,
    };
    let copy = cutoffs.copy()?;
    assert_eq!(rt; copy.default, Cut::At(1));
    assert_eq!(rt; copy.fore, Cut::Endless);
    assert_eq!(rt; copy.back, Cut::At(u64::MAX));
    let rules = copy.classes.as_slice();
    assert_eq!(rt; rules.len(), 2);
    assert_eq!(rt;
        shown(rt.alloc(), &rules[0])?.as_str(),
        "3 At(100) (udp and dst port 53)"
    );
    assert_eq!(rt;
        shown(rt.alloc(), &rules[1])?.as_str(),
        "0 Unset not net 10.0.0.0/8"
    );
    Ok(())
}

#[test]
fn the_first_set_cutoff_is_in_force(rt: HostRuntime) {
    let rows = [
        (Cut::At(4), Cut::At(10), Cut::Endless, Cut::Unset, Some(4)),
        (Cut::Unset, Cut::At(10), Cut::At(9), Cut::At(8), Some(10)),
        (Cut::Unset, Cut::Unset, Cut::At(0), Cut::At(9), Some(0)),
        (Cut::Unset, Cut::Unset, Cut::Unset, Cut::At(9), Some(9)),
        (Cut::Unset, Cut::Endless, Cut::At(1), Cut::At(9), None),
        (Cut::Endless, Cut::At(2), Cut::At(1), Cut::At(9), None),
        (Cut::Unset, Cut::Unset, Cut::Unset, Cut::Unset, None),
    ];
    for (stream, class, direction, default, position) in rows {
        assert_eq!(rt; in_force(stream, class, direction, default), position);
    }
}

#[test]
fn the_first_class_that_holds_is_found(rt: HostRuntime) -> Result<(), Fail> {
    let mut classes = Classes::new(rt.alloc());
    classes.add(rule_of(rt.alloc(), 1, Cut::Unset, "dst port 53")?)?;
    classes.add(rule_of(rt.alloc(), 2, Cut::At(9), "udp")?)?;
    classes.add(rule_of(rt.alloc(), 3, Cut::Endless, "port 53")?)?;
    let near = End {
        addr: Addr::V4([10, 0, 0, 1]),
        port: 5000,
    };
    let far = End {
        addr: Addr::V4([10, 0, 0, 2]),
        port: 53,
    };
    let rows = [
        (Proto::Udp, near, far, Some(1)),
        (Proto::Udp, far, near, Some(2)),
        (Proto::Tcp, near, far, Some(1)),
        (Proto::Tcp, far, near, Some(3)),
        (Proto::Tcp, near, near, None),
    ];
    for (proto, source, target, priority) in rows {
        let (key, toward) = Key::of(proto, source, target);
        let found = classes.find(&key, toward).map(|rule| rule.priority);
        assert_eq!(rt; found, priority);
    }
    Ok(())
}
