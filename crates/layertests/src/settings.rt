// What texts of settings say: one runner reads a text and compares all that it says.
use crate::settings_cases::{
    ALL, BUDGETS, CLASSES, CUTOFFS, Case, FILTERS, KEPT, MODES_AND_POLICIES, NOTHING, RULES,
    SIZES_AND_TIMES,
};
use cutclass::Cut;
use overpolicy::Shape;
use prio_budget::Marks;
use scapconf::Settings;
use std::alloc::Global;
use std::process::Abort;
use std::test::Fail;

/// What settings accept, in the canonical form; empty where they say nothing.
fn filter_of(alloc: Global, settings: &Settings) -> Result<String, Fail> {
    match &settings.filter {
        None => Ok(String::new(alloc)),
        Some(filter) => Ok(filter.to_string(alloc)?),
    }
}

/// Classes in words, one behind the other.
fn classes_of(alloc: Global, settings: &Settings) -> Result<String, Fail> {
    let mut all = String::new(alloc);
    for rule in settings.set.cutoffs.classes.as_slice() {
        let priority = rule.priority;
        let cut = rule.cut;
        let filter = rule.filter.to_string(alloc)?;
        all.push_str(&format!(in alloc; "{priority} {cut:?} {filter};")?)?;
    }
    Ok(all)
}

/// The positions at which rules cut, one behind the other; a rule that cuts nowhere is a point.
fn rules_of(alloc: Global, settings: &Settings) -> Result<String, Fail> {
    let mut all = String::new(alloc);
    for rule in settings.rules.as_slice() {
        match rule.advice.cutoff {
            Some(position) => all.push_str(&format!(in alloc; "{position};")?)?,
            None => all.push_str(".;")?,
        }
    }
    Ok(all)
}

/// Filter, classes and rules, each in a line.
fn words_of(alloc: Global, settings: &Settings) -> Result<String, Fail> {
    let filter = filter_of(alloc, settings)?;
    let classes = classes_of(alloc, settings)?;
    let rules = rules_of(alloc, settings)?;
    Ok(format!(in alloc; "{filter}\n{classes}\n{rules}")?)
}

/// The shape, the marks and the cutoffs.
type Numbers = (Shape, Marks, (Cut, Cut, Cut));

fn numbers_of(settings: &Settings) -> Numbers {
    let cutoffs = &settings.set.cutoffs;
    (
        settings.set.shape,
        settings.set.marks,
        (cutoffs.default, cutoffs.fore, cutoffs.back),
    )
}

/// Settings say what a case tells.
fn expect_kept(
    rt: &impl Abort,
    alloc: Global,
    settings: &Settings,
    case: &Case,
) -> Result<(), Fail> {
    let (limit, base, count) = case.marks;
    let numbers = (case.shape, Marks::new(limit, base, count)?, case.cuts);
    assert_eq!(rt; numbers_of(settings), numbers, "of {}", case.text);
    let words = format!(in alloc; "{}\n{}\n{}", case.filter, case.classes, case.rules)?;
    let found = words_of(alloc, settings)?;
    assert_eq!(rt; found.as_str(), words.as_str(), "of {}", case.text);
    Ok(())
}

/// The text of a case and a copy of its settings say what it tells.
fn expect_case(rt: &impl Abort, alloc: Global, case: &Case) -> Result<(), Fail> {
    let settings = Settings::parse(alloc, case.text.as_bytes())?;
    expect_kept(rt, alloc, &settings, case)?;
    expect_kept(rt, alloc, &settings.copy()?, case)
}

fn expect_said(rt: &impl Abort, alloc: Global, cases: &[Case]) -> Result<(), Fail> {
    for case in cases {
        expect_case(rt, alloc, case)?;
    }
    Ok(())
}

#[test]
fn what_is_not_said_has_its_default(rt: HostRuntime) -> Result<(), Fail> {
    let settings = Settings::defaults(rt.alloc())?;
    expect_kept(&rt, rt.alloc(), &settings, &NOTHING)
}

fn keeps(settings: &Settings) -> bool {
    match settings.rules.as_slice() {
        [rule] => rule.advice.keep,
        _ => false,
    }
}

#[test]
fn a_copy_is_equal(rt: HostRuntime) -> Result<(), Fail> {
    let settings = Settings::parse(rt.alloc(), KEPT.text.as_bytes())?;
    let copy = settings.copy()?;
    assert!(rt; keeps(&copy));
    expect_kept(&rt, rt.alloc(), &copy, &KEPT)
}

#[test]
fn words_and_numbers_are_read(rt: HostRuntime) -> Result<(), Fail> {
    expect_said(&rt, rt.alloc(), &MODES_AND_POLICIES)?;
    expect_said(&rt, rt.alloc(), &SIZES_AND_TIMES)?;
    expect_said(&rt, rt.alloc(), &CUTOFFS)?;
    expect_said(&rt, rt.alloc(), &BUDGETS)
}

#[test]
fn filters_classes_and_rules_are_read_in_order(rt: HostRuntime) -> Result<(), Fail> {
    expect_said(&rt, rt.alloc(), &FILTERS)?;
    expect_said(&rt, rt.alloc(), &CLASSES)?;
    expect_said(&rt, rt.alloc(), &RULES)
}

#[test]
fn all_lines_stand_together(rt: HostRuntime) -> Result<(), Fail> {
    expect_said(&rt, rt.alloc(), &ALL)
}

#[test]
fn there_may_be_32_classes_beside_32_rules(rt: HostRuntime) -> Result<(), Fail> {
    let text = "class 1 - ip6\nrule data any cutoff 5\n".repeat(rt.alloc(), 32)?;
    let settings = Settings::parse(rt.alloc(), text.as_bytes())?;
    let classes = "1 Unset ip6;".repeat(rt.alloc(), 32)?;
    let rules = "5;".repeat(rt.alloc(), 32)?;
    let words = format!(in rt.alloc(); "\n{classes}\n{rules}")?;
    assert_eq!(rt; words_of(rt.alloc(), &settings)?.as_str(), words.as_str());
    Ok(())
}
