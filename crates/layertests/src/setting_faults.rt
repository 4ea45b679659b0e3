// Which fault a text of settings has: one runner for texts, and one for those with a part many times.
use crate::setting_fault_cases::{
    COUNTS, CUTOFFS_CLASSES_AND_BUDGETS, FIRST, LIMITS, NONE, NOT_TEXT, RULES, Repetition, TWICE,
    UNKNOWN, VALUES,
};
use scapconf::{Settings, SettingsError, SettingsKind};
use std::alloc::Global;
use std::process::Abort;
use std::test::Fail;

/// The line and the kind of a text's fault, and none where it has settings.
fn fault_of(alloc: Global, text: &[u8]) -> Result<Option<(u32, SettingsKind)>, Fail> {
    match Settings::parse(alloc, text) {
        Ok(_) => Ok(None),
        Err(SettingsError::Fault { line, kind }) => Ok(Some((line, kind))),
        Err(SettingsError::Memory) => Err("want of memory".into()),
    }
}

fn expect_faults(
    rt: &impl Abort,
    alloc: Global,
    cases: &[(&str, u32, SettingsKind)],
) -> Result<(), Fail> {
    for (text, line, kind) in cases {
        let found = fault_of(alloc, text.as_bytes())?;
        assert_eq!(rt; found, Some((*line, *kind)), "of {text}");
    }
    Ok(())
}

fn fault_of_repeated(
    alloc: Global,
    case: &Repetition,
) -> Result<Option<(u32, SettingsKind)>, Fail> {
    let (front, text, times, back, _) = *case;
    let middle = text.repeat(alloc, times)?;
    let all = format!(in alloc; "{front}{middle}{back}")?;
    fault_of(alloc, all.as_bytes())
}

fn expect_repeated(rt: &impl Abort, alloc: Global, cases: &[Repetition]) -> Result<(), Fail> {
    for case in cases {
        let found = fault_of_repeated(alloc, case)?;
        assert_eq!(rt; found, case.4, "of {} {} and {}", case.2, case.1, case.3);
    }
    Ok(())
}

#[test]
fn bytes_that_no_line_has_are_told(rt: HostRuntime) -> Result<(), Fail> {
    expect_faults(&rt, rt.alloc(), &NOT_TEXT)?;
    let found = fault_of(rt.alloc(), &[b'#', 200])?;
    assert_eq!(rt; found, Some((1, SettingsKind::Text)));
    // All that a remark may have.
    let found = fault_of(rt.alloc(), &[b'#', 9, 32, 33, 125, 126])?;
    assert_eq!(rt; found, None);
    Ok(())
}

#[test]
fn unknown_repeated_missing_and_further_words_are_told(rt: HostRuntime) -> Result<(), Fail> {
    expect_faults(&rt, rt.alloc(), &UNKNOWN)?;
    expect_faults(&rt, rt.alloc(), &TWICE)?;
    expect_faults(&rt, rt.alloc(), &COUNTS)
}

#[test]
fn words_that_are_no_values_are_told(rt: HostRuntime) -> Result<(), Fail> {
    expect_faults(&rt, rt.alloc(), &VALUES)?;
    expect_faults(&rt, rt.alloc(), &CUTOFFS_CLASSES_AND_BUDGETS)
}

#[test]
fn budgets_filters_and_rules_that_are_none_are_told(rt: HostRuntime) -> Result<(), Fail> {
    expect_faults(&rt, rt.alloc(), &NONE)?;
    expect_faults(&rt, rt.alloc(), &RULES)
}

#[test]
fn the_first_fault_is_told(rt: HostRuntime) -> Result<(), Fail> {
    expect_faults(&rt, rt.alloc(), &FIRST)
}

#[test]
fn limits_are_kept(rt: HostRuntime) -> Result<(), Fail> {
    expect_repeated(&rt, rt.alloc(), &LIMITS)
}
