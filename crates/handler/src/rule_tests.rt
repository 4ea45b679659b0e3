use crate::{Condition, DataTest, NewTest, Rule, RuleError, RuleList};
use evring::Advice;
use std::alloc::Global;
use std::test::Fail;

/// An advice in words: its parts in one order, each behind a space.
fn advice_text(alloc: Global, advice: Advice) -> Result<String, Fail> {
    let mut text = String::new(alloc);
    if advice.keep {
        text.push_str(" keep")?;
    }
    if advice.discard {
        text.push_str(" discard")?;
    }
    if let Some(position) = advice.cutoff {
        text.push_str(&format!(in alloc; " cutoff {position}")?)?;
    }
    if let Some(priority) = advice.priority {
        text.push_str(&format!(in alloc; " priority {priority}")?)?;
    }
    Ok(text)
}

fn data_text(alloc: Global, test: &DataTest) -> Result<String, Fail> {
    match test {
        DataTest::Any => Ok(format!(in alloc; "data any")?),
        DataTest::Port(port) => Ok(format!(in alloc; "data port {port}")?),
        DataTest::Before(position) => Ok(format!(in alloc; "data before {position}")?),
        DataTest::From(position) => Ok(format!(in alloc; "data from {position}")?),
        DataTest::Begins(front) => {
            let digits = hex::encode(alloc, front.as_slice())?;
            Ok(format!(in alloc; "data begins {digits}")?)
        }
    }
}

fn condition_text(alloc: Global, condition: &Condition) -> Result<String, Fail> {
    match condition {
        Condition::New(NewTest::Any) => Ok(format!(in alloc; "new any")?),
        Condition::New(NewTest::Port(port)) => Ok(format!(in alloc; "new port {port}")?),
        Condition::Data(test) => data_text(alloc, test),
    }
}

/// A rule in words, the numbers without leading zeros.
fn rule_text(alloc: Global, rule: &Rule) -> Result<String, Fail> {
    let mut text = condition_text(alloc, &rule.condition)?;
    text.push_str(advice_text(alloc, rule.advice)?.as_str())?;
    Ok(text)
}

#[test]
fn rules_are_read(rt: HostRuntime) -> Result<(), Fail> {
    let rows = [
        ("rule new any discard", "new any discard"),
        ("rule new any cutoff 0", "new any cutoff 0"),
        ("rule new any priority 15", "new any priority 15"),
        ("rule new port 80 discard", "new port 80 discard"),
        ("rule new port 0 priority 0", "new port 0 priority 0"),
        (
            "rule new port 65535 cutoff 18446744073709551615",
            "new port 65535 cutoff 18446744073709551615",
        ),
        ("rule new port 0000000080 discard", "new port 80 discard"),
        (
            "rule new any discard cutoff 5 priority 3",
            "new any discard cutoff 5 priority 3",
        ),
        (
            "rule new any priority 3 cutoff 5 discard",
            "new any discard cutoff 5 priority 3",
        ),
        ("rule data any keep", "data any keep"),
        ("rule data any discard", "data any discard"),
        (
            "rule data any cutoff 00000000000000000007",
            "data any cutoff 7",
        ),
        ("rule data any priority 0000000015", "data any priority 15"),
        (
            "rule data port 443 keep discard cutoff 1 priority 2",
            "data port 443 keep discard cutoff 1 priority 2",
        ),
        (
            "rule data port 443 priority 2 cutoff 1 discard keep",
            "data port 443 keep discard cutoff 1 priority 2",
        ),
        ("rule data before 0 keep", "data before 0 keep"),
        (
            "rule data before 18446744073709551615 keep",
            "data before 18446744073709551615 keep",
        ),
        (
            "rule data before 00000000000000000004 keep",
            "data before 4 keep",
        ),
        ("rule data from 0 discard", "data from 0 discard"),
        (
            "rule data from 10 keep priority 1",
            "data from 10 keep priority 1",
        ),
        (
            "rule data from 18446744073709551615 keep",
            "data from 18446744073709551615 keep",
        ),
        ("rule data begins 47 discard", "data begins 47 discard"),
        (
            "rule data begins 4745 cutoff 6",
            "data begins 4745 cutoff 6",
        ),
        ("rule data begins aBCdEf keep", "data begins abcdef keep"),
        ("rule data begins 00 keep", "data begins 00 keep"),
        (
            "rule data begins 0123456789abcdefABCDEF00 discard",
            "data begins 0123456789abcdefabcdef00 discard",
        ),
        ("  rule\tnew   any\t\tdiscard  ", "new any discard"),
        ("\trule\tdata\tany\tkeep\t", "data any keep"),
    ];
    for (line, expected) in rows {
        let rule = Rule::parse(rt.alloc(), line)?;
        let found = rule_text(rt.alloc(), &rule)?;
        assert_eq!(rt; found.as_str(), expected, "of {line}");
        let copy = rule_text(rt.alloc(), &rule.copy()?)?;
        assert_eq!(rt; copy.as_str(), expected, "of {line}");
    }
    Ok(())
}

/// Why a line is no rule, and none where it is one.
fn fault_of(alloc: Global, line: &str) -> Option<RuleError> {
    match Rule::parse(alloc, line) {
        Ok(_) => None,
        Err(error) => Some(error),
    }
}

#[test]
fn all_other_lines_are_refused(rt: HostRuntime) {
    let rows = [
        // Words that are missing.
        "",
        " \t ",
        "rule",
        "rule new",
        "rule data",
        "rule new any",
        "rule data any",
        "rule new port 80",
        "rule data begins 47",
        "rule any discard",
        "new any discard",
        "rule new port discard",
        "rule data before keep",
        "rule data begins keep",
        "rule data any cutoff",
        "rule data any priority",
        // Words that are others.
        "Rule new any discard",
        "rules new any discard",
        "rule New any discard",
        "rule old any discard",
        "rule new all discard",
        "rule data any Keep",
        "rule data any drop",
        "rule data any keep,discard",
        "# rule data any keep",
        // What rules of new conversations don't have.
        "rule new any keep",
        "rule new port 80 discard keep",
        "rule new before 4 discard",
        "rule new from 4 discard",
        "rule new begins 47 discard",
        // Numbers out of range, or none.
        "rule new port 65536 discard",
        "rule new port 00000000080 discard",
        "rule new port -1 discard",
        "rule new port +1 discard",
        "rule new port 0x50 discard",
        "rule data port 99999999999 keep",
        "rule data before 18446744073709551616 keep",
        "rule data before 000000000000000000004 keep",
        "rule data from 1.5 keep",
        "rule data from none keep",
        "rule data any cutoff none",
        "rule data any cutoff -",
        "rule data any cutoff 18446744073709551616",
        "rule data any cutoff 000000000000000000001",
        "rule data any priority 16",
        "rule data any priority 00000000001",
        "rule data any priority -1",
        // Digits that write no bytes.
        "rule data begins 4 keep",
        "rule data begins 474 keep",
        "rule data begins 4g keep",
        "rule data begins 0x47 keep",
        "rule data begins -47 keep",
        // Advice that stands twice.
        "rule data any keep keep",
        "rule data any discard discard",
        "rule data any cutoff 1 cutoff 2",
        "rule data any priority 1 priority 1",
        "rule data any keep discard keep",
        // Words behind the last.
        "rule new port 80 443 discard",
        "rule data begins 47 45 keep",
        "rule data any keep 1",
        "rule data any keep all",
        "rule data any keep # remark",
        "rule data any keep rule data any keep",
        // No blanks but spaces and tabs.
        "rule data any keep\r",
        "rule data any\nkeep",
        "rule data any\u{a0}keep",
    ];
    for line in rows {
        let found = fault_of(rt.alloc(), line);
        assert_eq!(rt; found, Some(RuleError::Fault), "of {line}");
    }
}

#[test]
fn rules_keep_their_order(rt: HostRuntime) -> Result<(), Fail> {
    let mut rules = RuleList::none(rt.alloc());
    for line in ["rule new any discard", "rule data begins 00 keep"] {
        rules.push(Rule::parse(rt.alloc(), line)?)?;
    }
    let items = rules.copy()?.into_vec();
    assert_eq!(rt; items.len(), 2);
    let mut all = String::new(rt.alloc());
    for rule in RuleList::of(items).as_slice() {
        all.push_str(rule_text(rt.alloc(), rule)?.as_str())?;
        all.push_str(";")?;
    }
    assert_eq!(rt; all.as_str(), "new any discard;data begins 00 keep;");
    Ok(())
}
