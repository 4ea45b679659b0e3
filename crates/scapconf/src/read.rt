// What the words of a line say.
ghost use Rattle.std.specs.Prelude.{◌≡◌, true, drop, MatchResult};
ghost use Rattle.capfilter.specs.Faults as filters;
ghost use Rattle.scapconf.specs.declared.name.Name.TheVariants as names;
ghost use Rattle.linewords.specs.Words.{words};
ghost use Rattle.scapconf.specs.Lines.{is_text, joined};
ghost use Rattle.scapconf.specs.Faults.{IsNoExpression};
ghost use Rattle.scapconf.specs.Parser.{IsRead, Refuses, RefusesExpression, rule_fault};

use crate::SettingsKind;
use crate::line_error::LineError;
use crate::name::Name;
use crate::place::Place;
use crate::setting::Setting;
use crate::size::Size;
use crate::time::Time;
use crate::value::{budget, class_cut, class_priority, cutoff, mode, policy, size, time};
use crate::word::{expression, text_of};
use capfilter::{Filter, FilterError};
use cutclass::ClassRule;
use handler::{Rule, RuleError};
use linewords::word;
use prio_budget::Marks;
use std::alloc::Global;

fn read_mode(line: &[u8]) -> Result<Setting, LineError>
    ensures { MatchResult result (IsRead names.Mode (words line.now)) (Refuses names.Mode (words line.now)) }
{
    match mode(word(line, 1)) {
        Some(mode) => Ok(Setting::Mode(mode)),
        None => Err(LineError::Fault(SettingsKind::Number)),
    }
}

fn read_policy(line: &[u8]) -> Result<Setting, LineError>
    ensures { MatchResult result (IsRead names.Policy (words line.now)) (Refuses names.Policy (words line.now)) }
{
    match policy(word(line, 1)) {
        Some(policy) => Ok(Setting::Policy(policy)),
        None => Err(LineError::Fault(SettingsKind::Number)),
    }
}

fn read_size(which: Size, line: &[u8]) -> Result<Setting, LineError>
    ensures { MatchResult result (IsRead (names.Size which) (words line.now)) (Refuses (names.Size which) (words line.now)) }
{
    match size(which, word(line, 1)) {
        Some(bytes) => Ok(Setting::Size(which, bytes)),
        None => Err(LineError::Fault(SettingsKind::Number)),
    }
}

fn read_time(which: Time, line: &[u8]) -> Result<Setting, LineError>
    ensures { MatchResult result (IsRead (names.Time which) (words line.now)) (Refuses (names.Time which) (words line.now)) }
{
    match time(which, word(line, 1)) {
        Some(nanoseconds) => Ok(Setting::Time(which, nanoseconds)),
        None => Err(LineError::Fault(SettingsKind::Number)),
    }
}

fn read_cutoff(line: &[u8]) -> Result<Setting, LineError>
    ensures { MatchResult result (IsRead names.Cutoff (words line.now)) (Refuses names.Cutoff (words line.now)) }
{
    match (Place::of(word(line, 1)), cutoff(word(line, 2))) {
        (Some(place), Some(cut)) => Ok(Setting::Cutoff(place, cut)),
        _ => Err(LineError::Fault(SettingsKind::Number)),
    }
}

fn read_budget(line: &[u8]) -> Result<Setting, LineError>
    ensures { MatchResult result (IsRead names.Budget (words line.now)) (Refuses names.Budget (words line.now)) }
{
    let Some((limit, base, count)) = budget(word(line, 1), word(line, 2), word(line, 3)) else {
        return Err(LineError::Fault(SettingsKind::Number));
    };
    match Marks::new(limit, base, count) {
        Ok(marks) => Ok(Setting::Budget(marks)),
        Err(_) => Err(LineError::Fault(SettingsKind::Budget)),
    }
}

/// The filter that the words of a line behind so many are.
fn read_expression(alloc: Global, line: &[u8], behind: usize) -> Result<Filter, LineError>
    requires { is_text line.now ≡ true }
    ensures { MatchResult result
        (λ filter. filters.Reads (joined (drop behind (words line.now))) filter × ¬ IsNoExpression (joined (drop behind (words line.now))))
        (RefusesExpression (joined (drop behind (words line.now)))) }
{
    let text = expression(alloc, line, behind)?;
    match Filter::parse(alloc, text.as_str()) {
        Ok(filter) => Ok(filter),
        Err(FilterError::Memory) => Err(LineError::Memory),
        Err(FilterError::Fault(_)) => Err(LineError::Fault(SettingsKind::Filter)),
    }
}

fn read_filter(alloc: Global, line: &[u8]) -> Result<Setting, LineError>
    requires { is_text line.now ≡ true }
    ensures { MatchResult result (IsRead names.Filter (words line.now)) (Refuses names.Filter (words line.now)) }
{
    match read_expression(alloc, line, 1) {
        Ok(filter) => Ok(Setting::Filter(filter)),
        Err(error) => Err(error),
    }
}

fn read_class(alloc: Global, line: &[u8]) -> Result<Setting, LineError>
    requires { is_text line.now ≡ true }
    ensures { MatchResult result (IsRead names.Class (words line.now)) (Refuses names.Class (words line.now)) }
{
    let (Some(priority), Some(cut)) = (class_priority(word(line, 1)), class_cut(word(line, 2)))
    else {
        return Err(LineError::Fault(SettingsKind::Number));
    };
    match read_expression(alloc, line, 3) {
        Ok(filter) => Ok(Setting::Class(ClassRule {
            priority,
            cut,
            filter,
        })),
        Err(error) => Err(error),
    }
}

fn rule_fault(error: RuleError) -> LineError
    ensures { result ≡ rule_fault error }
{
    match error {
        RuleError::Memory => LineError::Memory,
        RuleError::Fault => LineError::Fault(SettingsKind::Rule),
    }
}

fn read_rule(alloc: Global, line: &[u8]) -> Result<Setting, LineError>
    requires { is_text line.now ≡ true }
    ensures { MatchResult result (IsRead names.Rule (words line.now)) (Refuses names.Rule (words line.now)) }
{
    match Rule::parse(alloc, text_of(line)) {
        Ok(rule) => Ok(Setting::Rule(rule)),
        Err(error) => Err(rule_fault(error)),
    }
}

/// What a line of that name says, which has as many words as it may.
pub(crate) fn read(alloc: Global, name: Name, line: &[u8]) -> Result<Setting, LineError>
    requires { is_text line.now ≡ true }
    ensures { MatchResult result (IsRead name (words line.now)) (Refuses name (words line.now)) }
{
    match name {
        Name::Mode => read_mode(line),
        Name::Policy => read_policy(line),
        Name::Size(which) => read_size(which, line),
        Name::Time(which) => read_time(which, line),
        Name::Filter => read_filter(alloc, line),
        Name::Cutoff => read_cutoff(line),
        Name::Class => read_class(alloc, line),
        Name::Budget => read_budget(line),
        Name::Rule => read_rule(alloc, line),
    }
}
