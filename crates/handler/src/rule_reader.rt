// A rule is read from the words of its line.
ghost use Rattle.std.specs.Prelude.{◌≡◌, ◌<◌, length, drop, Some, None, MatchOption, MatchResult};
ghost use Rattle.evring.specs.declared.advice.Advice.{Advice};
ghost use Rattle.evring.specs.Advice.{no_advice};
ghost use Rattle.linewords.specs.Words.{words};
ghost use Rattle.handler.specs.declared.rule.Rule.{Rule};
ghost use Rattle.handler.specs.Values.{front};
ghost use Rattle.handler.specs.Reader.{condition_in, condition_of, data_test, new_test, IsMemoryOr};
ghost use Rattle.handler.specs.Parts.{condition_words, is_of_data};
ghost use Rattle.handler.specs.Grammar.{IsRule, SaysAdvice, SaysSome};

use crate::value::{port, position};
use crate::{Condition, DataTest, Front, NewTest, Part, Rule, RuleError};
use evring::Advice;
use hex::FromHexError;
use linewords::{next_word, skip_words, word};
use std::alloc::Global;

#[tactic(auto, unfolding(crate::specs::Reader::new_test))]
fn new_test(name: &[u8], value: &[u8]) -> Option<NewTest>
    ensures { result ≡ new_test name.now value.now }
{
    if name == "any".as_bytes() {
        Some(NewTest::Any)
    } else if name == "port".as_bytes() {
        port(value).map(NewTest::Port)
    } else {
        None
    }
}

/// The bytes that hexadecimal digits write.
#[tactic(auto, unfolding(crate::specs::Values::front))]
fn front(alloc: Global, word: &[u8]) -> Result<Front, RuleError>
    ensures { MatchResult result (λ bytes. front word.now ≡ Some bytes) (IsMemoryOr (front word.now ≡ None)) }
{
    if word.is_empty() {
        return Err(RuleError::Fault);
    }
    match hex::decode(alloc, word) {
        Ok(bytes) => Ok(Front::of(bytes)),
        Err(FromHexError::OutOfMemory) => Err(RuleError::Memory),
        Err(_) => Err(RuleError::Fault),
    }
}

/// The test of few words whose value is a number, or none.
#[tactic(auto, unfolding(crate::specs::Reader::data_test))]
fn data_test(alloc: Global, name: &[u8], value: &[u8]) -> Result<DataTest, RuleError>
    ensures { MatchResult result (λ test. data_test name.now value.now ≡ Some test) (IsMemoryOr (data_test name.now value.now ≡ None)) }
{
    if name == "any".as_bytes() {
        return Ok(DataTest::Any);
    }
    if name == "begins".as_bytes() {
        return match front(alloc, value) {
            Ok(bytes) => Ok(DataTest::Begins(bytes)),
            Err(error) => Err(error),
        };
    }
    let test = if name == "port".as_bytes() {
        port(value).map(DataTest::Port)
    } else if name == "before".as_bytes() {
        position(value).map(DataTest::Before)
    } else if name == "from".as_bytes() {
        position(value).map(DataTest::From)
    } else {
        None
    };
    test.ok_or(RuleError::Fault)
}

/// The condition that these words are, the last of which may be missing.
#[tactic(auto, unfolding(crate::specs::Reader::condition_of))]
fn condition_of(
    alloc: Global,
    first: &[u8],
    subject: &[u8],
    name: &[u8],
    value: &[u8],
) -> Result<Condition, RuleError>
    ensures { MatchResult result (λ condition. condition_of first.now subject.now name.now value.now ≡ Some condition)
        (IsMemoryOr (condition_of first.now subject.now name.now value.now ≡ None)) }
{
    if first != "rule".as_bytes() {
        return Err(RuleError::Fault);
    }
    if subject == "new".as_bytes() {
        return match new_test(name, value) {
            Some(test) => Ok(Condition::New(test)),
            None => Err(RuleError::Fault),
        };
    }
    if subject == "data".as_bytes() {
        return match data_test(alloc, name, value) {
            Ok(test) => Ok(Condition::Data(test)),
            Err(error) => Err(error),
        };
    }
    Err(RuleError::Fault)
}

fn condition_in(alloc: Global, line: &[u8]) -> Result<Condition, RuleError>
    ensures { MatchResult result (λ condition. condition_in (words line.now) ≡ Some condition) (IsMemoryOr (condition_in (words line.now) ≡ None)) }
{
    condition_of(
        alloc,
        word(line, 0),
        word(line, 1),
        word(line, 2),
        word(line, 3),
    )
}

/// The advice that words are, each kind of it once.
fn advice_of(line: &[u8], of_data: bool) -> Option<Advice>
    ensures { MatchOption result ((advice : Advice) → ¬ SaysAdvice of_data no_advice (words line.now) advice)
        (SaysAdvice of_data no_advice (words line.now)) }
{
    let mut advice = Advice::none();
    let mut left = line;
    while let Some((name, behind)) = next_word(left) {
        let part = Part::of(name, word(behind, 0))?;
        if !part.is_fresh(of_data, &advice) {
            return None;
        }
        advice = part.added(advice);
        left = skip_words(left, part.words());
    }
    Some(advice)
}

/// The advice behind a condition, one part at least.
fn advice_behind(line: &[u8], condition: &Condition) -> Option<Advice>
    ensures { MatchOption result ((advice : Advice) → ¬ SaysSome (is_of_data condition.now) (drop (condition_words condition.now) (words line.now)) advice)
        (SaysSome (is_of_data condition.now) (drop (condition_words condition.now) (words line.now))) }
{
    let behind = skip_words(line, condition.words());
    match next_word(behind) {
        None => None,
        Some(_) => advice_of(behind, condition.is_of_data()),
    }
}

/// The rule that a line is.
pub(crate) fn read(alloc: Global, line: &[u8]) -> Result<Rule, RuleError>
    ensures { MatchResult result (IsRule (words line.now)) (IsMemoryOr ((rule : Rule) → ¬ IsRule (words line.now) rule)) }
{
    match condition_in(alloc, line) {
        Err(error) => Err(error),
        Ok(condition) => match advice_behind(line, &condition) {
            None => Err(RuleError::Fault),
            Some(advice) => Ok(Rule { condition, advice }),
        },
    }
}
