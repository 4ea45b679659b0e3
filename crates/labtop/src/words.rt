// The words of the command line.
ghost use Rattle.std.specs.Prelude.{◌≡◌, ◌≤◌, IfOk, IfSome};
ghost use Rattle.labtop.specs.Words.{Means, command_of, count_in, drill_of, drill_words, has_later, is_drill, is_later_command, is_later_option, is_match, is_option, is_output, is_positional, make_of, make_words, match_words, seed_in, texts, told_word};

use crate::limits::MOST_DIGITS;
use crate::names::{name_of_delivery, name_of_match, name_of_report};
use pcapgen::MOST_RECORDS;
use std::alloc::{AllocError, Global};
use textout::read_number;

/// What the words ask for.
#[derive(Clone, Copy)]
pub(crate) enum Asked<'a> {
    Drill {
        settings: Option<&'a str>,
        capture: &'a str,
        out: &'a str,
    },
    Match {
        filter: &'a str,
        capture: &'a str,
        out: &'a str,
    },
    Make {
        seed: u64,
        count: u32,
        capture: &'a str,
    },
    Wrong,
    Later,
}

fn can_be_positional(word: &str) -> bool
    ensures { result ≡ is_positional word.now }
{
    match word.as_bytes() {
        [] => false,
        [first, ..] => *first != b'-',
    }
}

#[tactic(auto, unfolding(crate::specs::Words::is_later_command))]
fn is_command_of_later(word: &str) -> bool
    ensures { result ≡ is_later_command word.now }
{
    word == "audit"
}

#[tactic(auto, unfolding(crate::specs::Words::is_later_option))]
fn is_option_of_later(word: &str) -> bool
    ensures { result ≡ is_later_option word.now }
{
    word == "--cores" || word == "--workers" || word == "--seed"
}

fn has_option_of_later(words: &[&str]) -> bool
    ensures { result ≡ has_later (texts words.now) }
{
    match words {
        [] => false,
        [word, rest @ ..] => is_option_of_later(word) || has_option_of_later(rest),
    }
}

/// Whether a drill would create a file of that name.
#[tactic(auto, unfolding(crate::specs::Words::is_output))]
fn is_output(alloc: Global, out: &str, name: &str) -> Result<bool, AllocError>
    ensures { IfOk result (λ b. b ≡ is_output out.now name.now) }
{
    let delivery = name_of_delivery(alloc, out)?;
    let report = name_of_report(alloc, out)?;
    Ok(delivery.as_str() == name || report.as_str() == name)
}

fn is_output_or_none(alloc: Global, out: &str, name: Option<&str>) -> Result<bool, AllocError>
    ensures { IfOk result (λ b. b ≡ is_option out.now (told_word name.entry)) }
{
    match name {
        None => Ok(false),
        Some(name) => is_output(alloc, out, name),
    }
}

#[tactic(auto, unfolding(crate::specs::Words::is_drill))]
fn are_of_drill(
    alloc: Global,
    settings: Option<&str>,
    capture: &str,
    out: &str,
) -> Result<bool, AllocError>
    ensures { IfOk result (λ b. b ≡ is_drill (told_word settings.entry) capture.now out.now) }
{
    let over_capture = is_output(alloc, out, capture)?;
    let over_settings = is_output_or_none(alloc, out, settings)?;
    Ok(can_be_positional(capture) && can_be_positional(out) && !over_capture && !over_settings)
}

/// A drill with these settings, by the words behind its options.
fn drill_in<'a>(
    alloc: Global,
    settings: Option<&'a str>,
    words: &[&'a str],
) -> Result<Asked<'a>, AllocError>
    ensures { IfOk result (λ a. Means a (drill_of (told_word settings.entry) (texts words.now))) }
{
    match words {
        [] => Ok(Asked::Wrong),
        [_] => Ok(Asked::Wrong),
        [capture, out] => {
            if are_of_drill(alloc, settings, capture, out)? {
                Ok(Asked::Drill {
                    settings,
                    capture,
                    out,
                })
            } else {
                Ok(Asked::Wrong)
            }
        }
        [_, _, _, ..] => Ok(Asked::Wrong),
    }
}

fn drill_asked<'a>(alloc: Global, words: &[&'a str]) -> Result<Asked<'a>, AllocError>
    ensures { IfOk result (λ a. Means a (drill_words (texts words.now))) }
{
    let [option, settings, rest @ ..] = words else {
        return Ok(Asked::Wrong);
    };
    if *option == "--settings" {
        drill_in(alloc, Some(settings), rest)
    } else {
        drill_in(alloc, None, words)
    }
}

#[tactic(auto, unfolding(crate::specs::Words::is_match))]
fn are_of_match(alloc: Global, filter: &str, capture: &str, out: &str) -> Result<bool, AllocError>
    ensures { IfOk result (λ b. b ≡ is_match filter.now capture.now out.now) }
{
    let matches = name_of_match(alloc, out)?;
    Ok(
        can_be_positional(filter)
            && can_be_positional(capture)
            && can_be_positional(out)
            && matches.as_str() != capture,
    )
}

fn match_asked<'a>(alloc: Global, words: &[&'a str]) -> Result<Asked<'a>, AllocError>
    ensures { IfOk result (λ a. Means a (match_words (texts words.now))) }
{
    match words {
        [] => Ok(Asked::Wrong),
        [_] => Ok(Asked::Wrong),
        [_, _] => Ok(Asked::Wrong),
        [filter, capture, out] => {
            if are_of_match(alloc, filter, capture, out)? {
                Ok(Asked::Match {
                    filter,
                    capture,
                    out,
                })
            } else {
                Ok(Asked::Wrong)
            }
        }
        [_, _, _, _, ..] => Ok(Asked::Wrong),
    }
}

#[tactic(auto, unfolding(crate::specs::Words::seed_in))]
fn seed_in(word: &str) -> Option<u64>
    ensures { result ≡ seed_in word.now }
{
    read_number(word.as_bytes(), 10, MOST_DIGITS, u64::MAX)
}

#[tactic(auto, unfolding(crate::specs::Words::count_in))]
fn count_in(word: &str) -> Option<u64>
    ensures count { result ≡ count_in word.now }
    ensures few { IfSome result (λ n. n ≤ MOST_RECORDS) }
{
    read_number(word.as_bytes(), 10, MOST_DIGITS, u64::from(MOST_RECORDS))
}

/// A make by its three words.
fn make_in<'a>(seed: &str, count: &str, capture: &'a str) -> Asked<'a>
    ensures { Means result (make_of (seed_in seed.now) (count_in count.now) capture.now) }
{
    let Some(seed) = seed_in(seed) else {
        return Asked::Wrong;
    };
    let Some(count) = count_in(count) else {
        return Asked::Wrong;
    };
    if count > 0 && can_be_positional(capture) {
        Asked::Make {
            seed,
            count: count as u32,
            capture,
        }
    } else {
        Asked::Wrong
    }
}

fn make_asked<'a>(words: &[&'a str]) -> Asked<'a>
    ensures { Means result (make_words (texts words.now)) }
{
    match words {
        [] => Asked::Wrong,
        [_] => Asked::Wrong,
        [_, _] => Asked::Wrong,
        [seed, count, capture] => make_in(seed, count, capture),
        [_, _, _, _, ..] => Asked::Wrong,
    }
}

/// What the words ask for.
pub(crate) fn asked_in<'a>(alloc: Global, words: &[&'a str]) -> Result<Asked<'a>, AllocError>
    ensures { IfOk result (λ a. Means a (command_of (texts words.now))) }
{
    let [_, command, rest @ ..] = words else {
        return Ok(Asked::Wrong);
    };
    if is_command_of_later(command) {
        return Ok(Asked::Later);
    }
    if *command == "drill" {
        if has_option_of_later(rest) {
            return Ok(Asked::Later);
        }
        return drill_asked(alloc, rest);
    }
    if *command == "match" {
        return match_asked(alloc, rest);
    }
    if *command == "make" {
        return Ok(make_asked(rest));
    }
    Ok(Asked::Wrong)
}
