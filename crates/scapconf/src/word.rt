// A line as a text, and its words joined.
ghost use Rattle.std.specs.Prelude.{◌≡◌, IfOk, string_bytes, drop, true};
ghost use Rattle.linewords.specs.Words.{words};
ghost use Rattle.scapconf.specs.Lines.{is_text, joined};

use crate::Memory;
use linewords::{next_word, skip_words};
use std::alloc::Global;
use std::str;

/// A line as a text.
pub(crate) fn text_of(line: &[u8]) -> &str
    requires { is_text line.now ≡ true }
    ensures { result.now ≡ line.now }
{
    match str::from_utf8(line) {
        Ok(text) => text,
        Err(_) => unreachable!(),
    }
}

/// The words of a line, joined by one space.
fn joined_words(alloc: Global, line: &[u8]) -> Result<Vec<u8>, Memory>
    ensures { IfOk result (λ text. text.items ≡ joined (words line.now)) }
{
    let mut text = Vec::new(alloc);
    let Some((first, behind)) = next_word(line) else {
        return Ok(text);
    };
    text.extend_from_slice(first)?;
    let mut left = behind;
    while let Some((word, behind)) = next_word(left) {
        text.push(b' ')?;
        text.extend_from_slice(word)?;
        left = behind;
    }
    Ok(text)
}

/// The expression that stands in a line behind so many words.
pub(crate) fn expression(alloc: Global, line: &[u8], behind: usize) -> Result<String, Memory>
    requires { is_text line.now ≡ true }
    ensures { IfOk result (λ text. string_bytes text ≡ joined (drop behind (words line.now))) }
{
    let text = joined_words(alloc, skip_words(line, behind))?;
    match String::from_utf8(text) {
        Ok(text) => Ok(text),
        Err(_) => unreachable!(),
    }
}
