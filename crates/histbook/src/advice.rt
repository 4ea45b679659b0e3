// The word of an advice.
ghost use Rattle.std.specs.Prelude.{◌≡◌, ◌++◌, OnOk, OnErr};
ghost use Rattle.textout.specs.Front.{IsFront};
ghost use Rattle.histbook.specs.JournalText.{advice_word};
ghost use Rattle.histbook.specs.Parts.{comma, flag_part, number_part, dot, has_flag, has_more, has_any};

use crate::Memory;
use evring::Advice;
use textout::{put_count, put_text};

fn put_comma(out: &mut Vec<u8>, behind: bool) -> Result<(), Memory>
    ensures ok { OnOk result (out.new.items ≡ out.old.items ++ comma behind) }
    ensures err { OnErr result (IsFront out.old.items out.new.items) }
{
    if behind { put_text(out, ",") } else { Ok(()) }
}

/// Appends a part that is set, with a comma where it stands behind others.
fn put_flag(out: &mut Vec<u8>, behind: bool, set: bool, label: &str) -> Result<(), Memory>
    ensures ok { OnOk result (out.new.items ≡ out.old.items ++ flag_part behind set label.now) }
    ensures err { OnErr result (IsFront out.old.items out.new.items) }
{
    if !set {
        return Ok(());
    }
    put_comma(out, behind)?;
    put_text(out, label)
}

fn put_number(
    out: &mut Vec<u8>,
    behind: bool,
    label: &str,
    number: Option<u64>,
) -> Result<(), Memory>
    ensures ok { OnOk result (out.new.items ≡ out.old.items ++ number_part behind label.now number) }
    ensures err { OnErr result (IsFront out.old.items out.new.items) }
{
    let Some(n) = number else {
        return Ok(());
    };
    put_comma(out, behind)?;
    put_count(out, label, n)
}

fn put_dot(out: &mut Vec<u8>, some: bool) -> Result<(), Memory>
    ensures ok { OnOk result (out.new.items ≡ out.old.items ++ dot some) }
    ensures err { OnErr result (IsFront out.old.items out.new.items) }
{
    if some { Ok(()) } else { put_text(out, ".") }
}

fn is_flagged(advice: &Advice) -> bool
    ensures { result ≡ has_flag advice.now }
{
    advice.keep || advice.discard
}

fn is_limited(advice: &Advice) -> bool
    ensures { result ≡ has_more advice.now }
{
    is_flagged(advice) || advice.cutoff.is_some()
}

fn is_any(advice: &Advice) -> bool
    ensures { result ≡ has_any advice.now }
{
    is_limited(advice) || advice.priority.is_some()
}

fn widened(priority: Option<u8>) -> Option<u64>
    ensures { result ≡ priority }
{
    match priority {
        Some(n) => Some(u64::from(n)),
        None => None,
    }
}

/// Appends the parts that are set, or a dot where none is.
pub(crate) fn put_advice(out: &mut Vec<u8>, advice: &Advice) -> Result<(), Memory>
    ensures ok { OnOk result (out.new.items ≡ out.old.items ++ advice_word advice.now) }
    ensures err { OnErr result (IsFront out.old.items out.new.items) }
{
    put_flag(out, false, advice.keep, "k")?;
    put_flag(out, advice.keep, advice.discard, "d")?;
    put_number(out, is_flagged(advice), "c", advice.cutoff)?;
    put_number(out, is_limited(advice), "p", widened(advice.priority))?;
    put_dot(out, is_any(advice))
}
