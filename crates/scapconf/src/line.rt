// The lines of a text.
ghost use Rattle.std.specs.Prelude.{◌≡◌, ◌<◌, [], ◌∷◌, ◌↔◌, IsTrue, length, MatchOption, IfSome, position, nat_eq, true};
ghost use Rattle.std.specs.List.{slice_split};
ghost use Rattle.std.specs.Str.Lines.{lines, strip_carriage_return};
ghost use Rattle.scapconf.specs.Lines.{is_text_byte, is_text, is_comment};

fn place_of_feed(text: &[u8]) -> Option<usize>
    ensures { result ≡ position (λ b. nat_eq b 10) text.now }
{
    text.iter().position(|b| *b == b'\n')
}

fn without_return(line: &[u8]) -> &[u8]
    ensures { result.now ≡ strip_carriage_return line.now }
{
    match line.last() {
        Some(b'\r') => &line[..line.len() - 1],
        _ => line,
    }
}

/// The first line of a text, and what follows it.
pub(crate) fn next_line(text: &[u8]) -> Option<(&[u8], &[u8])>
    ensures line { MatchOption result (lines text.now ≡ []) (λ r. lines text.now ≡ r.0.now ∷ lines r.1.now) }
    ensures shorter { IfSome result (λ r. length r.1.now < length text.now) }
{
    if text.is_empty() {
        return None;
    }
    match place_of_feed(text) {
        None => Some((text, &text[text.len()..])),
        Some(at) => Some((without_return(&text[..at]), &text[at + 1..])),
    }
}

fn is_text_byte(byte: u8) -> bool
    ensures { result ≡ is_text_byte byte }
{
    byte == b'\t' || (b' '..=b'~').contains(&byte)
}

/// Whether a line has no other bytes than tabs and printable ones.
pub(crate) fn is_text(line: &[u8]) -> bool
    ensures { result ≡ is_text line.now }
{
    line.iter().all(|b| is_text_byte(*b))
}

pub(crate) fn is_comment(line: &[u8]) -> bool
    ensures { result ≡ is_comment line.now }
{
    !line.is_empty() && line[0] == b'#'
}
