ghost use Rattle.std.specs.Prelude.{◌≡◌, ◌<◌, [], ◌∷◌, length, MatchOption, IfSome, position, not, slice_index, drop, false};
ghost use Rattle.linewords.specs.Words.{is_blank, word_at, words};

fn is_blank(byte: u8) -> bool
    ensures { result ≡ is_blank byte }
{
    byte == b' ' || byte == b'\t'
}

fn place_of_word(text: &[u8]) -> Option<usize>
    ensures { result ≡ position (λ b. not (is_blank b)) text.now }
{
    text.iter().position(|b| !is_blank(*b))
}

fn place_of_blank(text: &[u8]) -> Option<usize>
    ensures { result ≡ position is_blank text.now }
{
    text.iter().position(|b| is_blank(*b))
}

/// The first word of a text that begins with one, and what follows it.
fn split_word(text: &[u8]) -> (&[u8], &[u8])
    requires some { 0 < length text.now }
    requires begins { is_blank (slice_index text.now 0) ≡ false }
    ensures word { words text.now ≡ result.0.now ∷ words result.1.now }
    ensures shorter { length result.1.now < length text.now }
{
    match place_of_blank(text) {
        None => (text, &text[text.len()..]),
        Some(at) => (&text[..at], &text[at..]),
    }
}

/// The first word of a line, and what follows it.
pub fn next_word(line: &[u8]) -> Option<(&[u8], &[u8])>
    ensures word { MatchOption result (words line.now ≡ []) (λ r. words line.now ≡ r.0.now ∷ words r.1.now) }
    ensures shorter { IfSome result (λ r. length r.1.now < length line.now) }
{
    let at = place_of_word(line)?;
    Some(split_word(&line[at..]))
}

/// How many words a line has.
pub fn count_words(line: &[u8]) -> usize
    ensures { result ≡ length (words line.now) }
{
    let mut count = 0;
    let mut left = line;
    while let Some((_, behind)) = next_word(left) {
        count += 1;
        left = behind;
    }
    count
}

/// What stands behind so many words.
pub fn skip_words(line: &[u8], count: usize) -> &[u8]
    ensures { words result.now ≡ drop count (words line.now) }
{
    let mut left = line;
    for passed in 0..count {
        match next_word(left) {
            None => return left,
            Some((_, behind)) => left = behind,
        }
    }
    left
}

/// A word of a line, counted from 0; empty where it is missing.
pub fn word(line: &[u8], i: usize) -> &[u8]
    ensures { result.now ≡ word_at i (words line.now) }
{
    match next_word(skip_words(line, i)) {
        None => &line[line.len()..],
        Some((word, _)) => word,
    }
}
