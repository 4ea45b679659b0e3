// The tokens of a text.
ghost use Rattle.std.specs.Prelude.{◌≡◌, ◌≤◌, ◌<◌, ◌+◌, ◌-◌, [], ◌∷◌, length, take, drop, MatchOption, IfSome, slice_index, false, true, ℕ};
ghost use Rattle.capfilter.specs.Tokens.{tokens, is_blank, is_bracket, is_plain};

fn is_blank_byte(byte: u8) -> bool
    ensures { result ≡ is_blank byte }
{
    byte == b' ' || byte == b'\t'
}

fn is_bracket_byte(byte: u8) -> bool
    ensures { result ≡ is_bracket byte }
{
    byte == b'(' || byte == b')'
}

fn is_plain_byte(byte: u8) -> bool
    ensures { result ≡ is_plain byte }
{
    !is_blank_byte(byte) && !is_bracket_byte(byte)
}

/// Where the blanks end.
fn skip_blanks(text: &[u8], from: usize) -> usize
    requires { from ≤ length text.now }
    ensures range { (from ≤ result) × (result ≤ length text.now) }
    ensures tokens { tokens from (drop from text.now) ≡ tokens result (drop result text.now) }
    ensures stops { result < length text.now → is_blank (slice_index text.now result) ≡ false }
{
    let mut at = from;
    while at < text.len() && is_blank_byte(text[at]) {
        at += 1;
    }
    at
}

/// Where the plain bytes end.
fn skip_plain(text: &[u8], from: usize) -> usize
    requires { from ≤ length text.now }
    ensures range { (from ≤ result) × (result ≤ length text.now) }
    ensures plain { (i : ℕ) → from ≤ i → i < result → is_plain (slice_index text.now i) ≡ true }
    ensures stops { result < length text.now → is_plain (slice_index text.now result) ≡ false }
{
    let mut at = from;
    while at < text.len() && is_plain_byte(text[at]) {
        at += 1;
    }
    at
}

/// Where a token ends.
fn token_end(text: &[u8], start: usize) -> usize
    requires within { start < length text.now }
    requires begins { is_blank (slice_index text.now start) ≡ false }
    ensures range { (start < result) × (result ≤ length text.now) }
    ensures token { tokens start (drop start text.now) ≡ record { at = start; bytes = take (result - start) (drop start text.now) } ∷ tokens result (drop result text.now) }
{
    if is_bracket_byte(text[start]) {
        return start + 1;
    }
    skip_plain(text, start)
}

/// Where the next token begins and ends.
pub(crate) fn next_token(text: &[u8], from: usize) -> Option<(usize, usize)>
    requires { from ≤ length text.now }
    ensures range { IfSome result (λ r. (from ≤ r.0) × (r.0 < r.1) × (r.1 ≤ length text.now)) }
    ensures token { MatchOption result (tokens from (drop from text.now) ≡ [])
        (λ r. tokens from (drop from text.now) ≡ record { at = r.0; bytes = take (r.1 - r.0) (drop r.0 text.now) } ∷ tokens r.1 (drop r.1 text.now)) }
{
    let start = skip_blanks(text, from);
    if start == text.len() {
        return None;
    }
    Some((start, token_end(text, start)))
}
