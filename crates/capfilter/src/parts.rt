// The parts of a text between separators.
ghost use Rattle.std.specs.Prelude.{◌≡◌, [], ◌∷◌, ◌++◌, position, nat_eq, MatchOption};
ghost use Rattle.capfilter.specs.Numbers.{parts};

fn place_of(text: &[u8], byte: u8) -> Option<usize>
    ensures { result ≡ position (λ b. nat_eq b byte) text.now }
{
    text.iter().position(|b| *b == byte)
}

/// The part of a text before the first such byte, and what follows that byte.
pub(crate) fn cut(text: &[u8], byte: u8) -> (&[u8], Option<&[u8]>)
    ensures parts { MatchOption result.1 (parts byte text.now ≡ result.0.now ∷ []) (λ rest. parts byte text.now ≡ result.0.now ∷ parts byte rest.now) }
    ensures less { MatchOption result.1 (result.0.now ≡ text.now) (λ rest. text.now ≡ result.0.now ++ byte ∷ rest.now) }
{
    match place_of(text, byte) {
        None => (text, None),
        Some(at) => (&text[..at], Some(&text[at + 1..])),
    }
}
