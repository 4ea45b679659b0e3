//! The definition evaluated on lines written out by hand.
ghost use Rattle.std.specs.Prelude.{◌≡◌, [], ◌∷◌, codes};
ghost use Rattle.linewords.specs.Words.{word_at, words};

/// Words stand apart by spaces and tabs, and nothing else parts them.
#[tactic(auto, unfolding(crate::specs::Words::words))]
pub fn lines_have_words()
    ensures nothing { words [] ≡ [] }
    ensures blanks { words (codes "  ") ≡ [] }
    ensures one { words (codes "rule") ≡ codes "rule" ∷ [] }
    ensures ends { words (codes " new  any ") ≡ codes "new" ∷ codes "any" ∷ [] }
    ensures tab { words (49 ∷ 9 ∷ 9 ∷ 50 ∷ []) ≡ codes "1" ∷ codes "2" ∷ [] }
    ensures other { words (49 ∷ 11 ∷ 50 ∷ 13 ∷ []) ≡ (49 ∷ 11 ∷ 50 ∷ 13 ∷ []) ∷ [] }
    ensures third { word_at 2 (words (codes "a bc d")) ≡ codes "d" }
    ensures missing { word_at 3 (words (codes "a bc d")) ≡ [] }
{}
