//! What the words of a make ask for, evaluated: each is the contract of a function with an empty body.
#![tactic(auto, unfolding(crate::specs::Words::is_later_command, crate::specs::Words::seed_in, crate::specs::Words::count_in))]

ghost use Rattle.std.specs.Prelude.{◌≡◌, [], ◌∷◌, ◌++◌, codes, Some, None};
ghost use Rattle.labtop.specs.Words.{command_of, count_in, seed_in, Make, Wrong};
ghost use Rattle.labtop.specs.declared.limits.TheConstants.{MOST_DIGITS};

/// Two numbers and a name are a make; at least one record is made.
pub fn three_words_are_a_make()
    ensures make { command_of (codes "scaplab" ∷ codes "make" ∷ codes "0" ∷ codes "1" ∷ codes "big" ∷ []) ≡ Make 0 1 (codes "big") }
    ensures none { command_of (codes "scaplab" ∷ codes "make" ∷ codes "1" ∷ codes "0" ∷ codes "big" ∷ []) ≡ Wrong }
    ensures no_name { command_of (codes "scaplab" ∷ codes "make" ∷ codes "1" ∷ codes "1" ∷ [] ∷ []) ≡ Wrong }
    ensures option { command_of (codes "scaplab" ∷ codes "make" ∷ codes "1" ∷ codes "1" ∷ codes "-big" ∷ []) ≡ Wrong }
    ensures more { command_of (codes "scaplab" ∷ codes "make" ∷ codes "1" ∷ codes "1" ∷ codes "big" ∷ codes "big" ∷ []) ≡ Wrong }
{}

/// Numbers have one to twenty digits, and zeros may lead.
pub fn numbers_have_twenty_digits()
    ensures digits { MOST_DIGITS ≡ 20 }
    ensures greatest { seed_in (codes "18446744073709551615") ≡ Some 18446744073709551615 }
    ensures greater { seed_in (codes "18446744073709551616") ≡ None }
    ensures leading { seed_in (codes "00000000000000000007") ≡ Some 7 }
    ensures long { seed_in (codes "000000000000000000007") ≡ None }
    ensures empty { seed_in [] ≡ None }
    ensures most { count_in (codes "1000000") ≡ Some 1000000 }
    ensures too_many { count_in (codes "1000001") ≡ None }
    ensures sign { count_in (codes "+1") ≡ None }
{}
