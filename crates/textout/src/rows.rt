//! Texts written out by hand, and what the definitions give for them, by computation.
ghost use Rattle.std.specs.Prelude.{◌≡◌, [], ◌∷◌, Some, None, codes};
ghost use Rattle.hex.specs.Hex.{encode_lower};
ghost use Rattle.textout.specs.Addresses.{dotted, grouped};
ghost use Rattle.textout.specs.Numbers.{number};
ghost use Rattle.textout.specs.Texts.{spaced};
ghost use Rattle.textout.specs.Rows.{documented};

/// Numbers stand behind one space each, and no numbers are no text.
pub fn numbers_stand_behind_spaces()
    ensures none { spaced [] ≡ [] }
    ensures three { spaced (0 ∷ 7 ∷ 18446744073709551615 ∷ []) ≡ codes " 0 7 18446744073709551615" }
{}

/// A byte has two digits, the high one first.
#[tactic(auto, unfolding(hex::specs::Hex::encode_with))]
pub fn bytes_have_two_digits()
    ensures none { encode_lower [] ≡ [] }
    ensures four { encode_lower (0 ∷ 1 ∷ 0xa0 ∷ 0xff ∷ []) ≡ codes "0001a0ff" }
{}

/// Addresses of documents (RFC 5737, RFC 3849): no zero is left out, none leads an octet.
pub fn addresses_are_written()
    ensures version_4 { dotted (192 ∷ 0 ∷ 2 ∷ 1 ∷ []) ≡ codes "192.0.2.1" }
    ensures version_6 { grouped documented ≡ codes "2001:0db8:0000:0000:0000:0000:fedc:ba98" }
{}

/// Zeros may lead within the most digits, letters are of either case, and nothing else stands in a number.
pub fn texts_are_numbers()
    ensures octet { number 10 3 255 (codes "255") ≡ Some 255 }
    ensures zeros { number 10 3 255 (codes "007") ≡ Some 7 }
    ensures past_the_greatest { number 10 3 255 (codes "256") ≡ None }
    ensures past_the_most { number 10 3 255 (codes "0255") ≡ None }
    ensures nothing { number 10 3 255 [] ≡ None }
    ensures sign { number 10 3 255 (codes "+1") ≡ None }
    ensures either_case { number 16 4 65535 (codes "aBc") ≡ Some 0xabc }
    ensures no_digit { number 16 4 65535 (codes "abg") ≡ None }
    ensures all_64_bits { number 10 20 18446744073709551615 (codes "18446744073709551615") ≡ Some 18446744073709551615 }
    ensures one_more { number 10 20 18446744073709551615 (codes "18446744073709551616") ≡ None }
{}
