//! The definitions evaluated on words, parts and events written out by hand.
ghost use Rattle.std.specs.Prelude.{◌≡◌, [], ◌∷◌, Some, None, codes, true, false, nat_eq};
ghost use Rattle.std.specs.List.{starts_with};
ghost use Rattle.evring.specs.Advice.{no_advice};
ghost use Rattle.handler.specs.declared.condition.DataTest.TheVariants as datas;
ghost use Rattle.handler.specs.declared.part.Part.TheVariants.{Keep, Discard, Cutoff, Priority};
ghost use Rattle.handler.specs.Parts.{is_fresh, with_parts};
ghost use Rattle.handler.specs.Reader.{data_test, new_test, part};
ghost use Rattle.handler.specs.Values.{front, port, position, priority};

/// Numbers at the ends of their ranges, and one past; zeros may lead within ten digits, and twenty of a position.
#[tactic(auto, unfolding(crate::specs::Values::port, crate::specs::Values::position, crate::specs::Values::priority))]
pub fn numbers_have_ranges()
    ensures greatest_port { port (codes "65535") ≡ Some 65535 }
    ensures no_port { port (codes "65536") ≡ None }
    ensures ten_digits { port (codes "0000000080") ≡ Some 80 }
    ensures eleven_digits { port (codes "00000000080") ≡ None }
    ensures greatest_position { position (codes "18446744073709551615") ≡ Some 18446744073709551615 }
    ensures no_position { position (codes "18446744073709551616") ≡ None }
    ensures twenty_digits { position (codes "00000000000000000007") ≡ Some 7 }
    ensures twenty_one_digits { position (codes "000000000000000000007") ≡ None }
    ensures greatest_priority { priority (codes "15") ≡ Some 15 }
    ensures no_priority { priority (codes "16") ≡ None }
    ensures sign { position (codes "+1") ≡ None }
{}

/// Two digits of either case are a byte, and there is one byte at least.
#[tactic(auto, unfolding(crate::specs::Values::front, hex::specs::Hex::decode_pairs))]
pub fn fronts_have_bytes()
    ensures two { front (codes "4745") ≡ Some (71 ∷ 69 ∷ []) }
    ensures either_case { front (codes "aBFf") ≡ Some (171 ∷ 255 ∷ []) }
    ensures nothing { front [] ≡ None }
    ensures odd { front (codes "474") ≡ None }
    ensures no_digit { front (codes "4g") ≡ None }
{}

/// Each kind of advice stands once, in any order, and `keep` in rules of chunks alone.
pub fn parts_stand_once()
    ensures both { with_parts (Keep ∷ Cutoff 5 ∷ []) no_advice ≡ record { keep = true; discard = false; cutoff = Some 5; priority = None } }
    ensures turned { with_parts (Cutoff 5 ∷ Keep ∷ []) no_advice ≡ record { keep = true; discard = false; cutoff = Some 5; priority = None } }
    ensures kept { is_fresh true Keep no_advice ≡ true }
    ensures of_new { is_fresh false Keep no_advice ≡ false }
    ensures twice { is_fresh true (Cutoff 1) (with_parts (Cutoff 2 ∷ []) no_advice) ≡ false }
    ensures beside { is_fresh false (Priority 1) (with_parts (Cutoff 2 ∷ Discard ∷ []) no_advice) ≡ true }
{}

/// Words are read as what they name.
#[tactic(auto, unfolding(crate::specs::Reader::new_test, crate::specs::Reader::data_test, crate::specs::Reader::part, crate::specs::Values::position))]
pub fn words_are_read()
    ensures before { data_test (codes "before") (codes "4") ≡ Some (datas.Before 4) }
    ensures from { data_test (codes "from") (codes "4") ≡ Some (datas.From 4) }
    ensures of_chunks_alone { new_test (codes "before") (codes "4") ≡ None }
    ensures keep { part (codes "keep") (codes "discard") ≡ Some Keep }
    ensures cutoff { part (codes "cutoff") (codes "7") ≡ Some (Cutoff 7) }
    ensures endless { part (codes "cutoff") (codes "none") ≡ None }
    ensures upper { part (codes "Keep") [] ≡ None }
{}

/// Bytes begin with others where these are no longer and the same.
pub fn bytes_begin()
    ensures more { starts_with nat_eq (71 ∷ 69 ∷ 84 ∷ []) (71 ∷ 69 ∷ []) ≡ true }
    ensures same { starts_with nat_eq (71 ∷ 69 ∷ []) (71 ∷ 69 ∷ []) ≡ true }
    ensures fewer { starts_with nat_eq (71 ∷ []) (71 ∷ 69 ∷ []) ≡ false }
    ensures later { starts_with nat_eq (32 ∷ 71 ∷ 69 ∷ []) (71 ∷ 69 ∷ []) ≡ false }
{}
