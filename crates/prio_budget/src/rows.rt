//! Marks, asks and charges written out by hand, and what the definitions give for them, by computation.
ghost use Rattle.std.specs.Prelude.{◌≡◌, [], ◌∷◌};
ghost use Rattle.prio_budget.specs.declared.mark_fault.MarkFault.TheVariants as fault;
ghost use Rattle.prio_budget.specs.declared.answered.Answered.TheVariants.{Granted, Past, Spent};
ghost use Rattle.prio_budget.specs.ChargeParts.{ChargeParts};
ghost use Rattle.prio_budget.specs.Answers.{IsDecided};
ghost use Rattle.prio_budget.specs.MarkParts.{AreMarks};
ghost use Rattle.prio_budget.specs.Marks.{mark_of, IsFirstFault};
ghost use Rattle.prio_budget.specs.Out.{HasOut};
ghost use Rattle.prio_budget.specs.Rows.{three, seven, half_full, last, spent, two_out, first_charge, last_charge};

/// Three priorities between 4,000 and 10,000 bytes, and one past the last.
pub fn three_priorities_have_their_marks()
    ensures first { mark_of three 0 ≡ 6000 }
    ensures second { mark_of three 1 ≡ 8000 }
    ensures last { mark_of three 2 ≡ 10000 }
    ensures past_the_last { mark_of three 3 ≡ 10000 }
    ensures greatest { mark_of three 255 ≡ 10000 }
{}

/// Seven priorities over 10,000 bytes: 10,000 / 7 is 1,428 and 4 sevenths, 30,000 / 7 is 4,285 and 5 sevenths.
pub fn marks_are_rounded_down()
    ensures first { mark_of seven 0 ≡ 1428 }
    ensures third { mark_of seven 2 ≡ 4285 }
    ensures last { mark_of seven 6 ≡ 10000 }
{}

/// The least and the greatest numbers that marks can have.
pub fn marks_reach_their_bounds()
    ensures least { AreMarks 4096 0 1 }
    ensures greatest { AreMarks 2147483647 2147483647 16 }
{}

/// Numbers with one fault each, and with several.
pub fn the_first_fault_counts()
    ensures limit { IsFirstFault 4095 0 1 fault.Limit }
    ensures base { IsFirstFault 10000 10001 1 fault.Base }
    ensures count { IsFirstFault 10000 0 17 fault.Count }
    ensures none_of_them { IsFirstFault 10000 0 0 fault.Count }
    ensures limit_before_base { IsFirstFault 2147483648 4294967295 1 fault.Limit }
    ensures base_before_count { IsFirstFault 4096 4097 17 fault.Base }
{}

/// With 5,000 of 10,000 bytes in use, an ask is granted up to its priority's mark.
pub fn an_ask_is_granted_up_to_its_mark()
    ensures granted { (c : ChargeParts) → IsDecided 1000 (mark_of three 0) (Granted c half_full) }
    ensures past { IsDecided {C = ChargeParts} 1001 (mark_of three 0) (Past half_full) }
    ensures higher { (c : ChargeParts) → IsDecided 1001 (mark_of three 1) (Granted c half_full) }
    ensures last_stamp { (c : ChargeParts) → IsDecided 10000 (mark_of three 2) (Granted c last) }
    ensures spent { IsDecided {C = ChargeParts} 1 (mark_of three 2) (Spent spent) }
{}

/// Two charges of 1,460 and 1,000 bytes are what 2,460 bytes in use stand for.
pub fn two_charges_are_out()
    ensures { HasOut two_out (first_charge ∷ last_charge ∷ []) }
{}
