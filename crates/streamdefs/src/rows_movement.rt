//! The definitions of movement, evaluated on small histories: each row is the contract of a function with an empty body.
ghost use Rattle.std.specs.Prelude.{◌≡◌, [], ◌∷◌, ◌++◌, Some, map, replicate};
ghost use Rattle.evring.specs.declared.reason.Reason.TheVariants.{Finish};
ghost use Rattle.evring.specs.declared.way.Way.TheVariants.{Fore};
ghost use Rattle.streamkey.specs.declared.toward.Toward.TheVariants.{Up};
ghost use Rattle.overpolicy.specs.declared.policy.Policy.TheVariants.{First, Last, Bsd, Linux};
ghost use Rattle.streamdefs.specs.Marks.{mark};
ghost use Rattle.streamdefs.specs.View.{gaps};
ghost use Rattle.streamdefs.specs.Convo.{new_convo, convo_after, counts_in};
ghost use Rattle.streamdefs.specs.Convo.Seen.{Created, Data, Over};
ghost use Rattle.streamdefs.specs.Totals.{total_of};
ghost use Rattle.streamdefs.specs.Rows.{defaults, seen_along, asked_along, counts_along};
ghost use Rattle.streamdefs.specs.RowsMovement.{syn, wrap_syn, wrap_history, with_policy, overlap_history, equal_history, fast, fast_history, alive_history, cut_at_ten, cut_history, cut_at_once, cut_whole, cut_whole_history, holes_before, covering, reorder_ten, reorder_history, short_fin_history, below_history, hole_history};

/// Sequence numbers wrap: the bytes behind the last number follow without a gap.
pub fn sequence_numbers_wrap()
    ensures { seen_along defaults wrap_syn wrap_history ≡ Created wrap_syn.key Up ∷ Data wrap_syn.key Fore 0 0 0 [] (1 ∷ 2 ∷ 3 ∷ 4 ∷ 5 ∷ []) ∷ Over Finish ∷ [] }
{}

/// The first byte stays, or the last one, or that of the segment that starts before.
pub fn overlap_is_settled_by_policy()
    ensures first { seen_along (with_policy First) syn overlap_history
        ≡ Created syn.key Up ∷ Data syn.key Fore 0 0 0 [] (replicate 5 67 ++ replicate 5 66 ++ replicate 10 65) ∷ Over Finish ∷ [] }
    ensures last { seen_along (with_policy Last) syn overlap_history
        ≡ Created syn.key Up ∷ Data syn.key Fore 0 0 0 [] (replicate 10 67 ++ replicate 5 66 ++ replicate 5 65) ∷ Over Finish ∷ [] }
    ensures bsd { seen_along (with_policy Bsd) syn overlap_history
        ≡ Created syn.key Up ∷ Data syn.key Fore 0 0 0 [] (replicate 10 67 ++ replicate 5 66 ++ replicate 5 65) ∷ Over Finish ∷ [] }
    ensures linux { seen_along (with_policy Linux) syn overlap_history
        ≡ Created syn.key Up ∷ Data syn.key Fore 0 0 0 [] (replicate 10 67 ++ replicate 5 66 ++ replicate 5 65) ∷ Over Finish ∷ [] }
    ensures total { total_of (with_policy First) (new_convo syn) Fore overlap_history
        ≡ record { payload = 30; delivered = 20; counts = record { duplicate = 10; late = 0; cut = 0; taken = 20; shed = 0 }; gaps = [] } }
{}

/// Where the starts are equal BSD keeps the old byte and Linux takes the new one.
pub fn equal_starts_tell_bsd_from_linux()
    ensures first { seen_along (with_policy First) syn equal_history
        ≡ Created syn.key Up ∷ Data syn.key Fore 0 0 0 [] (replicate 10 67 ++ replicate 10 65) ∷ Over Finish ∷ [] }
    ensures bsd { seen_along (with_policy Bsd) syn equal_history
        ≡ Created syn.key Up ∷ Data syn.key Fore 0 0 0 [] (replicate 10 67 ++ replicate 10 65) ∷ Over Finish ∷ [] }
    ensures last { seen_along (with_policy Last) syn equal_history
        ≡ Created syn.key Up ∷ Data syn.key Fore 0 0 0 [] (replicate 10 67 ++ replicate 5 66 ++ replicate 5 65) ∷ Over Finish ∷ [] }
    ensures linux { seen_along (with_policy Linux) syn equal_history
        ≡ Created syn.key Up ∷ Data syn.key Fore 0 0 0 [] (replicate 10 67 ++ replicate 5 66 ++ replicate 5 65) ∷ Over Finish ∷ [] }
{}

/// In fast mode a hole is a gap at once, and what fills it later is late.
pub fn fast_mode_fills_no_gap()
    ensures seen { seen_along fast syn fast_history
        ≡ Created syn.key Up ∷ Data syn.key Fore 0 0 0 [] (replicate 50 65) ∷ Data syn.key Fore 100 50 0 [] (replicate 100 66) ∷ Over Finish ∷ [] }
    ensures late { map (λ c. c.late) (counts_along fast syn Fore fast_history) ≡ 0 ∷ 0 ∷ 0 ∷ 50 ∷ 0 ∷ [] }
{}

/// A keep-alive byte is a duplicate.
pub fn a_keep_alive_is_a_duplicate()
    ensures { (total_of defaults (new_convo syn) Fore alive_history).counts ≡ record { duplicate = 1; late = 0; cut = 0; taken = 10; shed = 0 } }
{}

/// Bytes at or past the cutoff are cut; at a cutoff of 0 the conversation still begins and ends.
pub fn a_cutoff_cuts()
    ensures counts { (total_of cut_at_ten (new_convo syn) Fore cut_history).counts ≡ record { duplicate = 0; late = 0; cut = 4; taken = 10; shed = 0 } }
    ensures none { seen_along cut_at_once cut_whole cut_whole_history ≡ Created cut_whole.key Up ∷ Over Finish ∷ [] }
    ensures all { map (λ c. c.cut) (counts_along cut_at_once cut_whole Fore cut_whole_history) ≡ 2 ∷ 0 ∷ [] }
{}

/// A segment over two holes asks for two runs; where the second is refused it and all later ones are shed.
pub fn a_refused_run_sheds_the_rest()
    ensures asks { asked_along defaults syn (holes_before ++ covering ∷ []) ≡ 5 ∷ 5 ∷ 5 ∷ 5 ∷ [] }
    ensures counts { counts_in defaults (convo_after defaults (new_convo syn) holes_before) Fore covering ≡ record { duplicate = 10; late = 0; cut = 0; taken = 5; shed = 10 } }
    ensures front { (convo_after defaults (new_convo syn) (holes_before ++ covering ∷ [])).directions.fore.view.front ≡ 10 }
{}

/// Once more than the tolerated bytes stand behind a hole, it is a gap.
pub fn a_crowded_hole_is_jumped()
    ensures total { total_of reorder_ten (new_convo syn) Fore reorder_history
        ≡ record { payload = 11; delivered = 11; counts = record { duplicate = 0; late = 0; cut = 0; taken = 11; shed = 0 }; gaps = record { at = 0; len = 5 } ∷ [] } }
    ensures flow { gaps (convo_after reorder_ten (new_convo syn) reorder_history).directions.fore.view ≡ record { at = 0; len = 5 } ∷ [] }
{}

/// The FIN position goes by the length that the header declares.
pub fn a_short_fin_has_its_declared_position()
    ensures fin { (convo_after defaults (new_convo syn) short_fin_history).directions.fore.fin ≡ Some 100 }
    ensures front { (convo_after defaults (new_convo syn) short_fin_history).directions.fore.view.front ≡ 10 }
{}

/// Bytes at positions below 0 are late.
pub fn bytes_below_zero_are_late()
    ensures { (total_of defaults (new_convo syn) Fore below_history).counts ≡ record { duplicate = 0; late = 2; cut = 0; taken = 1; shed = 0 } }
{}

/// A hole that falls due is a gap, and what fills it later is late.
pub fn a_due_hole_is_jumped()
    ensures seen { seen_along defaults syn hole_history ≡ Created syn.key Up ∷ Data syn.key Fore 5 5 0 [] (replicate 5 66) ∷ Over Finish ∷ [] }
    ensures total { total_of defaults (new_convo syn) Fore hole_history
        ≡ record { payload = 10; delivered = 5; counts = record { duplicate = 0; late = 5; cut = 0; taken = 5; shed = 0 }; gaps = record { at = 0; len = 5 } ∷ [] } }
{}

/// The marks of three priorities between a base and a limit.
pub fn marks_rise_with_the_priority()
    ensures { map (mark (record { limit = 10000; base = 4000; priorities = 3 })) (0 ∷ 1 ∷ 2 ∷ 7 ∷ []) ≡ 6000 ∷ 8000 ∷ 10000 ∷ 10000 ∷ [] }
{}
