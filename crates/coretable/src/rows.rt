//! What a core chooses behind small books.
ghost use Rattle.std.specs.Prelude.{◌≡◌, [], ◌∷◌};
ghost use Rattle.evring.specs.declared.reason.Reason.TheVariants.{Idle, Replaced, Reset, Finish};
ghost use Rattle.streamdefs.specs.Convo.Act.{Seg, Time, End};
ghost use Rattle.streamdefs.specs.Rows.{defaults, line, got};
ghost use Rattle.coretable.specs.Course.{seg_line};
ghost use Rattle.coretable.specs.Course.Choice.{Begins, Waits, Closed};
ghost use Rattle.coretable.specs.Course.Job.{Nothing, Takes, Closes};
ghost use Rattle.coretable.specs.Rows.{chosen, at_300, at_400, a_byte, syn, reset, plain};

/// A quiet conversation ends at its moment, before a later packet of another key; then that one opens its own.
pub fn a_quiet_conversation_ends_at_its_moment()
    ensures ends { chosen defaults (line 1 (Seg (a_byte 5000 1 0) 0 (got 1 0 0 ∷ []) []) ∷ []) (Takes (a_byte 5001 2 at_400)) ≡ Begins (line 1 (End at_300 Idle [] [])) }
    ensures opens { chosen defaults (line 1 (Seg (a_byte 5000 1 0) 0 (got 1 0 0 ∷ []) []) ∷ line 1 (End at_300 Idle [] []) ∷ []) (Takes (a_byte 5001 2 at_400)) ≡ Begins (seg_line 2 (a_byte 5001 2 at_400)) }
    ensures early { chosen defaults (line 1 (Seg (a_byte 5000 1 0) 0 (got 1 0 0 ∷ []) []) ∷ []) (Takes (a_byte 5001 2 299999999999)) ≡ Begins (seg_line 2 (a_byte 5001 2 299999999999)) }
{}

/// At 300 seconds the idle time has passed for the conversation of the packet's own key, too.
pub fn the_idle_time_has_passed_at_its_end()
    ensures { chosen defaults (line 1 (Seg (a_byte 5000 1 0) 0 (got 1 0 0 ∷ []) []) ∷ []) (Takes (a_byte 5000 2 at_300)) ≡ Begins (line 1 (End at_300 Idle [] [])) }
{}

/// A flush falls due before the packet, at its moment.
pub fn a_flush_falls_due()
    ensures { chosen (record defaults { flush = 500000000 }) (line 1 (Seg (a_byte 5000 1 0) 0 (got 1 0 0 ∷ []) []) ∷ []) (Takes (a_byte 5000 2 2000000000)) ≡ Begins (line 1 (Time 500000000 [] [])) }
{}

/// A SYN with another base ends the live conversation, and then opens one.
pub fn a_conversation_is_replaced()
    ensures ends { chosen defaults (line 1 (Seg (syn 1 0 100) 0 [] []) ∷ []) (Takes (syn 2 5 200)) ≡ Begins (line 1 (End 5 Replaced [] [])) }
    ensures opens { chosen defaults (line 1 (Seg (syn 1 0 100) 0 [] []) ∷ line 1 (End 5 Replaced [] []) ∷ []) (Takes (syn 2 5 200)) ≡ Begins (seg_line 2 (syn 2 5 200)) }
    ensures same { chosen defaults (line 1 (Seg (syn 1 0 100) 0 [] []) ∷ []) (Takes (syn 2 5 100)) ≡ Begins (seg_line 1 (syn 2 5 100)) }
{}

/// Behind a reset the End comes at once, whatever was loaded; a late segment belongs to the conversation that has ended, until
/// the idle time has passed, and one with SYN opens another.
pub fn late_segments_belong_to_what_has_ended()
    ensures ends { chosen defaults (line 1 (Seg (syn 1 0 100) 0 [] []) ∷ line 1 (Seg (reset 2 7) 7 [] []) ∷ []) Nothing ≡ Begins (line 1 (End 7 Reset [] [])) }
    ensures late { chosen defaults (line 1 (Seg (syn 1 0 100) 0 [] []) ∷ line 1 (Seg (reset 2 7) 7 [] []) ∷ line 1 (End 7 Reset [] []) ∷ []) (Takes (plain 3 8)) ≡ Begins (seg_line 1 (plain 3 8)) }
    ensures syn { chosen defaults (line 1 (Seg (syn 1 0 100) 0 [] []) ∷ line 1 (Seg (reset 2 7) 7 [] []) ∷ line 1 (End 7 Reset [] []) ∷ []) (Takes (syn 3 8 100)) ≡ Begins (seg_line 3 (syn 3 8 100)) }
    ensures idle { chosen defaults (line 1 (Seg (syn 1 0 100) 0 [] []) ∷ line 1 (Seg (reset 2 7) 7 [] []) ∷ line 1 (End 7 Reset [] []) ∷ []) (Takes (plain 3 300000000007)) ≡ Begins (seg_line 3 (plain 3 300000000007)) }
{}

/// At the end of the capture what is due comes first, then the Ends by ascending number, and then the core is done.
pub fn the_capture_ends_by_number()
    ensures due { chosen defaults (line 1 (Seg (a_byte 5000 1 0) 0 (got 1 0 0 ∷ []) []) ∷ line 2 (Seg (a_byte 5001 2 5) 5 (got 1 1 1 ∷ []) []) ∷ []) (Closes at_300) ≡ Begins (line 1 (End at_300 Idle [] [])) }
    ensures first { chosen defaults (line 1 (Seg (a_byte 5000 1 0) 0 (got 1 0 0 ∷ []) []) ∷ line 2 (Seg (a_byte 5001 2 5) 5 (got 1 1 1 ∷ []) []) ∷ []) (Closes 9) ≡ Begins (line 1 (End 9 Finish [] [])) }
    ensures second { chosen defaults (line 1 (Seg (a_byte 5000 1 0) 0 (got 1 0 0 ∷ []) []) ∷ line 2 (Seg (a_byte 5001 2 5) 5 (got 1 1 1 ∷ []) []) ∷ line 1 (End 9 Finish [] []) ∷ []) (Closes 9) ≡ Begins (line 2 (End 9 Finish [] [])) }
    ensures done { chosen defaults (line 1 (Seg (a_byte 5000 1 0) 0 (got 1 0 0 ∷ []) []) ∷ line 1 (End 9 Finish [] []) ∷ []) (Closes 9) ≡ Closed }
    ensures waits { chosen defaults (line 1 (Seg (a_byte 5000 1 0) 0 (got 1 0 0 ∷ []) []) ∷ []) Nothing ≡ Waits }
{}
