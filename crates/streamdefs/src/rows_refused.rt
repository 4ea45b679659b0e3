//! Journals that are refused for one mistake: each row names the parts that refuse it, and all other parts hold of it.
ghost use Rattle.std.specs.Prelude.{[], ◌∷◌};
ghost use Rattle.streamdefs.specs.Parts.{IsRefusedBy};
ghost use Rattle.streamdefs.specs.Parts.Part.{OfAnswers, OfConversations, OfDues, OfEnds, OfFound, OfFreeOrder, OfFrees, OfLimit, OfLookOrder, OfLooks, OfRest, OfSegs, OfServed, OfStamps, OfWorkOrder};
ghost use Rattle.evring.specs.Advice.{no_advice};
ghost use Rattle.streamdefs.specs.Convo.Act.{Seg, Answer};
ghost use Rattle.streamdefs.specs.Lawful.{EachCore, EachEntry, HasRoom, HasRoomFor, Window, core_run};
ghost use Rattle.streamdefs.specs.Rows.{line};
ghost use Rattle.streamdefs.specs.RowsWants.{with_events, syn_rst, crowded, two_resets, two_reset_lines};
ghost use Rattle.streamdefs.specs.RowsRefused.{tight_right, astray, bookless, unreplaced, split_in_two, timeless, unreset, unended, unopened, unanswered, swapped, invented, above_mark, below_mark, unasked, exchanged, shown_again, surplus, stamped_past, stamped_twice, private, boundless, lost, falling, stale, backwards};

/// The journal that the next ones spoil is refused by no part.
pub fn the_next_ones_without_their_mistake()
    ensures parts { IsRefusedBy [] tight_right }
{}

/// A packet of another core.
pub fn a_packet_on_another_core()
    ensures parts { IsRefusedBy (OfSegs ∷ []) astray }
{}

/// A core without a book.
pub fn a_core_without_a_book()
    ensures parts { IsRefusedBy (OfSegs ∷ []) bookless }
{}

/// A SYN with another base stands under the live conversation.
pub fn a_wrong_conversation()
    ensures parts { IsRefusedBy (OfConversations ∷ []) unreplaced }
{}

/// A packet stands under a new conversation while that of its key is live.
pub fn a_surplus_conversation()
    ensures parts { IsRefusedBy (OfConversations ∷ []) split_in_two }
{}

/// The Time of a hole is missing.
pub fn a_missing_time()
    ensures parts { IsRefusedBy (OfDues ∷ []) timeless }
{}

/// The End of a reset is missing.
pub fn a_missing_reset()
    ensures parts { IsRefusedBy (OfEnds ∷ []) unreset }
{}

/// A conversation has no End.
pub fn a_missing_end()
    ensures parts { IsRefusedBy (OfEnds ∷ []) unended }
{}

/// A conversation ends that never opened.
pub fn an_end_of_nothing()
    ensures parts { IsRefusedBy (OfEnds ∷ []) unopened }
{}

/// An event has no answer.
pub fn a_missing_answer()
    ensures parts { IsRefusedBy (OfAnswers ∷ []) unanswered }
{}

/// Answers stand out of order.
pub fn answers_out_of_order()
    ensures parts { IsRefusedBy (OfAnswers ∷ []) swapped }
{}

/// Advice that the handler doesn't state.
pub fn invented_advice()
    ensures parts { IsRefusedBy (OfAnswers ∷ []) invented }
{}

/// A look is granted above its mark.
pub fn a_look_granted_above_its_mark()
    ensures parts { IsRefusedBy (OfLooks ∷ []) above_mark }
{}

/// A look is refused below its mark.
pub fn a_look_refused_below_its_mark()
    ensures parts { IsRefusedBy (OfLooks ∷ []) below_mark }
{}

/// A copy isn't asked for.
pub fn a_missing_ask()
    ensures parts { IsRefusedBy (OfLooks ∷ []) unasked }
{}

/// Two charges of one delivery are given back in the other order.
pub fn frees_in_another_order()
    ensures parts { IsRefusedBy (OfFrees ∷ []) exchanged }
{}

/// A kept chunk is given back and shown again: its free has no charge.
pub fn a_kept_chunk_shown_again()
    ensures parts { IsRefusedBy (OfFrees ∷ OfFreeOrder ∷ []) shown_again }
{}

/// A surplus core in a worker's list.
pub fn a_surplus_core()
    ensures parts { IsRefusedBy (OfServed ∷ []) surplus }
{}

/// A free has a stamp past the last.
pub fn a_wrong_stamp()
    ensures parts { IsRefusedBy (OfStamps ∷ []) stamped_past }
{}

/// A stamp stands twice.
pub fn a_stamp_twice()
    ensures parts { IsRefusedBy (OfStamps ∷ []) stamped_twice }
{}

/// Each core counts its own used bytes alone.
pub fn used_bytes_counted_per_core()
    ensures parts { IsRefusedBy (OfFound ∷ []) private }
{}

/// The used bytes pass the limit, which marks above it allow.
pub fn a_passed_limit()
    ensures parts { IsRefusedBy (OfLimit ∷ []) boundless }
{}

/// A charge isn't given back.
pub fn a_lost_charge()
    ensures parts { IsRefusedBy (OfFrees ∷ OfRest ∷ []) lost }
{}

/// The frees of an entry fall.
pub fn frees_that_fall()
    ensures parts { IsRefusedBy (OfFreeOrder ∷ []) falling }
{}

/// A look found what was used before an earlier answer gave back.
pub fn a_stale_look()
    ensures parts { IsRefusedBy (OfLookOrder ∷ []) stale }
{}

/// A worker's frees fall along its list.
pub fn a_worker_that_goes_back()
    ensures parts { IsRefusedBy (OfWorkOrder ∷ []) backwards }
{}

/// Before an entry 255 events may be unanswered, and not 256: so the 129th conversation of a journal where each has made two comes
/// too early. In small: no part refuses two of them, and a window of two events does. Answers need no room.
pub fn a_crowded_window()
    ensures room { HasRoom (with_events 255) (line 129 (Seg (syn_rst 129) 0 [] [])) }
    ensures full { HasRoom (with_events 256) (line 129 (Seg (syn_rst 129) 0 [] [])) → ⊥ }
    ensures answers { HasRoom (with_events 256) (line 1 (Answer 1 no_advice [])) }
    ensures journal { EachCore crowded Window → ⊥ }
    ensures others { IsRefusedBy [] two_resets }
    ensures small { EachEntry (core_run two_resets 0 two_reset_lines) (HasRoomFor 2) → ⊥ }
{}
