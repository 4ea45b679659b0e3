//! Journals written out by hand: their text, and whether they are the history of a budget, by computation. Of a journal
//! with one number off, one part of the history is refused and the others hold; room for each grant follows from those.
ghost use Rattle.std.specs.Prelude.{◌≡◌, codes, flat_map};
ghost use Rattle.histbook.specs.JournalText.{journal_text};
ghost use Rattle.histbook.specs.Budget.{HasEachStampOnce, FoundTheUsed, HadRoom, StaysWithin, IsSettled};
ghost use Rattle.histbook.specs.Moves.{journal_moves, journal_looks, IsBudgetHistory};
ghost use Rattle.histbook.specs.InTurn.{book_steps, IsInTurn, peak_along, peak};
ghost use Rattle.histbook.specs.Rows.{one_datagram, four_datagrams, stamp_twice, stamp_too_high, look_too_late, found_one_more, one_byte_kept, look_first, release_first};

/// One datagram of two bytes.
pub fn one_datagram_is_a_history()
    ensures text { journal_text (one_datagram 0)
        ≡ codes "core 0\nseg 1 1 1000000005 +2@0:0\nans 1 1 .\nend 1 1000000005 finish\nans 1 2 . ~2@1\nans 1 3 .\nworker 0\nfrom 0 3\n" }
    ensures history { IsBudgetHistory 4096 (one_datagram 0) }
    ensures tight { IsBudgetHistory 2 (one_datagram 0) }
{}

/// The same with a found number of 1.
pub fn one_datagram_finds_nothing_used()
    ensures once { HasEachStampOnce 0 (journal_moves (one_datagram 1)) }
    ensures found { ¬ FoundTheUsed 0 (journal_moves (one_datagram 1)) (journal_looks (one_datagram 1)) }
    ensures within { StaysWithin 4096 (journal_moves (one_datagram 1)) }
    ensures settled { IsSettled (journal_moves (one_datagram 1)) }
{}

/// Four datagrams under a budget of 4,096 bytes, of which the third is refused. The peak is 4,000.
pub fn four_datagrams_are_a_history()
    ensures text { journal_text four_datagrams
        ≡ codes "core 0\nseg 1 1 0 +1400@0:0\nans 1 1 .\nseg 1 2 0 +1400@1:1400\nseg 1 3 0 -1400@2:2800\nseg 1 4 0 +1200@2:2800\nans 1 2 . ~1400@3 ~1400@4\nend 1 0 finish\nans 1 3 . ~1200@5\nans 1 4 .\nworker 0\nfrom 0 4\n" }
    ensures history { IsBudgetHistory 4096 four_datagrams }
    ensures tight { IsBudgetHistory 4000 four_datagrams }
{}

/// A limit one lower than the peak.
pub fn a_lower_limit_is_passed()
    ensures once { HasEachStampOnce 0 (journal_moves four_datagrams) }
    ensures found { FoundTheUsed 0 (journal_moves four_datagrams) (journal_looks four_datagrams) }
    ensures within { ¬ StaysWithin 3999 (journal_moves four_datagrams) }
    ensures settled { IsSettled (journal_moves four_datagrams) }
{}

/// A release has the stamp of a grant.
pub fn a_stamp_stands_once()
    ensures once { ¬ HasEachStampOnce 0 (journal_moves stamp_twice) }
    ensures found { FoundTheUsed 0 (journal_moves stamp_twice) (journal_looks stamp_twice) }
    ensures room { HadRoom 4096 0 (journal_moves stamp_twice) }
    ensures within { StaysWithin 4096 (journal_moves stamp_twice) }
    ensures settled { IsSettled (journal_moves stamp_twice) }
{}

/// The last release has a stamp above the number of moves.
pub fn stamps_leave_none_out()
    ensures once { ¬ HasEachStampOnce 0 (journal_moves stamp_too_high) }
    ensures found { FoundTheUsed 0 (journal_moves stamp_too_high) (journal_looks stamp_too_high) }
    ensures within { StaysWithin 4096 (journal_moves stamp_too_high) }
    ensures settled { IsSettled (journal_moves stamp_too_high) }
{}

/// A refused look has a stamp above the number of moves.
pub fn a_look_stands_at_a_stamp()
    ensures once { HasEachStampOnce 0 (journal_moves look_too_late) }
    ensures found { ¬ FoundTheUsed 0 (journal_moves look_too_late) (journal_looks look_too_late) }
    ensures room { HadRoom 4096 0 (journal_moves look_too_late) }
    ensures within { StaysWithin 4096 (journal_moves look_too_late) }
    ensures settled { IsSettled (journal_moves look_too_late) }
{}

/// A refused look found one byte more than was used.
pub fn a_look_finds_the_used_number()
    ensures once { HasEachStampOnce 0 (journal_moves found_one_more) }
    ensures found { ¬ FoundTheUsed 0 (journal_moves found_one_more) (journal_looks found_one_more) }
    ensures room { HadRoom 4096 0 (journal_moves found_one_more) }
    ensures within { StaysWithin 4096 (journal_moves found_one_more) }
    ensures settled { IsSettled (journal_moves found_one_more) }
{}

/// A byte isn't given back.
pub fn all_is_given_back()
    ensures once { HasEachStampOnce 0 (journal_moves one_byte_kept) }
    ensures found { FoundTheUsed 0 (journal_moves one_byte_kept) (journal_looks one_byte_kept) }
    ensures room { HadRoom 4096 0 (journal_moves one_byte_kept) }
    ensures within { StaysWithin 4096 (journal_moves one_byte_kept) }
    ensures settled { ¬ IsSettled (journal_moves one_byte_kept) }
{}

/// The four datagrams were done in turn, up to 4,000 bytes.
pub fn four_datagrams_are_done_in_turn()
    ensures turn { IsInTurn 4096 (flat_map book_steps four_datagrams.cores) 0 0 6 0 }
    ensures tight { IsInTurn 4000 (flat_map book_steps four_datagrams.cores) 0 0 6 0 }
    ensures along { peak_along (flat_map book_steps four_datagrams.cores) 0 ≡ 4000 }
    ensures moves { peak (journal_moves four_datagrams) ≡ 4000 }
{}

/// A limit one lower than the peak, a stamp twice, a refused look that found one byte more, and one byte kept to the end.
pub fn no_turn_with_a_number_off()
    ensures limit { ¬ IsInTurn 3999 (flat_map book_steps four_datagrams.cores) 0 0 6 0 }
    ensures twice { ¬ IsInTurn 4096 (flat_map book_steps stamp_twice.cores) 0 0 6 0 }
    ensures found { ¬ IsInTurn 4096 (flat_map book_steps found_one_more.cores) 0 0 6 0 }
    ensures kept { ¬ IsInTurn 4096 (flat_map book_steps one_byte_kept.cores) 0 0 6 0 }
{}

/// The looks of an entry stand before its releases: the other way round it is a history too, but not in turn.
pub fn looks_stand_before_releases()
    ensures turn { IsInTurn 5 (flat_map book_steps look_first.cores) 0 0 4 0 }
    ensures along { peak_along (flat_map book_steps look_first.cores) 0 ≡ 5 }
    ensures history { IsBudgetHistory 5 release_first }
    ensures other { ¬ IsInTurn 5 (flat_map book_steps release_first.cores) 0 0 4 0 }
{}
