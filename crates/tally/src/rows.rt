//! Moves and looks written out by hand, and what the table shows of them, by computation.
ghost use Rattle.std.specs.Prelude.{◌≡◌, true, false, [], ◌∷◌, None, Some};
ghost use Rattle.tally.specs.declared.moves.Move.TheVariants.{Grant, Free};
ghost use Rattle.tally.specs.Moves.{by_stamp, used_before, history_of};
ghost use Rattle.tally.specs.Table.{at, row_at, too_many};
ghost use Rattle.tally.specs.Rows.{look, four, their_looks, of_two_books, twice, missing, overdrawn};
ghost use Rattle.histbook.specs.InTurn.{peak};
ghost use Rattle.histbook.specs.Rows.{four_datagrams};
ghost use Rattle.streamdefs.specs.Totals.{refused};
ghost use Rattle.tally.specs.Journal.{IsPeakOf, asks_in, moves_in};

/// Moves by ascending stamp; of equal ones the first in the list stands first.
pub fn moves_stand_by_their_stamps()
    ensures books { by_stamp of_two_books ≡ four }
    ensures equal { by_stamp (Free 1 4 ∷ Grant 1 5 ∷ Free 3 5 ∷ Grant 0 9 ∷ []) ≡ twice }
    ensures turned { by_stamp (Grant 1 5 ∷ Free 3 5 ∷ Free 1 4 ∷ Grant 0 9 ∷ []) ≡ Grant 0 9 ∷ Grant 1 5 ∷ Free 1 4 ∷ Free 3 5 ∷ [] }
{}

/// Four datagrams under a budget of 4,096 bytes: nothing shows at any stamp, and the peak is 4,000 bytes.
pub fn four_datagrams_show_nothing()
    ensures first { row_at 4096 of_two_books their_looks 0 ≡ None }
    ensures third { row_at 4096 of_two_books their_looks 2 ≡ None }
    ensures sixth { row_at 4096 of_two_books their_looks 5 ≡ None }
    ensures behind { row_at 4096 of_two_books their_looks 6 ≡ None }
    ensures above { row_at 4096 of_two_books their_looks 7 ≡ None }
    ensures peak { peak (history_of of_two_books) ≡ 4000 }
    ensures used { used_before of_two_books 4 ≡ 2600 }
{}

/// A move at its place has another stamp: one that stands twice, and one that is missing.
pub fn each_stamp_has_its_place()
    ensures twice { row_at 4096 twice [] 2 ≡ at 2 2 1 }
    ensures before { row_at 4096 twice [] 1 ≡ None }
    ensures missing { row_at 4096 missing [] 1 ≡ at 1 1 2 }
    ensures most { too_many 4294967296 4294967295 (Some (Grant 4294967295 1)) ≡ at 4294967295 4294967295 4294967296 }
    ensures less { too_many 4294967295 4294967294 (Some (Grant 4294967294 1)) ≡ None }
{}

/// A look that found another number, the first of two, one at the number of moves, and one above it.
pub fn looks_find_the_used_number()
    ensures one { row_at 4096 four (look false 1 2 2801 ∷ []) 2 ≡ at 2 2801 2800 }
    ensures first { row_at 4096 four (look false 1 2 2800 ∷ look false 1 2 7 ∷ look false 1 2 8 ∷ []) 2 ≡ at 2 7 2800 }
    ensures last { row_at 4096 four (look false 1 6 1 ∷ []) 6 ≡ at 6 1 0 }
    ensures above { row_at 4096 four (look false 1 7 0 ∷ []) 7 ≡ at 7 7 6 }
{}

/// More is given back than is used, and the limit is passed by one byte.
pub fn the_used_number_stays_within()
    ensures below { row_at 4096 overdrawn [] 1 ≡ at 1 5 4 }
    ensures passed { row_at 3999 four [] 2 ≡ at 2 3999 4000 }
    ensures reached { row_at 4000 four [] 2 ≡ None }
{}

/// Where several rows hold at one stamp the first counts: a stamp before a look, a look before the bytes.
pub fn the_first_row_counts()
    ensures stamp { row_at 4096 missing (look false 1 1 7 ∷ []) 1 ≡ at 1 1 2 }
    ensures free { row_at 4096 overdrawn (look false 1 1 7 ∷ []) 1 ≡ at 1 7 4 }
    ensures grant { row_at 3999 four (look false 1 2 7 ∷ []) 2 ≡ at 2 7 2800 }
{}

/// What a replay takes of four datagrams, of which the third was refused: no move of the refused look, and each release where
/// its answer stands.
pub fn a_journal_has_moves_and_looks()
    ensures moves { moves_in four_datagrams ≡ Grant 0 1400 ∷ Grant 1 1400 ∷ Grant 2 1200 ∷ Free 3 1400 ∷ Free 4 1400 ∷ Free 5 1200 ∷ [] }
    ensures looks { asks_in four_datagrams ≡ look true 1400 0 0 ∷ look true 1400 1 1400 ∷ look false 1400 2 2800 ∷ look true 1200 2 2800 ∷ [] }
    ensures refused { refused (asks_in four_datagrams) ≡ 1 }
    ensures peak { IsPeakOf four_datagrams (record { stamps = 6; peak = 4000 }) }
{}
