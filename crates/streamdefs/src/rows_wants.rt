//! What entries under way want next, evaluated: each row is the contract of a function with an empty body.
ghost use Rattle.std.specs.Prelude.{◌≡◌, [], ◌∷◌, ◌++◌, Some, None};
ghost use Rattle.evring.specs.declared.way.Way.TheVariants.{Fore, Back};
ghost use Rattle.streamdefs.specs.Convo.Event.{Chunk};
ghost use Rattle.streamdefs.specs.Core.{core_at, idle_core, found_by};
ghost use Rattle.streamdefs.specs.SoFar.{LawfulSoFar, HistorySoFar};
ghost use Rattle.streamdefs.specs.Want.{want};
ghost use Rattle.streamdefs.specs.Want.Want.{Reserve, Release, Emit, Rest};
ghost use Rattle.streamdefs.specs.Rows.{defaults, got, free};
ghost use Rattle.streamdefs.specs.RowsWants.{far_wants, time_wants, book_so_far, under_way};

/// A direction's asks come before its releases: the run, the copy, the copy that the gap made useless; then the event.
pub fn asks_come_before_releases()
    ensures run { far_wants [] [] 0 ≡ Reserve (record { bytes = 4; from = Some 10 }) 100 }
    ensures copy { far_wants (got 4 3 2 ∷ []) [] 0 ≡ Reserve (record { bytes = 2; from = None }) 100 }
    ensures spare { far_wants (got 4 3 2 ∷ got 2 4 6 ∷ []) [] 0 ≡ Release (record { bytes = 2; stamp = 1 }) }
    ensures event { far_wants (got 4 3 2 ∷ got 2 4 6 ∷ []) (free 2 5 ∷ []) 0
        ≡ Emit (Chunk (record { way = Fore; piece = record { start = 10; gap = 6; copy = []; fresh = 101 ∷ 102 ∷ 103 ∷ 104 ∷ []; charges = record { bytes = 4; stamp = 3 } ∷ [] }; kept = [] })) }
    ensures rest { far_wants (got 4 3 2 ∷ got 2 4 6 ∷ []) (free 2 5 ∷ []) 1 ≡ Rest }
{}

/// A direction is whole before the next: at a Time fore's release comes before back's ask.
pub fn fore_is_whole_before_back()
    ensures spare { time_wants [] [] 0 ≡ Release (record { bytes = 2; stamp = 1 }) }
    ensures copy { time_wants [] (free 2 4 ∷ []) 0 ≡ Reserve (record { bytes = 2; from = None }) 100 }
    ensures event { time_wants (got 2 5 8 ∷ []) (free 2 4 ∷ []) 0
        ≡ Emit (Chunk (record { way = Back; piece = record { start = 0; gap = 0; copy = []; fresh = 104 ∷ 105 ∷ []; charges = record { bytes = 2; stamp = 3 } ∷ [] }; kept = [] })) }
    ensures rest { time_wants (got 2 5 8 ∷ []) (free 2 4 ∷ []) 1 ≡ Rest }
{}

/// A book with an entry under way is lawful so far; the entry wants its second run.
pub fn an_entry_under_way_is_lawful_so_far()
    ensures book { LawfulSoFar book_so_far (Some under_way) }
    ensures history { HistorySoFar 67108864 (book_so_far.lines ++ under_way ∷ []) [] }
    ensures next { want defaults (found_by (core_at defaults idle_core book_so_far.lines) under_way) under_way.act 0 ≡ Reserve (record { bytes = 5; from = Some 10 }) 67108864 }
{}
