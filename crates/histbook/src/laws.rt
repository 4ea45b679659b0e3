//! What the definitions of a journal mean, each as the contract of a function with an empty body.
ghost use Rattle.histbook.specs.Laws.{RunsAreLongest, RunsAreTheOnly, KeptAreTheRuns, ShortListsHaveShortRuns, BookTextGrows, MovesGrow, SumsGrow, NeverAboveTheLimit, AllIsGivenBack, RoomFollows, CheckingIsEnough, TurnsJoin, TurnsPart, StepsGrow, TurnsAddUp, SumsFill, SumsMeetTheUsed, StepsAreTheBook, StepsAreAHistory, BookIsAHistory, OneCoreIsAHistory, KeptIsThePeak, PeaksJoin, PeakIsOfTheMoves, BookHasThePeak, StepsAreInOrder, LaterComesAfter, FreesRise, AsksRise, BookRises, FreesAreAboveGrants};

/// The runs of a list stand for it, neighbours are of different cores, and there are no others of that kind.
pub fn runs_are_the_longest()
    ensures longest { RunsAreLongest }
    ensures only { RunsAreTheOnly }
{}

/// The pairs that a worker's list keeps are its runs, where each has fewer than 2^64 events, as in a list that is no longer.
pub fn kept_pairs_are_the_runs()
    ensures kept { KeptAreTheRuns }
    ensures short { ShortListsHaveShortRuns }
{}

/// The text of a book is the lines of its entries, one behind another.
pub fn text_grows_by_a_line()
    ensures { BookTextGrows }
{}

/// The moves of a journal grow by those of an entry, and so does each sum over them.
pub fn moves_grow_by_an_entry()
    ensures moves { MovesGrow }
    ensures sums { SumsGrow }
{}

/// The used number of a history is never above the limit, and 0 behind its last move.
pub fn used_stays_within()
    ensures within { NeverAboveTheLimit }
    ensures back { AllIsGivenBack }
{}

/// That each grant found room follows from the other parts of a history.
pub fn room_follows()
    ensures { RoomFollows }
{}

/// A journal is one history of its budget exactly where each of its stamps is in order.
pub fn checking_is_enough()
    ensures { CheckingIsEnough }
{}

/// Steps done in turn, one list behind another, are done in turn, and only they; the steps of a book grow by those of an entry.
pub fn turns_join()
    ensures join { TurnsJoin }
    ensures part { TurnsPart }
    ensures grow { StepsGrow }
{}

/// What steps done in turn come to: the stamp counts their moves, the used number what they granted less what they freed,
/// at the end and at each stamp in between.
pub fn turns_add_up()
    ensures ends { TurnsAddUp }
    ensures below { SumsFill }
    ensures between { SumsMeetTheUsed }
{}

/// Steps done in turn, from nothing used to nothing used, are one history of their budget: plain steps, a book, and a
/// journal of one core.
pub fn a_turn_is_a_history()
    ensures same { StepsAreTheBook }
    ensures steps { StepsAreAHistory }
    ensures book { BookIsAHistory }
    ensures journal { OneCoreIsAHistory }
{}

/// A maximum kept along steps done in turn from nothing used is the peak of their moves, and the last stamp is their number.
pub fn a_kept_maximum_is_the_peak()
    ensures kept { KeptIsThePeak }
    ensures join { PeaksJoin }
    ensures moves { PeakIsOfTheMoves }
    ensures book { BookHasThePeak }
{}

/// The stamps of steps done in turn do not fall, and rise behind each move: of any two steps, of the releases, of the looks,
/// and of a release behind a grant.
pub fn stamps_stand_in_order()
    ensures steps { StepsAreInOrder }
    ensures later { LaterComesAfter }
    ensures frees { FreesRise }
    ensures asks { AsksRise }
    ensures book { BookRises }
    ensures grants { FreesAreAboveGrants }
{}
