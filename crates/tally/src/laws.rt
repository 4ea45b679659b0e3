//! What a replay means for a budget's history, each as the contract of a function with an empty body.
ghost use Rattle.tally.specs.Journal.{JournalIsReplayed, MovesAreTheHistorys, ReplayGivesTheLine, RunIsReplayed};
ghost use Rattle.tally.specs.DirLaws.{LinesAreTheReports, OneList, RunIsInOrder, SumsAreTheCores};
ghost use Rattle.tally.specs.Laws.{HistoryIsReplayed, PeakIsTheHistorys, HistoryHasNoMismatch};

/// One history of a budget with fewer than 2^32 moves is one to a replay, with the same peak, and has no mismatch.
pub fn a_history_is_replayed()
    ensures one { HistoryIsReplayed }
    ensures peak { PeakIsTheHistorys }
    ensures mismatch { HistoryHasNoMismatch }
{}

/// A journal that is one history of its budget is one to a replay of its moves and looks, and so is that of a run, whose
/// line on its budget has the numbers that the replay gives.
pub fn a_journal_is_replayed()
    ensures moves { MovesAreTheHistorys }
    ensures journal { JournalIsReplayed }
    ensures run { RunIsReplayed }
    ensures line { ReplayGivesTheLine }
{}

/// The totals of all cores in one list: where no direction is there twice, one list of them ascends, with the sums over all
/// cores. Of a run it has the report's order, and the report's lines.
pub fn all_totals_are_in_order()
    ensures one { OneList }
    ensures sums { SumsAreTheCores }
    ensures run { RunIsInOrder }
    ensures lines { LinesAreTheReports }
{}
