// The report of a replay.
ghost use Rattle.std.specs.Prelude.{◌≡◌, ◌<◌, ◌^◌, ◌++◌, All, IfOk, OnOk, flat_map};
ghost use Rattle.datagrams.specs.Sound.{came_bytes, IsEven};
ghost use Rattle.histbook.specs.Runs.{HasShortRuns};
ghost use Rattle.labtop.specs.Headline.{done};
ghost use Rattle.labtop.specs.ReportLines.{lines_of, lines_with};
ghost use Rattle.streamdefs.specs.Lists.{Each, total};
ghost use Rattle.streamdefs.specs.Report.{records_of};

use crate::counts::RecordCounts;
use crate::memory::Memory;
use crate::report::{
    put_budget_line, put_bytes_line, put_dir_lines, put_head_lines, put_records_line,
    put_status_line,
};
use crate::totals::sum_up;
use datagrams::{Conversation, WholeReplay};
use histbook::put_journal;
use std::alloc::Global;

/// Appends the lines of all conversations.
fn put_conversations(out: &mut Vec<u8>, conversations: &[Conversation]) -> Result<(), Memory>
    ensures { OnOk result (out.new.items ≡ out.old.items ++ flat_map lines_of conversations.now) }
{
    for conversation in conversations {
        put_dir_lines(out, conversation)?;
    }
    Ok(())
}

/// The report of a replay, with the counts of the capture's records.
pub(crate) fn report(
    alloc: Global,
    counts: &RecordCounts,
    whole: &WholeReplay,
) -> Result<Vec<u8>, Memory>
    requires few { records_of counts.now < 2 ^ 64 }
    requires even { Each IsEven whole.now.table }
    requires came { total came_bytes whole.now.table < 2 ^ 64 }
    requires short { All HasShortRuns whole.now.journal.workers }
    ensures { IfOk result (λ text. text.items ≡ lines_with whole.now.journal whole.now.table counts.now whole.now.stamps whole.now.peak whole.now.refused done) }
{
    let table = whole.table.as_slice();
    let mut out = Vec::new(alloc);
    put_head_lines(&mut out, 1, 1)?;
    put_journal(&whole.journal, &mut out)?;
    put_conversations(&mut out, table)?;
    put_records_line(&mut out, counts)?;
    put_bytes_line(&mut out, &sum_up(table))?;
    put_budget_line(&mut out, whole.stamps, whole.peak, whole.refused)?;
    put_status_line(&mut out, 0)?;
    Ok(out)
}
