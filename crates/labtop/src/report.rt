// The lines of a report.
ghost use Rattle.std.specs.Prelude.{◌≡◌, ◌<◌, ◌^◌, ◌++◌, [], OnOk};
ghost use Rattle.datagrams.specs.Sums.{numbers_in};
ghost use Rattle.labtop.specs.ReportLines.{lines_of};
ghost use Rattle.streamdefs.specs.Handler.{way_mark};
ghost use Rattle.streamdefs.specs.Report.{budget_line, bytes_line, dir_line, head_lines, records_of, records_line, status_line};

use crate::counts::RecordCounts;
use crate::totals::Totals;
use datagrams::{Conversation, RunningSums};
use evring::Way;
use textout::{Memory, put_count, put_numbers, put_text};

fn mark_of(way: Way) -> &'static str
    ensures { result.now ≡ way_mark way }
{
    match way {
        Way::Fore => ">",
        Way::Back => "<",
    }
}

/// Appends the first two lines of a report.
#[tactic(auto, unfolding(streamdefs::specs::Report::head_lines))]
pub(crate) fn put_head_lines(out: &mut Vec<u8>, cores: u16, workers: u16) -> Result<(), Memory>
    ensures { OnOk result (out.new.items ≡ out.old.items ++ head_lines cores workers) }
{
    put_text(out, "scap report 1\n")?;
    put_count(out, "cores ", u64::from(cores))?;
    put_count(out, " workers ", u64::from(workers))?;
    put_text(out, "\n")
}

/// Appends the line of what became of a direction's bytes.
#[tactic(auto, unfolding(streamdefs::specs::Report::dir_line))]
fn put_dir_line(out: &mut Vec<u8>, conv: u32, way: Way, sums: &RunningSums) -> Result<(), Memory>
    ensures { OnOk result (out.new.items ≡ out.old.items ++ dir_line conv way (numbers_in sums.now)) }
{
    put_count(out, "dir ", u64::from(conv))?;
    put_text(out, " ")?;
    put_text(out, mark_of(way))?;
    let numbers = [
        sums.payload,
        sums.delivered,
        0,
        0,
        0,
        sums.shed,
        sums.gaps,
        sums.gap_bytes,
    ];
    put_numbers(out, &numbers)?;
    put_text(out, "\n")
}

/// Appends the two lines of a conversation.
pub(crate) fn put_dir_lines(out: &mut Vec<u8>, conversation: &Conversation) -> Result<(), Memory>
    ensures { OnOk result (out.new.items ≡ out.old.items ++ lines_of conversation.now) }
{
    put_dir_line(out, conversation.number, Way::Fore, &conversation.fore_sums)?;
    put_dir_line(out, conversation.number, Way::Back, &conversation.back_sums)
}

/// Appends the line of the records.
#[tactic(auto, unfolding(streamdefs::specs::Report::records_line))]
pub(crate) fn put_records_line(out: &mut Vec<u8>, counts: &RecordCounts) -> Result<(), Memory>
    requires { records_of counts.now < 2 ^ 64 }
    ensures { OnOk result (out.new.items ≡ out.old.items ++ records_line counts.now) }
{
    put_count(out, "records ", counts.records())?;
    put_count(out, " accepted ", counts.accepted)?;
    put_count(out, " filtered ", counts.filtered)?;
    put_count(out, " other ", counts.other)?;
    put_count(out, " fragment ", counts.fragment)?;
    put_count(out, " short ", counts.short)?;
    put_text(out, "\n")
}

/// Appends the line of what became of all bytes.
#[tactic(auto, unfolding(streamdefs::specs::Report::bytes_line))]
pub(crate) fn put_bytes_line(out: &mut Vec<u8>, totals: &Totals) -> Result<(), Memory>
    ensures { OnOk result (out.new.items ≡ out.old.items ++ bytes_line totals.now.payload totals.now.delivered 0 0 0 totals.now.shed) }
{
    put_count(out, "bytes payload ", totals.payload)?;
    put_count(out, " delivered ", totals.delivered)?;
    put_count(out, " duplicate ", 0)?;
    put_count(out, " late ", 0)?;
    put_count(out, " cut ", 0)?;
    put_count(out, " shed ", totals.shed)?;
    put_text(out, "\n")
}

/// Appends the line of the budget.
#[tactic(auto, unfolding(streamdefs::specs::Report::budget_line))]
pub(crate) fn put_budget_line(
    out: &mut Vec<u8>,
    stamps: u32,
    peak: u32,
    refused: u64,
) -> Result<(), Memory>
    ensures { OnOk result (out.new.items ≡ out.old.items ++ budget_line stamps peak refused) }
{
    put_count(out, "budget stamps ", u64::from(stamps))?;
    put_count(out, " peak ", u64::from(peak))?;
    put_count(out, " refused ", refused)?;
    put_text(out, "\n")
}

/// Appends the line of how the run ended.
#[tactic(auto, unfolding(streamdefs::specs::Report::status_line))]
pub(crate) fn put_status_line(out: &mut Vec<u8>, status: u8) -> Result<(), Memory>
    ensures { OnOk result (out.new.items ≡ out.old.items ++ status_line (record { status = status; more = [] })) }
{
    put_count(out, "status ", u64::from(status))?;
    put_text(out, "\n")
}
