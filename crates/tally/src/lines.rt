// The lines of a report.
ghost use Rattle.std.specs.Prelude.{◌≡◌, ◌<◌, ◌^◌, ◌++◌, OnOk, OnErr, flat_map};
ghost use Rattle.textout.specs.Front.{IsFront};
ghost use Rattle.streamdefs.specs.Handler.{way_mark};
ghost use Rattle.streamdefs.specs.Lists.{total};
ghost use Rattle.streamdefs.specs.Report.{budget_line, bytes_line, head_lines, records_line};
ghost use Rattle.tally.specs.Totals.{payload_of, line_of, records_in, sums_line, AddUp};

use crate::sums::{Sums, payload_of, sum_up};
use crate::{Memory, Peak, Totals};
use convo::DirTotal;
use evring::Way;
use textout::{put_count, put_numbers, put_text};

fn mark_of(way: Way) -> &'static str
    ensures { result.now ≡ way_mark way }
{
    match way {
        Way::Fore => ">",
        Way::Back => "<",
    }
}

/// Appends the first two lines.
#[tactic(auto, unfolding(streamdefs::specs::Report::head_lines))]
pub(crate) fn put_head(out: &mut Vec<u8>, cores: u16, workers: u16) -> Result<(), Memory>
    ensures ok { OnOk result (out.new.items ≡ out.old.items ++ head_lines cores workers) }
    ensures err { OnErr result (IsFront out.old.items out.new.items) }
{
    put_text(out, "scap report 1\n")?;
    put_count(out, "cores ", u64::from(cores))?;
    put_count(out, " workers ", u64::from(workers))?;
    put_text(out, "\n")
}

/// Appends the line of what became of a direction's bytes.
#[tactic(auto, unfolding(streamdefs::specs::Report::dir_line))]
fn put_dir(out: &mut Vec<u8>, dir: &DirTotal) -> Result<(), Memory>
    requires { payload_of dir.now < 2 ^ 64 }
    ensures ok { OnOk result (out.new.items ≡ out.old.items ++ line_of dir.now) }
    ensures err { OnErr result (IsFront out.old.items out.new.items) }
{
    put_count(out, "dir ", u64::from(dir.conv))?;
    put_text(out, " ")?;
    put_text(out, mark_of(dir.way))?;
    let counts = dir.counts;
    let numbers = [
        payload_of(dir),
        counts.taken,
        counts.duplicate,
        counts.late,
        counts.cut,
        counts.shed,
        dir.gaps,
        dir.gap_bytes,
    ];
    put_numbers(out, &numbers)?;
    put_text(out, "\n")
}

/// Appends the lines of all directions.
pub(crate) fn put_dirs(out: &mut Vec<u8>, dirs: &[DirTotal]) -> Result<(), Memory>
    requires { total payload_of dirs.now < 2 ^ 64 }
    ensures ok { OnOk result (out.new.items ≡ out.old.items ++ flat_map line_of dirs.now) }
    ensures err { OnErr result (IsFront out.old.items out.new.items) }
{
    for dir in dirs {
        put_dir(out, dir)?;
    }
    Ok(())
}

/// Appends the line of the records.
#[tactic(auto, unfolding(streamdefs::specs::Report::records_line))]
pub(crate) fn put_records(out: &mut Vec<u8>, totals: &Totals) -> Result<(), Memory>
    requires { AddUp totals.now }
    ensures ok { OnOk result (out.new.items ≡ out.old.items ++ records_line (records_in totals.now)) }
    ensures err { OnErr result (IsFront out.old.items out.new.items) }
{
    put_count(out, "records ", totals.frames)?;
    put_count(out, " accepted ", totals.accepted)?;
    put_count(out, " filtered ", totals.skips.filtered)?;
    put_count(out, " other ", totals.skips.other)?;
    put_count(out, " fragment ", totals.skips.fragment)?;
    put_count(out, " short ", totals.skips.short)?;
    put_text(out, "\n")
}

#[tactic(auto, unfolding(streamdefs::specs::Report::bytes_line))]
fn put_bytes(out: &mut Vec<u8>, sums: &Sums) -> Result<(), Memory>
    ensures ok { OnOk result (out.new.items ≡ out.old.items ++ bytes_line sums.now.payload sums.now.taken sums.now.duplicate sums.now.late sums.now.cut sums.now.shed) }
    ensures err { OnErr result (IsFront out.old.items out.new.items) }
{
    put_count(out, "bytes payload ", sums.payload)?;
    put_count(out, " delivered ", sums.taken)?;
    put_count(out, " duplicate ", sums.duplicate)?;
    put_count(out, " late ", sums.late)?;
    put_count(out, " cut ", sums.cut)?;
    put_count(out, " shed ", sums.shed)?;
    put_text(out, "\n")
}

/// Appends the line of what became of all bytes.
pub(crate) fn put_sums(out: &mut Vec<u8>, dirs: &[DirTotal]) -> Result<(), Memory>
    requires { total payload_of dirs.now < 2 ^ 64 }
    ensures ok { OnOk result (out.new.items ≡ out.old.items ++ sums_line dirs.now) }
    ensures err { OnErr result (IsFront out.old.items out.new.items) }
{
    put_bytes(out, &sum_up(dirs))
}

/// Appends the line of the budget.
#[tactic(auto, unfolding(streamdefs::specs::Report::budget_line))]
pub(crate) fn put_budget(out: &mut Vec<u8>, peak: &Peak, refused: u64) -> Result<(), Memory>
    ensures ok { OnOk result (out.new.items ≡ out.old.items ++ budget_line peak.now.stamps peak.now.peak refused) }
    ensures err { OnErr result (IsFront out.old.items out.new.items) }
{
    put_count(out, "budget stamps ", u64::from(peak.stamps))?;
    put_count(out, " peak ", u64::from(peak.peak))?;
    put_count(out, " refused ", refused)?;
    put_text(out, "\n")
}
