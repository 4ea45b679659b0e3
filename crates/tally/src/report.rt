// The report's lines before and behind the journal.
ghost use Rattle.std.specs.Prelude.{◌≡◌, ◌++◌, OnOk, OnErr};
ghost use Rattle.textout.specs.Front.{IsFront};
ghost use Rattle.streamdefs.specs.Report.{head_lines};
ghost use Rattle.tally.specs.Totals.{totals_text, AddUp};

use crate::lines::{put_budget, put_dirs, put_head, put_records, put_sums};
use crate::{Memory, Totals};

/// Appends the first two lines of a report. After want of memory `out` is as it was.
pub fn put_opening(cores: u16, workers: u16, out: &mut Vec<u8>) -> Result<(), Memory>
    ensures ok { OnOk result (out.new.items ≡ out.old.items ++ head_lines cores workers) }
    ensures err { OnErr result (out.new.items ≡ out.old.items) }
{
    let start = out.len();
    let done = put_head(out, cores, workers);
    if done.is_err() {
        out.truncate(start);
    }
    done
}

#[tactic(auto, unfolding(crate::specs::Totals::totals_text))]
fn put_lines(out: &mut Vec<u8>, totals: &Totals) -> Result<(), Memory>
    requires { AddUp totals.now }
    ensures ok { OnOk result (out.new.items ≡ out.old.items ++ totals_text totals.now) }
    ensures err { OnErr result (IsFront out.old.items out.new.items) }
{
    put_dirs(out, totals.dirs.as_slice())?;
    put_records(out, totals)?;
    put_sums(out, totals.dirs.as_slice())?;
    put_budget(out, &totals.peak, totals.refused)
}

/// Appends the report's lines behind the journal, but for the last: those of the directions, of the records, of all bytes
/// and of the budget. After want of memory `out` is as it was.
pub fn put_totals(totals: &Totals, out: &mut Vec<u8>) -> Result<(), Memory>
    requires { AddUp totals.now }
    ensures ok { OnOk result (out.new.items ≡ out.old.items ++ totals_text totals.now) }
    ensures err { OnErr result (out.new.items ≡ out.old.items) }
{
    let start = out.len();
    let done = put_lines(out, totals);
    if done.is_err() {
        out.truncate(start);
    }
    done
}
