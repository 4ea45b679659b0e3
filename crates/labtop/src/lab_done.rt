ghost use Rattle.std.specs.Prelude.{◌≡◌};
ghost use Rattle.labtop.specs.Headline.{IsEmpty};

use histbook::{Books, Journal, Served};
use scapconf::Status;
use std::alloc::Global;

/// How a command ended, and the journal of its report. The journal is empty where no whole report was written.
#[derive(Debug, Drop)]
pub struct LabDone {
    pub status: Status,
    pub journal: Journal,
}

impl LabDone {
    /// A command that wrote no report.
    pub(crate) fn without_report(alloc: Global, status: Status) -> LabDone
        ensures status { result.status ≡ status }
        ensures journal { IsEmpty result.journal }
    {
        LabDone {
            status,
            journal: Journal {
                cores: Books::of(Vec::new(alloc)),
                workers: Served::of(Vec::new(alloc)),
            },
        }
    }
}
