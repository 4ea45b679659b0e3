use crate::found::Found;
use porthdr::Skip;
use std::marker::Model;

/// How many records there were, by what became of them.
#[derive(Clone, Copy, Debug, PartialEq, Eq)]
pub(crate) struct RecordCounts {
    pub accepted: u64,
    pub filtered: u64,
    pub other: u64,
    pub fragment: u64,
    pub short: u64,
}

impl Model for RecordCounts {
    ghost use Rattle.streamdefs.specs.Report.{RecordCounts};

    ghost Value = { RecordCounts };

    ghost view = { λ c. record { accepted = c.accepted; filtered = c.filtered; other = c.other; fragment = c.fragment; short = c.short } };

    ghost inverse = { λ c. record { accepted = c.accepted; filtered = c.filtered; other = c.other; fragment = c.fragment; short = c.short } };
}

impl RecordCounts {
    ghost use Rattle.std.specs.Prelude.{◌≡◌, ◌+◌, ◌<◌, ◌^◌, []};
    ghost use Rattle.streamdefs.specs.Report.{records_of};
    ghost use Rattle.labtop.specs.Found.{fate_by, with_fate};
    ghost use Rattle.labtop.specs.Scapconf.{counts_of};

    /// Of no record.
    pub(crate) fn none() -> RecordCounts
        ensures { result ≡ counts_of [] }
    {
        RecordCounts {
            accepted: 0,
            filtered: 0,
            other: 0,
            fragment: 0,
            short: 0,
        }
    }

    /// Counts a record.
    pub(crate) fn add(&mut self, found: &Found<'_>)
        requires { records_of self.old + 1 < 2 ^ 64 }
        ensures { self.new ≡ with_fate (fate_by found.now) self.old }
    {
        match found {
            Found::Taken(_) => self.accepted += 1,
            Found::Filtered => self.filtered += 1,
            Found::Passed(Skip::Other) => self.other += 1,
            Found::Passed(Skip::Fragment) => self.fragment += 1,
            Found::Passed(Skip::Short) => self.short += 1,
        }
    }

    /// The number of all records.
    pub(crate) fn records(&self) -> u64
        requires { records_of self.now < 2 ^ 64 }
        ensures { result ≡ records_of self.now }
    {
        self.accepted + self.filtered + self.other + self.fragment + self.short
    }
}
