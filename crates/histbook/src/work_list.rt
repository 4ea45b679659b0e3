ghost use Rattle.std.specs.Prelude.{◌≡◌, ◌≤◌, [], ◌∷◌, ◌++◌, OnOk, OnErr, replicate};
ghost use Rattle.std.specs.Bool.{OnTrue, OnFalse};
ghost use Rattle.histbook.specs.Runs.{AreKept, AreRunsOf, spread};

use crate::Memory;
use std::alloc::Global;
use std::marker::Model;

/// The cores of the events that a worker served, one for each event and in their order, seen as a list.
/// Equal neighbours take one pair, of the core and their number.
#[derive(Debug, Drop)]
pub struct WorkList {
    runs: Vec<(u16, u64)>,
}

impl Model for WorkList {
    ghost use Rattle.std.specs.Prelude.{List, ℕ};
    ghost use Rattle.histbook.specs.Runs.{spread, AreKept};

    ghost Value = { List ℕ };

    ghost view = { λ w. spread w.runs.items };

    ghost invariant = { λ w. AreKept w.runs.items };
}

/// Counts the last run up, where it is of that core and the sum is a number of 64 bits.
fn grow_last(runs: &mut Vec<(u16, u64)>, core: u16, count: u64) -> bool
    requires count { 1 ≤ count }
    requires kept { AreKept runs.old.items }
    ensures kept { AreKept runs.new.items }
    ensures grown { OnTrue result (spread runs.new.items ≡ spread runs.old.items ++ replicate count core) }
    ensures same { OnFalse result (runs.new.items ≡ runs.old.items) }
    ensures apart { OnFalse result (AreKept (runs.old.items ++ (core, count) ∷ [])) }
{
    let Some(last) = runs.len().checked_sub(1) else {
        return false;
    };
    let run = runs[last];
    if run.0 != core {
        return false;
    }
    let Some(sum) = run.1.checked_add(count) else {
        return false;
    };
    runs[last] = (core, sum);
    true
}

impl WorkList {
    pub fn new(alloc: Global) -> WorkList
        ensures { result ≡ [] }
    {
        WorkList {
            runs: Vec::new(alloc),
        }
    }

    /// Appends a core that many times, in one step and one pair at most.
    pub fn push(&mut self, core: u16, count: u64) -> Result<(), Memory>
        requires { 1 ≤ count }
        ensures ok { OnOk result (self.new ≡ self.old ++ replicate count core) }
        ensures err { OnErr result (self.new ≡ self.old) }
    {
        if grow_last(&mut self.runs, core, count) {
            return Ok(());
        }
        self.runs.push((core, count))?;
        Ok(())
    }

    /// The pairs that are kept. A core has neighbouring pairs only where their counts together pass 64 bits.
    pub fn runs(&self) -> &[(u16, u64)]
        ensures { AreRunsOf self.now result.now }
    {
        &self.runs
    }
}
