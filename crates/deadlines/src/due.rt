ghost use Rattle.std.specs.Prelude.{◌≡◌, Some, IsOk, OnOk, OnErr};
ghost use Rattle.std.specs.FinMap as map;
ghost use Rattle.deadlines.specs.Dues.{IsFirstDue};

use crate::Memory;
use std::alloc::Global;
use std::collections::{BTreeMap, BTreeSet};
use std::marker::Model;

/// Ids with the moments at which each is due, in nanoseconds, seen as a finite map. An index by the moments finds the
/// first without a look at the others.
#[derive(Drop)]
pub struct Due {
    moments: BTreeMap<u32, u64>,
    order: BTreeSet<(u64, u32)>,
}

impl Model for Due {
    ghost use Rattle.std.specs.FinMap as map;
    ghost use Rattle.std.specs.Coded.{coded_ℕ};
    ghost use Rattle.deadlines.specs.Dues.{Dues};
    ghost use Rattle.deadlines.specs.Order.{AreInOrder};

    ghost Value = { Dues };

    ghost coded = { map.code coded_ℕ coded_ℕ };

    ghost view = { λ d. map.from_entries d.moments.entries };

    ghost invariant = { λ d. AreInOrder d.moments d.order };
}

impl Due {
    /// Nothing is due.
    pub fn new(alloc: Global) -> Due
        ensures { result ≡ map.empty }
    {
        Due {
            moments: BTreeMap::new(alloc),
            order: BTreeSet::new(alloc),
        }
    }

    /// Lets `id` be due at this moment, in place of the one that it had.
    pub fn set(&mut self, id: u32, moment: u64) -> Result<(), Memory>
        ensures ok { OnOk result (self.new ≡ map.insert self.old id moment) }
        ensures err { OnErr result (self.new ≡ self.old) }

        // The moment that it has is not set anew.
        ensures again { map.get self.old id ≡ Some moment → IsOk result }
    {
        let _ = self.order.insert((moment, id))?;
        let Ok(before) = self.moments.insert(id, moment) else {
            // It had no moment, so its place in the order is new.
            let _ = self.order.remove(&(moment, id));
            return Err(Memory);
        };
        if let Some(before) = before {
            if before != moment {
                let _ = self.order.remove(&(before, id));
            }
        }
        Ok(())
    }

    /// Lets `id` be due no more.
    pub fn remove(&mut self, id: u32)
        ensures { self.new ≡ map.remove self.old id }
    {
        if let Some(moment) = self.moments.remove(&id) {
            let _ = self.order.remove(&(moment, id));
        }
    }

    /// The least moment up to now with its id, of equal moments that with the least id. None where nothing is due yet.
    pub fn first_due(&self, now: u64) -> Option<(u64, u32)>
        ensures { IsFirstDue self.now now result }
    {
        let (moment, id) = *self.order.first()?;
        if moment <= now {
            Some((moment, id))
        } else {
            None
        }
    }
}
