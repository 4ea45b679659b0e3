ghost use Rattle.std.specs.Prelude.{◌≡◌, ◌≤◌, IfOk, IfErr};

use crate::MarkFault;
use std::marker::Model;

/// The least limit, in bytes.
pub const LEAST_LIMIT: u32 = 4096;
/// The greatest limit, in bytes.
pub const GREATEST_LIMIT: u32 = 2_147_483_647;
/// The most priorities.
pub const MOST_PRIORITIES: u8 = 16;

/// How far each priority may fill the memory: equal steps from a base to the limit, in bytes.
/// The greatest priority matters most and may fill it to the limit.
#[derive(Clone, Copy, Debug, PartialEq, Eq)]
pub struct Marks {
    limit: u32,
    base: u32,
    count: u8,
}

impl Model for Marks {
    ghost use Rattle.prio_budget.specs.MarkParts.{MarkParts, AreMarks};

    ghost Value = { MarkParts };

    ghost view = { λ m. record { limit = m.limit; base = m.base; count = m.count } };

    ghost invariant = { λ m. AreMarks m.limit m.base m.count };

    ghost inverse = { λ m. record { limit = m.limit; base = m.base; count = m.count } };
}

impl Marks {
    ghost use Rattle.prio_budget.specs.MarkParts.{AreMarks};
    ghost use Rattle.prio_budget.specs.Marks.{mark_of, IsFirstFault};

    /// The marks of `n` priorities between a base and a limit.
    pub fn new(limit: u32, base: u32, n: u8) -> Result<Marks, MarkFault>
        ensures marks { IfOk result (λ m. m ≡ record { limit = limit; base = base; count = n }) }
        ensures lawful { IfOk result (λ _. AreMarks limit base n) }
        ensures fault { IfErr result (IsFirstFault limit base n) }
    {
        if limit < LEAST_LIMIT || limit > GREATEST_LIMIT {
            return Err(MarkFault::Limit);
        }
        if base > limit {
            return Err(MarkFault::Base);
        }
        if n == 0 || n > MOST_PRIORITIES {
            return Err(MarkFault::Count);
        }
        let marks = Marks {
            limit,
            base,
            count: n,
        };
        Ok(marks)
    }

    /// The most bytes that may be in use.
    pub fn limit(&self) -> u32
        ensures limit { result ≡ self.now.limit }
        ensures lawful { AreMarks self.now.limit self.now.base self.now.count }
    {
        self.limit
    }

    /// The bytes up to which a priority may fill the memory; a priority past the last has the last one's mark.
    pub fn mark(&self, priority: u8) -> u32
        ensures mark { result ≡ mark_of self.now priority }
        ensures above_base { self.now.base ≤ result }
        ensures within { result ≤ self.now.limit }
    {
        let step = priority.min(self.count - 1) + 1;
        let span = u64::from(self.limit - self.base);
        let part = span * u64::from(step) / u64::from(self.count);
        self.base + part as u32
    }
}
