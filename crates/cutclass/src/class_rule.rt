ghost use Rattle.std.specs.Prelude.{◌≡◌, IfOk};

use crate::{Cut, Memory};
use capfilter::Filter;

/// A class of packets, those for which a filter holds, with the priority and the cutoff of their conversations.
#[derive(Debug, Drop)]
pub struct ClassRule {
    pub priority: u8,
    pub cut: Cut,
    pub filter: Filter,
}

impl ClassRule {
    /// An equal class.
    pub fn copy(&self) -> Result<ClassRule, Memory>
        ensures { IfOk result (λ rule. rule ≡ self.now) }
    {
        Ok(ClassRule {
            priority: self.priority,
            cut: self.cut,
            filter: self.filter.copy()?,
        })
    }
}
