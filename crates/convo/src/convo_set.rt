ghost use Rattle.std.specs.Prelude.{◌≡◌, IfOk};

use crate::Memory;
use cutclass::Cutoffs;
use overpolicy::Shape;
use prio_budget::Marks;

/// What is set for every conversation: how its streams are put together, where they are cut, and how far each priority
/// may fill the memory.
#[derive(Debug, Drop)]
pub struct ConvoSet {
    pub shape: Shape,
    pub cutoffs: Cutoffs,
    pub marks: Marks,
}

impl ConvoSet {
    /// Equal settings.
    pub fn copy(&self) -> Result<ConvoSet, Memory>
        ensures { IfOk result (λ set. set ≡ self.now) }
    {
        Ok(ConvoSet {
            shape: self.shape,
            cutoffs: self.cutoffs.copy()?,
            marks: self.marks,
        })
    }
}
