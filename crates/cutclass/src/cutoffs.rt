ghost use Rattle.std.specs.Prelude.{◌≡◌, IfOk};

use crate::{Classes, Cut, Memory};

/// The cutoffs that are set before a run: of all streams, of those from a conversation's first sender, of those to it, and the
/// classes of conversations.
#[derive(Debug, Drop)]
pub struct Cutoffs {
    pub default: Cut,
    pub fore: Cut,
    pub back: Cut,
    pub classes: Classes,
}

impl Cutoffs {
    /// Equal cutoffs.
    pub fn copy(&self) -> Result<Cutoffs, Memory>
        ensures { IfOk result (λ cutoffs. cutoffs ≡ self.now) }
    {
        Ok(Cutoffs {
            default: self.default,
            fore: self.fore,
            back: self.back,
            classes: self.classes.copy()?,
        })
    }
}
