ghost use Rattle.std.specs.Prelude.{◌≡◌};
ghost use Rattle.coretable.specs.Fits.{is_rest_at};

use crate::Active;
use convo::AnsweredEvent;
use evring::{Advice, Kept};
use histbook::LookEntry;
use prio_budget::{Charge, Free};

/// How far the entry under way is.
#[derive(Drop)]
pub enum Stage<C: Charge, T: Drop> {
    /// None is under way.
    Rests,
    /// Its answer comes back to its conversation.
    Returned {
        active: Active<T>,
        of: AnsweredEvent,
        advice: Advice,
        kept: Kept<C>,
    },
    /// It asked, and is to be told.
    Asked {
        active: Active<T>,
        bytes: u32,
        mark: u32,
    },
    /// Its ask comes once more.
    Again {
        active: Active<T>,
        bytes: u32,
        mark: u32,
    },
    Told {
        active: Active<T>,
        look: LookEntry,
        granted: Option<C>,
    },
    /// It gave a charge out, whose release it is to hear of.
    Freeing {
        active: Active<T>,
        bytes: u32,
        stamp: u32,
    },
    Freed {
        active: Active<T>,
        free: Free,
    },
    Emitted {
        active: Active<T>,
    },
}

impl<C: Charge, T: Drop> Stage<C, T> {
    /// Whether no entry is under way.
    pub(crate) fn is_rest(&self) -> bool
        ensures { result ≡ is_rest_at self.now }
    {
        match self {
            Stage::Rests => true,
            Stage::Returned { .. }
            | Stage::Asked { .. }
            | Stage::Again { .. }
            | Stage::Told { .. }
            | Stage::Freeing { .. }
            | Stage::Freed { .. }
            | Stage::Emitted { .. } => false,
        }
    }
}
