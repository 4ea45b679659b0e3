ghost use Rattle.std.specs.Prelude.{◌≡◌, IfOk};
ghost use Rattle.scapconf.specs.Defaults.{default_shape as shape_of_none, default_cutoffs as cutoffs_of_none, default_marks as marks_of_none};

use crate::Memory;
use capfilter::Filter;
use convo::ConvoSet;
use cutclass::{Classes, Cut, Cutoffs};
use handler::RuleList;
use overpolicy::{Mode, Policy, Shape};
use prio_budget::Marks;
use std::alloc::Global;

const NANOSECONDS_OF_SECOND: u64 = 1_000_000_000;

/// The settings of a run.
#[derive(Debug, Drop)]
pub struct Settings {
    pub set: ConvoSet,
    /// The packets that are accepted; all where there is none.
    pub filter: Option<Filter>,
    /// What is advised at which events.
    pub rules: RuleList,
}

fn default_shape() -> Shape
    ensures { result ≡ shape_of_none }
{
    Shape {
        mode: Mode::Strict,
        policy: Policy::First,
        chunk: 16_384,
        overlap: 0,
        flush: 0,
        hole: NANOSECONDS_OF_SECOND,
        reorder: 262_144,
        idle: 300 * NANOSECONDS_OF_SECOND,
    }
}

fn default_cutoffs(alloc: Global) -> Cutoffs
    ensures { result ≡ cutoffs_of_none }
{
    Cutoffs {
        default: Cut::Unset,
        fore: Cut::Unset,
        back: Cut::Unset,
        classes: Classes::new(alloc),
    }
}

fn default_marks() -> Marks
    ensures { result ≡ marks_of_none }
{
    match Marks::new(67_108_864, 33_554_432, 1) {
        Ok(marks) => marks,
        Err(_) => unreachable!(),
    }
}

impl Settings {
    ghost use Rattle.std.specs.Prelude.{◌≡◌, IfOk};
    ghost use Rattle.scapconf.specs.Defaults.{default_settings};

    /// The settings of a run that is told nothing.
    pub fn defaults(alloc: Global) -> Result<Settings, Memory>
        ensures { result ≡ Ok default_settings }
    {
        Ok(Settings {
            set: ConvoSet {
                shape: default_shape(),
                cutoffs: default_cutoffs(alloc),
                marks: default_marks(),
            },
            filter: None,
            rules: RuleList::none(alloc),
        })
    }

    /// Equal settings.
    pub fn copy(&self) -> Result<Settings, Memory>
        ensures { IfOk result (λ settings. settings ≡ self.now) }
    {
        let filter = match &self.filter {
            None => None,
            Some(filter) => Some(filter.copy()?),
        };
        Ok(Settings {
            set: self.set.copy()?,
            filter,
            rules: self.rules.copy()?,
        })
    }
}
