use crate::place::Place;
use crate::size::Size;
use crate::time::Time;
use capfilter::Filter;
use cutclass::{ClassRule, Cut};
use handler::Rule;
use overpolicy::{Mode, Policy};
use prio_budget::Marks;

/// What a line says.
#[derive(Drop)]
pub(crate) enum Setting {
    Mode(Mode),
    Policy(Policy),
    Size(Size, u32),
    /// In nanoseconds.
    Time(Time, u64),
    Filter(Filter),
    Cutoff(Place, Cut),
    Class(ClassRule),
    Budget(Marks),
    Rule(Rule),
}
