ghost use Rattle.std.specs.Prelude.{◌≡◌, ◌≤◌, true};
ghost use Rattle.workrun.specs.InWork.{places_in, places_wanted};

use crate::circle::Circle;
use crate::scribe::Scribe;
use crate::work::Work;
use handler::Handler;
use prio_budget::Charge;
use scap_world::Sink;
use std::alloc::Global;

/// A worker: it serves the events of its cores one after the other.
#[derive(Drop)]
pub struct Worker<H: Handler, K: Sink, C: Charge> {
    pub(crate) alloc: Global,
    pub(crate) circle: Circle,
    pub(crate) scribe: Scribe<H, K>,
    pub(crate) work: Work<C>,
    /// It isn't in drain mode.
    pub(crate) calm: bool,
    pub(crate) ghost room: { calm ≡ true → places_wanted work ≤ places_in work },
}
