ghost use Rattle.std.specs.Prelude.{◌≡◌, ◌+◌, ◌<◌, ◌≤◌, ◌++◌, ◌∷◌, ◌⊎◌, ℕ, [], Some, None, IfOk, OnOk, OnErr, IsOk, true, false, length, slice_get};
ghost use Rattle.scap_world.specs.Contents.{extended, GainsPart};
ghost use Rattle.evring.specs.Charges.{charges_in};
ghost use Rattle.prio_budget.specs.History.{total};
ghost use Rattle.workrun.specs.Circle.{IsOwn, count_of, place_of, round_from};
ghost use Rattle.workrun.specs.Pause.Pause.{Still, Freeing};
ghost use Rattle.workrun.specs.AtWork.{AtWork, IsWork, Lowers, begun_behind, behind, charges_out, core_behind, frees_behind, freed, line_due, pause_of, taken};
ghost use Rattle.workrun.specs.InWork.{FitsHand, things};
ghost use Rattle.workrun.specs.Telling.{HasCause};
ghost use Rattle.workrun.specs.Boundary.{Stands, begun, calm_of, charges_in_hand, core_in_hand, cores_of, first_of, frees_in_hand, handler_of, order_of, pause, sink_of, step_of, weight, work_left};

use crate::circle::Circle;
use crate::scribe::Scribe;
use crate::work::Work;
use crate::{WorkFault, WorkTurn, Worker};
use evring::Event;
use handler::Handler;
use histbook::WorkList;
use prio_budget::{Charge, Free};
use scap_world::Sink;
use std::alloc::Global;
use std::mem;

impl<H: Handler, K: Sink, C: Charge> Worker<H, K, C> {
    /// A worker of the cores below `cores` that are `first` modulo `step`, with its handler and the sink of its lines.
    pub fn new(
        alloc: Global,
        handler: H,
        sink: K,
        first: u16,
        step: u16,
        cores: u16,
    ) -> Worker<H, K, C>
        requires begins { first < step }
        requires steps { step ≤ cores }
        requires few { cores ≤ 16 }
        ensures handler { handler_of result ≡ handler }
        ensures sink { sink_of result ≡ sink }
        ensures cores { (first_of result ≡ first) × (step_of result ≡ step) × (cores_of result ≡ cores) }
        ensures order { order_of result ≡ round_from first step cores 0 }
        ensures empty { (core_in_hand result ≡ None) × (frees_in_hand result ≡ []) × (charges_in_hand result ≡ []) }
        ensures nothing { (work_left result ≡ 0) × (begun result ≡ false) }
        ensures still { pause result ≡ Still }
        ensures calm { calm_of result ≡ true }
        ensures stands { Stands C.amount C.stamp H.advice (record { hand = None; served = [] }) result }
    {
        Worker {
            alloc,
            circle: Circle::new(first, step, cores),
            scribe: Scribe::new(alloc, handler, sink),
            work: Work::Nothing,
            calm: true,
        }
    }

    /// The core to look at first, second and so on: it begins behind the core of the event that was loaded last.
    pub fn wants(&self, turn: u16) -> u16
        requires { turn < count_of (first_of self.now) (step_of self.now) (cores_of self.now) }
        ensures order { slice_get (order_of self.now) turn ≡ Some result }
        ensures own { IsOwn (first_of self.now) (step_of self.now) (cores_of self.now) result }
    {
        self.circle.core_at(turn)
    }

    /// Takes an event of a core into the hand.
    #[tactic(auto, using(crate::proofs::EmptyLemmas::nothing_weighs))]
    pub fn load(&mut self, core: u16, event: Event<C>)
        requires empty { core_in_hand self.old ≡ None }
        ensures hand { core_in_hand self.new ≡ Some core }
        ensures frees { frees_in_hand self.new ≡ [] }
        ensures charges { charges_in_hand self.new ≡ charges_in event }
        ensures weight { (by : C → ℕ) → weight by self.new ≡ weight by self.old + total by (charges_in event) }
        ensures left { work_left self.new ≡ things (length (charges_in event)) 0 }
        ensures begun { begun self.new ≡ false }
        ensures still { pause self.new ≡ Still }
        ensures calm { calm_of self.new ≡ calm_of self.old }
        ensures same { (handler_of self.new ≡ handler_of self.old) × (sink_of self.new ≡ sink_of self.old) }
        ensures cores { (first_of self.new ≡ first_of self.old) × (step_of self.new ≡ step_of self.old) × (cores_of self.new ≡ cores_of self.old) }
        ensures order { IsOwn (first_of self.old) (step_of self.old) (cores_of self.old) core
            → order_of self.new ≡ round_from (first_of self.old) (step_of self.old) (cores_of self.old) (place_of (first_of self.old) (step_of self.old) core + 1) }
        ensures stands { (x : AtWork C) → Stands C.amount C.stamp H.advice x self.old
            → Stands C.amount C.stamp H.advice (record { hand = Some (taken core event); served = x.served }) self.new }
    {
        self.circle.go_behind(core);
        self.work = Work::Loaded { core, event };
    }

    /// What is to be done next. At a fault the event stays in hand, and the worker is in drain mode.
    #[tactic(auto, using(crate::proofs::EmptyLemmas::nothing_left))]
    pub fn next(&mut self) -> Result<WorkTurn<C>, WorkFault>
        requires still { pause self.old ≡ Still }

        // The turn is what is to be done for the event in hand, and the event's line is written once. At a fault it is not all written.
        ensures work { (x : AtWork C) → Stands C.amount C.stamp H.advice x self.old
            → IfOk result (λ turn. IsWork C.amount (H.advice (handler_of self.old)) x.hand turn × Stands C.amount C.stamp H.advice (behind (H.advice (handler_of self.old)) x turn) self.new) }
        ensures line { (x : AtWork C) → Stands C.amount C.stamp H.advice x self.old
            → IfOk result (λ turn. K.held (sink_of self.new) ≡ extended (K.held (sink_of self.old)) (line_due x.hand)) }
        ensures front { (x : AtWork C) → Stands C.amount C.stamp H.advice x self.old
            → OnErr result (GainsPart (K.held (sink_of self.old)) (K.held (sink_of self.new)) (line_due x.hand)) }

        // In every mode.
        ensures fits { IfOk result (FitsHand (core_in_hand self.old) (frees_in_hand self.old) (calm_of self.old)) }
        ensures hand { IfOk result (λ turn. core_in_hand self.new ≡ core_behind (core_in_hand self.old) turn) }
        ensures frees { IfOk result (λ turn. frees_in_hand self.new ≡ frees_behind (frees_in_hand self.old) turn) }
        ensures pause { IfOk result (λ turn. pause self.new ≡ pause_of C.amount C.stamp turn) }
        ensures charges { IfOk result (λ turn. charges_in_hand self.old ≡ charges_out turn ++ charges_in_hand self.new) }
        ensures weight { (by : C → ℕ) → IfOk result (λ turn. weight by self.old ≡ total by (charges_out turn) + weight by self.new) }
        ensures left { IfOk result (Lowers (work_left self.old) (work_left self.new)) }
        ensures begun { IfOk result (λ turn. begun self.new ≡ begun_behind turn) }
        ensures empty { core_in_hand self.new ≡ None → (frees_in_hand self.new ≡ []) × (charges_in_hand self.new ≡ []) × (work_left self.new ≡ 0) }
        ensures kept { OnErr result ((core_in_hand self.new ≡ core_in_hand self.old) × (frees_in_hand self.new ≡ frees_in_hand self.old) × (pause self.new ≡ Still) × (charges_in_hand self.new ≡ charges_in_hand self.old)) }
        ensures kept_left { OnErr result (work_left self.new ≡ work_left self.old) }

        // All memory of an event, but what the sink takes, is taken before the handler is called: only the first turn can fail, and
        // before a charge goes out.
        ensures told { begun self.old ≡ true → IsOk result }
        ensures untold { OnErr result (begun self.new ≡ false) }

        ensures calm { OnOk result (calm_of self.new ≡ calm_of self.old) }
        ensures fault { OnErr result (calm_of self.new ≡ false) }
        ensures drains { calm_of self.old ≡ false → IsOk result × (sink_of self.new ≡ sink_of self.old) }
        ensures same { (handler_of self.new ≡ handler_of self.old) × (order_of self.new ≡ order_of self.old) }
        ensures cores { (first_of self.new ≡ first_of self.old) × (step_of self.new ≡ step_of self.old) × (cores_of self.new ≡ cores_of self.old) }
        ensures cause { HasCause (K.faults (sink_of self.old)) (K.faults (sink_of self.new)) result }
    {
        match mem::replace(&mut self.work, Work::Nothing) {
            Work::Nothing => Ok(WorkTurn::Ready),
            Work::Loaded { core, event } => self.begin(core, event),
            Work::Releases { release } => Ok(self.go_on(release)),
            // Not reached: what is out is released before this call.
            Work::Waits { release, .. } => Ok(self.go_on(release)),
        }
    }

    /// The charge that was given out is released.
    pub fn freed(&mut self, free: Free)
        requires out { (granted : ℕ) × (pause self.old ≡ Freeing free.bytes granted) }
        ensures still { pause self.new ≡ Still }
        ensures hand { core_in_hand self.new ≡ core_in_hand self.old }
        ensures charges { charges_in_hand self.new ≡ charges_in_hand self.old }
        ensures weight { (by : C → ℕ) → weight by self.new ≡ weight by self.old }
        ensures left { work_left self.new + 1 ≡ work_left self.old }
        ensures begun { begun self.new ≡ begun self.old }
        ensures frees { calm_of self.old ≡ true → frees_in_hand self.new ≡ frees_in_hand self.old ++ free ∷ [] }
        ensures drained { (frees_in_hand self.new ≡ frees_in_hand self.old ++ free ∷ []) ⊎ (frees_in_hand self.new ≡ frees_in_hand self.old) }
        ensures calm { calm_of self.new ≡ calm_of self.old }
        ensures same { (handler_of self.new ≡ handler_of self.old) × (sink_of self.new ≡ sink_of self.old) × (order_of self.new ≡ order_of self.old) }
        ensures cores { (first_of self.new ≡ first_of self.old) × (step_of self.new ≡ step_of self.old) × (cores_of self.new ≡ cores_of self.old) }
        ensures stands { (x : AtWork C) → Stands C.amount C.stamp H.advice x self.old → Stands C.amount C.stamp H.advice (freed free x) self.new }
    {
        match mem::replace(&mut self.work, Work::Nothing) {
            Work::Waits { release, .. } => {
                self.work = Work::Releases {
                    release: release.with_free(free),
                };
            }
            other => self.work = other,
        }
    }

    /// The sink, and the list of the cores whose events were served.
    pub fn into_parts(self) -> (K, WorkList)
        requires empty { core_in_hand self ≡ None }
        ensures sink { result.0 ≡ sink_of self }
        ensures list { (x : AtWork C) → Stands C.amount C.stamp H.advice x self → result.1 ≡ x.served }
    {
        (self.scribe.sink, self.scribe.served)
    }
}
