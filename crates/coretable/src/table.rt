// A core's table.
ghost use Rattle.std.specs.Prelude.{◌≡◌, ℕ, None, true, false};
ghost use Rattle.streamdefs.specs.Terms.{Terms};
ghost use Rattle.streamdefs.specs.Lawful.{Handler};
ghost use Rattle.flowdir.specs.Boundary.{charge_by};
ghost use Rattle.convo.specs.Talk.{SetsUp};
ghost use Rattle.coretable.specs.Course.{no_course};
ghost use Rattle.coretable.specs.declared.pause.Pause.TheVariants.{Still};
ghost use Rattle.coretable.specs.Table.{KeepsNothing, Stands, calm, grants_left, is_ready, is_over, limit, paused, rests, unanswered, weight};

use crate::{Desk, Held, Job, Stage, State};
use convo::ConvoSet;
use deadlines::Due;
use indexmap::IndexMap;
use prio_budget::Charge;
use std::alloc::Global;
use std::collections::VecDeque;

/// One core's conversations, its book, and what is under way. It is given packets one by one and comes to turns: an ask, a
/// charge that is given back, an event, or what it waits for.
#[derive(Drop)]
pub struct CoreTable<C: Charge> {
    pub alloc: Global,
    pub set: ConvoSet,
    pub desk: Desk<Held<C>>,
    pub state: State<C, Held<C>>,
    /// Its last turn was `Ready`, and nothing was loaded since, nor an answer taken.
    pub ready: bool,
    /// Its last turn was `Over`.
    pub over: bool,
    /// At most so many grants can still come.
    pub grants: u64,
    /// The stamp at which the budget was used up.
    pub spent: Option<u32>,
}

/// Nothing kept, and nothing waits.
fn empty_desk<T: Drop>(alloc: Global) -> Desk<T>
    ensures { KeepsNothing result }
{
    Desk {
        slots: Vec::new(alloc),
        index: IndexMap::new(alloc),
        dues: Due::new(alloc),
        unanswered: VecDeque::new(alloc),
        book: Vec::new(alloc),
        answered: 0,
        owed: None,
        job: Job::Nothing,
        cursor: 0,
    }
}

impl<C: Charge> CoreTable<C> {
    /// A table that has seen nothing. It keeps a key's place by a hash of fixed seed; nothing is said of the time that chosen
    /// keys cost.
    pub fn new(alloc: Global, set: ConvoSet) -> Self
        ensures stands { (t : Terms) (last : ℕ) (handler : Handler) → SetsUp set t → Stands (charge_by C.amount C.stamp) t last handler no_course result }
        ensures pause { paused result ≡ Still }
        ensures mode { (is_ready result ≡ true) × (rests result ≡ true) × (calm result ≡ true) × (is_over result ≡ false) }
        ensures limit { limit result ≡ set.marks.limit }
        ensures unanswered { unanswered result ≡ 0 }
        ensures grants { grants_left result ≡ 0 }
        ensures spent { result.spent ≡ None }
        ensures weight { (w : C → ℕ) → weight w result ≡ 0 }
    {
        CoreTable {
            alloc,
            set,
            desk: empty_desk(alloc),
            state: State::Works(Stage::Rests),
            ready: true,
            over: false,
            grants: 0,
            spent: None,
        }
    }

    /// Whether an answer can be taken: no entry is under way, or, in drain mode, all that was in hand is given out.
    pub fn at_rest(&self) -> bool
        ensures { result ≡ rests self.now }
    {
        match &self.state {
            State::Works(stage) => stage.is_rest(),
            State::Drains { hand, freeing } => freeing.is_none() && hand.is_empty(),
        }
    }

    /// How many events are unanswered.
    pub fn unanswered(&self) -> u64
        ensures { result ≡ unanswered self.now }
    {
        self.desk.unanswered.len() as u64
    }

    /// Whether it isn't in drain mode.
    pub fn is_calm(&self) -> bool
        ensures { result ≡ calm self.now }
    {
        match &self.state {
            State::Works(_) => true,
            State::Drains { .. } => false,
        }
    }

    /// The stamp at which the budget was used up, once it was told.
    pub fn spent(&self) -> Option<u32>
        ensures { result ≡ self.now.spent }
    {
        self.spent
    }
}
