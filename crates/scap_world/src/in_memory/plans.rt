ghost use Rattle.std.specs.Prelude.{◌≡◌, ◌+◌, ◌++◌, [], ◌∷◌, List, map, filter, take, drop, length, IfOk, OnOk, OnErr};
ghost use Rattle.scap_world.specs.Plans.{is_for, is_named, after, called, no_calls, settled};

use super::calls::Calls;
use super::fail_call::FailCall;
use std::alloc::{AllocError, Global};
use std::marker::Model;

/// What one `fail` named.
#[derive(Drop)]
pub(crate) struct Plan {
    name: String,
    call: FailCall,
    left: u64,
}

impl Model for Plan {
    ghost use Rattle.std.specs.String.{string_bytes};
    ghost use Rattle.scap_world.specs.Plans.{Planned};

    ghost Value = { Planned };

    ghost view = { λ p. record { name = string_bytes p.name; call = p.call; left = p.left } };
}

impl Plan {
    fn is_for(&self, name: &str, call: FailCall) -> bool
        ensures { result ≡ is_for name.now call self.now }
    {
        self.call == call && self.name.as_str() == name
    }

    /// Counts so many such calls on that name.
    fn pass(&mut self, name: &str, call: FailCall, times: u64)
        ensures { self.new ≡ after times name.now call self.old }
    {
        if self.is_for(name, call) {
            self.left = self.left.saturating_sub(times);
        }
    }
}

/// What is told to fail, in the order in which it was told.
#[derive(Drop)]
pub(crate) struct Plans {
    alloc: Global,
    plans: Vec<Plan>,
}

impl Model for Plans {
    ghost use Rattle.std.specs.Prelude.{List};
    ghost use Rattle.scap_world.specs.Plans.{Planned};

    ghost Value = { List Planned };

    ghost view = { λ p. p.plans.items };
}

impl Plans {
    pub fn new(alloc: Global) -> Self
        ensures { result ≡ [] }
    {
        Plans {
            alloc,
            plans: Vec::new(alloc),
        }
    }

    /// Tells the nth such call on that name from now on to fail.
    pub fn tell(&mut self, name: &str, call: FailCall, nth: u32) -> Result<(), AllocError>
        ensures ok { OnOk result (self.new ≡ self.old ++ record { name = name.now; call = call; left = nth } ∷ []) }
        ensures err { OnErr result (self.new ≡ self.old) }
    {
        let name = String::from_str(self.alloc, name)?;
        self.plans.push(Plan {
            name,
            call,
            left: u64::from(nth),
        })?;
        Ok(())
    }

    /// Whether the next such call on that name is to fail.
    pub fn is_named(&self, name: &str, call: FailCall) -> bool
        ensures { result ≡ is_named name.now call self.now }
    {
        self.plans
            .iter()
            .any(|plan| plan.is_for(name, call) && plan.left == 1)
    }

    /// Counts such a call on that name.
    pub fn call(&mut self, name: &str, call: FailCall)
        ensures { self.new ≡ called name.now call self.old }
    {
        pass_all(&mut self.plans, name, call, 1);
    }

    /// The calls on what is opened or created now.
    pub fn begin(&self, name: &str, call: FailCall) -> Result<Calls, AllocError>
        ensures { IfOk result (λ calls. calls ≡ no_calls name.now call self.now) }
    {
        let turns = turns_of(self.alloc, &self.plans, name, call)?;
        let name = String::from_str(self.alloc, name)?;
        Ok(Calls::new(name, self.plans.len(), turns))
    }

    /// Counts calls that are over.
    pub fn settle(&mut self, call: FailCall, calls: &Calls)
        ensures { self.new ≡ settled call calls.now self.old }
    {
        pass_front(
            &mut self.plans,
            calls.plans(),
            calls.name(),
            call,
            calls.made(),
        );
    }
}

fn pass_all(plans: &mut [Plan], name: &str, call: FailCall, times: u64)
    ensures { plans.new ≡ map (after times name.now call) plans.old }
{
    for plan in plans.iter_mut() {
        plan.pass(name, call, times);
    }
}

fn pass_front(plans: &mut [Plan], front: usize, name: &str, call: FailCall, times: u64)
    ensures { plans.new ≡ map (after times name.now call) (take front plans.old) ++ drop front plans.old }
{
    let front = front.min(plans.len());
    pass_all(&mut plans[..front], name, call, times);
}

fn turns_of(
    alloc: Global,
    plans: &[Plan],
    name: &str,
    call: FailCall,
) -> Result<Vec<u64>, AllocError>
    ensures { IfOk result (λ turns. turns.items ≡ map (λ plan. plan.left) (filter (is_for name.now call) plans.now)) }
{
    plans
        .iter()
        .filter(|plan| plan.is_for(name, call))
        .map(|plan| plan.left)
        .collect(alloc)
}
