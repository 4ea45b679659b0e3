// Passing what is held.
ghost use Rattle.std.specs.Prelude.{◌≡◌, ℕ, ◌+◌, ◌<◌, ◌≤◌, ◌^◌, length, IfOk, OnOk, MatchOption};
ghost use Rattle.reorder.specs.Frags.{Ascends, BeginsAt};
ghost use Rattle.flowdir.specs.Passing.{jumps_by, PassesOne, Passes, GoesOn, Advances, weight_of_all};
ghost use Rattle.reorder.specs.Frags.{EndBy};

use crate::Memory;
use crate::advance::Advance;
use crate::passed::Passed;
use crate::rule::{Rule, jumps};
use prio_budget::Charge;
use reorder::Store;
use std::alloc::Global;

/// Passes the first part, which begins at a position.
fn pass_one<C: Charge>(
    alloc: Global,
    moment: u64,
    passed: &mut Passed<C>,
    store: &mut Store<C>,
    at: u64,
) -> Result<(), Memory>
    requires begins { BeginsAt at store.old.frags }
    requires ascends { Ascends passed.old.lane.front store.old.frags }
    requires near { EndBy (2 ^ 62) store.old.frags }
    requires soon { moment ≤ 2 ^ 62 }
    ensures ok { OnOk result (PassesOne moment passed.old.lane store.old.frags passed.new.lane store.new.frags) }
    ensures weight { (w : C → ℕ) → weight_of_all w passed.new.lane store.new.frags ≡ weight_of_all w passed.old.lane store.old.frags }
{
    passed.open_at(alloc, moment, at)?;
    passed.make_room()?;
    if let Some(part) = store.take_front(at) {
        passed.append(part);
    }
    Ok(())
}

/// One turn of passing, whose next part has to begin at a position if no hole is jumped. Tells whether more may come, and
/// then where.
fn pass_turn<C: Charge>(
    alloc: Global,
    moment: u64,
    passed: &mut Passed<C>,
    store: &mut Store<C>,
    from: u64,
    rule: Rule,
) -> Result<Option<u64>, Memory>
    requires ascends { Ascends passed.old.lane.front store.old.frags }
    requires near { EndBy (2 ^ 62) store.old.frags }
    requires soon { moment ≤ 2 ^ 62 }
    ensures turns { IfOk result (λ next. MatchOption next
        (Passes (jumps_by rule) moment from passed.old.lane store.old.frags passed.new.lane store.new.frags)
        (λ from'. GoesOn (jumps_by rule) moment from passed.old.lane store.old.frags from' passed.new.lane store.new.frags)) }
    ensures ascends { IfOk result (λ _. Ascends passed.new.lane.front store.new.frags) }
    ensures near { IfOk result (λ _. EndBy (2 ^ 62) store.new.frags) }
    ensures weight { (w : C → ℕ) → weight_of_all w passed.new.lane store.new.frags ≡ weight_of_all w passed.old.lane store.old.frags }
{
    let Some(at) = store.least() else {
        return Ok(None);
    };
    if at != from && !jumps(rule, store.held()) {
        return Ok(None);
    }
    pass_one(alloc, moment, passed, store, at)?;
    Ok(Some(passed.front()))
}

/// Passes parts, from a position on.
pub(crate) fn pass_on<C: Charge>(
    alloc: Global,
    moment: u64,
    passed: &mut Passed<C>,
    store: &mut Store<C>,
    start: u64,
    rule: Rule,
) -> Result<(), Memory>
    requires ascends { Ascends passed.old.lane.front store.old.frags }
    requires near { EndBy (2 ^ 62) store.old.frags }
    requires soon { moment ≤ 2 ^ 62 }
    ensures passes { OnOk result (Passes (jumps_by rule) moment start passed.old.lane store.old.frags passed.new.lane store.new.frags) }
    ensures weight { (w : C → ℕ) → weight_of_all w passed.new.lane store.new.frags ≡ weight_of_all w passed.old.lane store.old.frags }
{
    let mut from = start;
    while let Some(next) = pass_turn(alloc, moment, passed, store, from, rule)? {
        from = next;
    }
    Ok(())
}

/// Passes what an entry passes.
#[tactic(auto, using(crate::proofs::Advancing::advances_on, crate::proofs::Advancing::advances_none))]
pub(crate) fn advance<C: Charge>(
    alloc: Global,
    moment: u64,
    passed: &mut Passed<C>,
    store: &mut Store<C>,
    way: Advance,
) -> Result<(), Memory>
    requires ascends { Ascends passed.old.lane.front store.old.frags }
    requires near { EndBy (2 ^ 62) store.old.frags }
    requires soon { moment ≤ 2 ^ 62 }
    ensures advances { OnOk result (Advances way moment passed.old.lane store.old.frags passed.new.lane store.new.frags) }
    ensures weight { (w : C → ℕ) → weight_of_all w passed.new.lane store.new.frags ≡ weight_of_all w passed.old.lane store.old.frags }
{
    match way {
        Advance::Stay => Ok(()),
        Advance::From { at, rule } => pass_on(alloc, moment, passed, store, at, rule),
    }
}
