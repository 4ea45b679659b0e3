// A datagram's entry into one direction of a conversation.
ghost use Rattle.std.specs.Prelude.{◌≡◌, ◌+◌, ◌<◌, ◌≤◌, ◌^◌, ◌++◌, length, slice_set, IfOk, OnOk, OnErr, option_to_list};
ghost use Rattle.std.specs.List.{HoldsAt};
ghost use Rattle.datagrams.specs.Rows.{half_of, sums_of, with_half};
ghost use Rattle.datagrams.specs.Entered.{entered};
ghost use Rattle.datagrams.specs.Flow.{chunk_list, open_in, HasNoCopy};
ghost use Rattle.datagrams.specs.Sums.{with_chunks, with_datagram, IsBalanced};
ghost use Rattle.datagrams.specs.State.{conversation_with, granted_by, FitsInto};

use crate::counting::count_entered;
use crate::{Conversations, Entered, HalfStream, Memory, RunningSums};
use evring::Way;
use prio_budget::PlainBudget;
use std::alloc::Global;

/// Enters a datagram into a direction, and counts it there.
pub(crate) fn enter_half(
    alloc: Global,
    budget: &mut PlainBudget,
    mark: u32,
    least: u64,
    half: &mut HalfStream,
    sums: &mut RunningSums,
    payload: &[u8],
) -> Result<Entered, Memory>
    requires mark { mark ≤ budget.old.limit }
    requires fits { half.old.sent + length payload.now < 2 ^ 64 }
    requires few { length payload.now < 2 ^ 32 }
    requires balanced { IsBalanced half.old sums.old }
    ensures looks { IfOk result (λ e. option_to_list e.look ≡ (entered mark least budget.old half.old payload.now).looks) }
    ensures over { IfOk result (λ e. chunk_list (open_in e.closed) ++ chunk_list (open_in e.full) ≡ (entered mark least budget.old half.old payload.now).over) }
    ensures flow { OnOk result (half.new ≡ (entered mark least budget.old half.old payload.now).flow) }
    ensures budget { OnOk result (budget.new ≡ (entered mark least budget.old half.old payload.now).budget) }
    ensures sums { OnOk result (sums.new ≡ with_chunks (with_datagram sums.old (length payload.now) (granted_by (entered mark least budget.old half.old payload.now).looks)) (entered mark least budget.old half.old payload.now).over) }
    ensures bare { IfOk result (λ e. HasNoCopy e.closed × HasNoCopy e.full) }
    ensures stamp { OnOk result (0 < length payload.now → budget.old.stamp < 2 ^ 31) }
    ensures err { OnErr result ((half.new ≡ half.old) × (sums.new ≡ sums.old)) }
    ensures released { OnErr result (budget.new ≡ record budget.old { stamp = budget.new.stamp }) }
{
    let entered = half.enter(alloc, budget, mark, least, payload)?;
    count_entered(sums, payload.len() as u64, &entered);
    Ok(entered)
}

/// Enters a datagram into a direction of the conversation at a place of the table. At want of memory nothing changes but the
/// budget's stamp.
pub(crate) fn enter_place(
    alloc: Global,
    budget: &mut PlainBudget,
    mark: u32,
    least: u64,
    table: &mut Conversations,
    place: usize,
    way: Way,
    payload: &[u8],
) -> Result<Entered, Memory>
    requires place { place < length table.old }
    requires mark { mark ≤ budget.old.limit }
    requires few { length payload.now < 2 ^ 32 }
    requires fits { HoldsAt (FitsInto way (length payload.now)) table.old place }
    ensures looks { IfOk result (λ e. HoldsAt (λ c. option_to_list e.look ≡ (entered mark least budget.old (half_of way c) payload.now).looks) table.old place) }
    ensures over { IfOk result (λ e. HoldsAt (λ c. chunk_list (open_in e.closed) ++ chunk_list (open_in e.full) ≡ (entered mark least budget.old (half_of way c) payload.now).over) table.old place) }
    ensures budget { OnOk result (HoldsAt (λ c. budget.new ≡ (entered mark least budget.old (half_of way c) payload.now).budget) table.old place) }
    ensures table { OnOk result (HoldsAt (λ c. table.new ≡ slice_set table.old place (conversation_with way (entered mark least budget.old (half_of way c) payload.now) (length payload.now) c)) table.old place) }
    ensures bare { IfOk result (λ e. HasNoCopy e.closed × HasNoCopy e.full) }
    ensures stamp { OnOk result (0 < length payload.now → budget.old.stamp < 2 ^ 31) }
    ensures err { OnErr result (table.new ≡ table.old) }
    ensures released { OnErr result (budget.new ≡ record budget.old { stamp = budget.new.stamp }) }
{
    let (mut half, mut sums) = table.take_half(place, way);
    let entered = enter_half(alloc, budget, mark, least, &mut half, &mut sums, payload);
    table.put_half(place, way, half, sums);
    entered
}
