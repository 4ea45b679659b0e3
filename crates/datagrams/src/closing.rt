// Releasing all that a replay holds, where it doesn't end.
ghost use Rattle.std.specs.Prelude.{◌≡◌, ◌+◌, ◌≤◌};
ghost use Rattle.streamdefs.specs.Lists.{total};
ghost use Rattle.datagrams.specs.Sound.{bytes_in, open_bytes};
ghost use Rattle.datagrams.specs.State.{waits_of, IsBare};
ghost use Rattle.datagrams.specs.Sums.{bytes_open};

use crate::event::Event;
use crate::release::release_chunk;
use crate::untold::Untold;
use crate::{Conversation, HalfStream};
use prio_budget::PlainBudget;
use std::alloc::Global;
use std::collections::VecDeque;

fn release_event(alloc: Global, budget: &mut PlainBudget, event: Event)
    requires bare { IsBare event }
    requires held { bytes_in (waits_of event) ≤ budget.old.used }
    ensures { budget.new.used + bytes_in (waits_of event) ≡ budget.old.used }
{
    match event {
        Event::Handed { chunk, .. } => {
            let _ = release_chunk(alloc, budget, chunk);
        }
        Event::Opened { .. } | Event::Over { .. } => {}
    }
}

/// Releases the charges of all events that wait.
pub(crate) fn release_waiting(
    alloc: Global,
    budget: &mut PlainBudget,
    waiting: &mut VecDeque<Untold>,
)
    requires { total (λ u. bytes_in u.event) waiting.old.items ≤ budget.old.used }
    ensures { budget.new.used + total (λ u. bytes_in u.event) waiting.old.items ≡ budget.old.used }
{
    while let Some(untold) = waiting.pop_front() {
        let (_, event) = untold.unpack();
        release_event(alloc, budget, event);
    }
}

fn release_half(alloc: Global, budget: &mut PlainBudget, mut half: HalfStream)
    requires { bytes_open half.chunk ≤ budget.old.used }
    ensures { budget.new.used + bytes_open half.chunk ≡ budget.old.used }
{
    if let Some(chunk) = half.take_open() {
        let _ = release_chunk(alloc, budget, chunk);
    }
}

fn release_both(alloc: Global, budget: &mut PlainBudget, conversation: Conversation)
    requires { open_bytes conversation ≤ budget.old.used }
    ensures { budget.new.used + open_bytes conversation ≡ budget.old.used }
{
    release_half(alloc, budget, conversation.fore);
    release_half(alloc, budget, conversation.back);
}

/// Releases the charges of all open chunks.
pub(crate) fn release_open(alloc: Global, budget: &mut PlainBudget, list: &mut Vec<Conversation>)
    requires { total open_bytes list.old.items ≤ budget.old.used }
    ensures { budget.new.used + total open_bytes list.old.items ≡ budget.old.used }
{
    while let Some(conversation) = list.pop() {
        release_both(alloc, budget, conversation);
    }
}
