// Events and entries that are put behind others.
ghost use Rattle.std.specs.Prelude.{◌≡◌, ◌+◌, ◌<◌, ◌≤◌, ◌++◌, ◌∷◌, [], IfOk, OnOk, OnErr, option_to_list};
ghost use Rattle.std.specs.VecDeque.{deque_len, deque_capacity};
ghost use Rattle.histbook.specs.declared.entry.Entry.TheVariants.{Seg as SegEntry, End as EndEntry};
ghost use Rattle.evring.specs.declared.reason.Reason.TheVariants.{Finish};
ghost use Rattle.datagrams.specs.Flow.{chunk_list, open_in, HasNoCopy};
ghost use Rattle.datagrams.specs.State.{handed};

use crate::Memory;
use crate::event::Event;
use crate::untold::Untold;
use chunkpart::Chunk;
use evring::{Frees, Reason, Way};
use histbook::{CoreEntry, Entry, LookEntry, Looks};
use prio_budget::PlainCharge;
use std::alloc::Global;
use std::collections::VecDeque;

/// Puts a chunk that is handed over behind the events that wait, where there is one. There is room for it.
pub(crate) fn hold(
    waiting: &mut VecDeque<Untold>,
    conv: u32,
    way: Way,
    chunk: Option<Chunk<PlainCharge>>,
)
    requires bare { HasNoCopy chunk }
    requires room { deque_len waiting.old < deque_capacity waiting.old }
    ensures items { waiting.new.items ≡ waiting.old.items ++ handed conv way (chunk_list (open_in chunk)) }
    ensures len { deque_len waiting.new ≤ deque_len waiting.old + 1 }
    ensures capacity { deque_capacity waiting.new ≡ deque_capacity waiting.old }
{
    if let Some(chunk) = chunk {
        match waiting.push_back(Untold::new(conv, Event::Handed { way, chunk })) {
            Ok(()) => {}
            Err(_) => unreachable!(),
        }
    }
}

fn looks_of(alloc: Global, look: Option<LookEntry>) -> Result<Looks, Memory>
    ensures { IfOk result (λ looks. looks ≡ option_to_list look) }
{
    let mut looks = Vec::new(alloc);
    if let Some(look) = look {
        looks.push(look)?;
    }
    Ok(Looks::of(looks))
}

/// Enters a datagram into a book.
pub(crate) fn book_datagram(
    alloc: Global,
    book: &mut Vec<CoreEntry>,
    conv: u32,
    packet: u32,
    now: u64,
    look: Option<LookEntry>,
) -> Result<(), Memory>
    ensures ok { OnOk result (book.new.items ≡ book.old.items ++ record { conv = conv; entry = SegEntry packet now (option_to_list look) [] } ∷ []) }
    ensures err { OnErr result (book.new.items ≡ book.old.items) }
{
    let looks = looks_of(alloc, look)?;
    let frees = Frees::of(Vec::new(alloc));
    book.push(CoreEntry {
        conv,
        entry: Entry::Seg {
            packet,
            now,
            looks,
            frees,
        },
    })?;
    Ok(())
}

/// Enters the end of a conversation at the end of the capture into a book.
pub(crate) fn book_end(
    alloc: Global,
    book: &mut Vec<CoreEntry>,
    conv: u32,
    at: u64,
) -> Result<(), Memory>
    ensures ok { OnOk result (book.new.items ≡ book.old.items ++ record { conv = conv; entry = EndEntry at Finish [] [] } ∷ []) }
    ensures err { OnErr result (book.new.items ≡ book.old.items) }
{
    let looks = Looks::of(Vec::new(alloc));
    let frees = Frees::of(Vec::new(alloc));
    book.push(CoreEntry {
        conv,
        entry: Entry::End {
            at,
            reason: Reason::Finish,
            looks,
            frees,
        },
    })?;
    Ok(())
}
