// One core's replay of datagrams.
ghost use Rattle.std.specs.Prelude.{◌≡◌, ◌+◌, ◌<◌, ◌≤◌, ◌^◌, ◌++◌, [], ◌∷◌, length, MatchOption, OnOk, IfOk};
ghost use Rattle.datagrams.specs.State.{budget_after, frees_for, line_for, waits_of, IsBare, IsInUse};

use crate::closing::{release_open, release_waiting};
use crate::counting::refusals_in;
use crate::end_half::end_place;
use crate::enter_half::enter_place;
use crate::event::Event;
use crate::holding::{book_datagram, book_end, hold};
use crate::untold::Untold;
use crate::{Conversation, Conversations, Made, Memory, Served};
use evring::{Advice, Frees, Reason, Way};
use histbook::{CoreEntry, Entry};
use prio_budget::{Marks, PlainBudget};
use std::alloc::Global;
use std::collections::VecDeque;
use std::marker::Model;
use streamkey::{Key, Toward};

/// A replay so far. The bytes in use of its budget are those of the chunks that it holds, also behind want of memory, after
/// which no entry is made any more.
#[derive(Drop)]
pub struct Replay {
    mark: u32,
    least: u64,
    budget: PlainBudget,
    table: Conversations,
    waiting: VecDeque<Untold>,
    served: Served,
    book: Vec<CoreEntry>,
    answered: u64,
    came: u64,
    peak: u32,
    refused: u64,
}

impl Model for Replay {
    ghost use Rattle.datagrams.specs.State.{State};
    ghost use Rattle.datagrams.specs.Sound.{IsSound};

    ghost Value = { State };

    ghost view = { λ r. record { mark = r.mark; least = r.least; budget = r.budget; table = r.table; waiting = r.waiting.items; text = r.served; book = r.book.items; answered = r.answered; came = r.came; peak = r.peak; refused = r.refused } };

    ghost invariant = { λ r. IsSound (record { mark = r.mark; least = r.least; budget = r.budget; table = r.table; waiting = r.waiting.items; text = r.served; book = r.book.items; answered = r.answered; came = r.came; peak = r.peak; refused = r.refused }) };
}

/// Tells an event's handler: its line, and what its answer releases, also at want of memory.
fn tell(
    alloc: Global,
    served: &mut Served,
    budget: &mut PlainBudget,
    conv: u32,
    event: Event,
) -> Result<Frees, Memory>
    requires bare { IsBare event }
    requires held { IsInUse budget.old.used (waits_of event) }
    ensures budget { budget.new ≡ budget_after (waits_of event) budget.old }
    ensures text { OnOk result (served.new ≡ served.old ++ line_for conv (waits_of event)) }
    ensures frees { IfOk result (λ frees. frees ≡ frees_for budget.old.stamp (waits_of event)) }
{
    match event {
        Event::Opened { key, toward } => served.open(conv, &key, toward)?,
        Event::Handed { way, chunk } => return served.hand_over(alloc, budget, conv, way, chunk),
        Event::Over { reason } => served.end(conv, reason)?,
    }
    Ok(Frees::of(Vec::new(alloc)))
}

impl Replay {
    ghost use Rattle.datagrams.specs.State.{answered_first, fresh, way_at, with_conversation, with_datagram_at, with_end_at};
    ghost use Rattle.std.specs.List.{HoldsAt};
    ghost use Rattle.datagrams.specs.Rows.{IsPlaced, NoneHasKey};
    ghost use Rattle.prio_budget.specs.Marks.{mark_of};
    ghost use Rattle.datagrams.specs.Sound.{came_bytes, held_bytes, IsEven};
    ghost use Rattle.streamdefs.specs.Lists.{Each, total};

    /// Before any packet.
    pub fn new(alloc: Global, marks: &Marks, chunk_size: u64) -> Replay
        ensures state { result ≡ fresh marks.now.limit (mark_of marks.now 0) chunk_size }
        ensures within { mark_of marks.now 0 ≤ marks.now.limit }
    {
        Replay {
            mark: marks.mark(0),
            least: chunk_size,
            budget: PlainBudget::new(marks, 0),
            table: Conversations::new(alloc),
            waiting: VecDeque::new(alloc),
            served: Served::new(alloc),
            book: Vec::new(alloc),
            answered: 0,
            came: 0,
            peak: 0,
            refused: 0,
        }
    }

    /// Tells the handler of the first event that waits, and enters its answer.
    pub fn answer(&mut self, alloc: Global) -> Result<(), Memory>
        ensures { OnOk result (self.new ≡ answered_first self.old) }
    {
        self.book.reserve(1)?;
        let Some(untold) = self.waiting.pop_front() else {
            return Ok(());
        };
        let (conv, event) = untold.unpack();
        let frees = tell(alloc, &mut self.served, &mut self.budget, conv, event)?;
        self.answered += 1;
        self.book.push_reserved(CoreEntry {
            conv,
            entry: Entry::Answer {
                event: self.answered,
                advice: Advice::none(),
                frees,
            },
        });
        Ok(())
    }

    /// The place of the conversation of that key.
    pub fn place(&self, key: &Key) -> Option<usize>
        ensures { MatchOption result (NoneHasKey key.now self.now.table) (λ place. IsPlaced key.now self.now.table place) }
    {
        self.table.place(key)
    }

    /// The number of the conversation at a place, and the direction of its packets of that way.
    pub fn number_and_way(&self, place: usize, toward: Toward) -> (u32, Way)
        requires { place < length self.now.table }
        ensures { HoldsAt (λ c. (result.0 ≡ c.number) × (result.1 ≡ way_at c toward)) self.now.table place }
    {
        let conversation = &self.table.as_slice()[place];
        let way = if conversation.toward == toward {
            Way::Fore
        } else {
            Way::Back
        };
        (conversation.number, way)
    }

    /// Opens a conversation at the packet of that number, behind the others. No other has its key.
    pub fn open(&mut self, number: u32, key: Key, toward: Toward) -> Result<(), Memory>
        requires { NoneHasKey key self.old.table }
        ensures { OnOk result (self.new ≡ with_conversation self.old number key toward) }
    {
        self.table.open(Conversation::new(number, key, toward))?;
        self.waiting
            .push_back(Untold::new(number, Event::Opened { key, toward }))?;
        Ok(())
    }

    /// Enters a datagram of the conversation at a place of the table, whose number and direction are given.
    pub fn enter_at(
        &mut self,
        alloc: Global,
        place: usize,
        conv: u32,
        way: Way,
        number: u32,
        now: u64,
        payload: &[u8],
    ) -> Result<(), Memory>
        requires place { place < length self.old.table }
        requires few { length payload.now < 2 ^ 32 }
        requires fits { self.old.came + length payload.now < 2 ^ 64 }
        ensures state { OnOk result (HoldsAt (λ c. self.new ≡ with_datagram_at self.old place conv c way number now payload.now) self.old.table place) }
        ensures stamp { OnOk result (0 < length payload.now → self.old.budget.stamp < 2 ^ 31) }
    {
        self.waiting.reserve(2)?;
        let entered = enter_place(
            alloc,
            &mut self.budget,
            self.mark,
            self.least,
            &mut self.table,
            place,
            way,
            payload,
        )?;
        self.came += payload.len() as u64;
        self.peak = self.peak.max(self.budget.used());
        hold(&mut self.waiting, conv, way, entered.closed);
        hold(&mut self.waiting, conv, way, entered.full);
        let refusals = refusals_in(&entered.look);
        book_datagram(alloc, &mut self.book, conv, number, now, entered.look)?;
        self.refused += refusals;
        Ok(())
    }

    /// Ends the conversation at a place of the table, whose number is given, at the end of the capture.
    pub fn end_at(
        &mut self,
        alloc: Global,
        place: usize,
        conv: u32,
        last: u64,
    ) -> Result<(), Memory>
        requires { place < length self.old.table }
        ensures { OnOk result (HoldsAt (λ c. self.new ≡ with_end_at last self.old place conv c) self.old.table place) }
    {
        self.waiting.reserve(2)?;
        let (fore, back) = end_place(&mut self.table, place);
        hold(&mut self.waiting, conv, Way::Fore, fore);
        hold(&mut self.waiting, conv, Way::Back, back);
        let reason = Reason::Finish;
        self.waiting
            .push_back(Untold::new(conv, Event::Over { reason }))?;
        book_end(alloc, &mut self.book, conv, last)
    }

    /// How many conversations there are.
    pub fn conversations(&self) -> usize
        ensures { result ≡ length self.now.table }
    {
        self.table.len()
    }

    /// The number of the conversation at a place.
    pub fn number_at(&self, place: usize) -> u32
        requires { place < length self.now.table }
        ensures { HoldsAt (λ c. result ≡ c.number) self.now.table place }
    {
        self.table.as_slice()[place].number
    }

    /// How many events wait.
    pub fn waiting_len(&self) -> usize
        ensures { result ≡ length self.now.waiting }
    {
        self.waiting.len()
    }

    /// The budget, and what the replay made. The bytes of chunks that it holds stay in use.
    pub fn into_parts(self) -> (PlainBudget, Made)
        ensures budget { result.0 ≡ self.budget }
        ensures held { held_bytes self.table self.waiting ≡ self.budget.used }
        ensures even { Each IsEven self.table }
        ensures came { total came_bytes self.table < 2 ^ 64 }
        ensures text { result.1.text.items ≡ self.text }
        ensures book { result.1.book.items ≡ self.book }
        ensures table { result.1.table ≡ self.table }
        ensures numbers { (result.1.answered ≡ self.answered) × (result.1.peak ≡ self.peak) × (result.1.refused ≡ self.refused) }
    {
        let made = Made {
            text: self.served.into_text(),
            book: self.book,
            table: self.table,
            answered: self.answered,
            peak: self.peak,
            refused: self.refused,
        };
        (self.budget, made)
    }

    /// Ends a replay that can't go on, and releases all that it holds.
    pub fn close(self, alloc: Global) -> PlainBudget
        ensures { result.used ≡ 0 }
    {
        let mut budget = self.budget;
        let mut waiting = self.waiting;
        let mut list = self.table.into_list();
        release_waiting(alloc, &mut budget, &mut waiting);
        release_open(alloc, &mut budget, &mut list);
        budget
    }
}
