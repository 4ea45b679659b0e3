// A table with a plain budget and one worker, in one thread, which plays a story and writes down its turns.
ghost use Rattle.std.specs.Prelude.{◌≡◌, ◌≤◌, true, IfOk, OnOk, IsSome};
ghost use Rattle.flowdir.specs.Boundary.{charge_by};
ghost use Rattle.prio_budget.specs.Answers.{IsDecided};
ghost use Rattle.coretable.specs.Table.{IsPaid, limit, paused, rests, unanswered};
ghost use Rattle.coretable.specs.declared.pause.Pause.TheVariants.{Still, Asked, Freeing};

use crate::book::book_text;
use crate::events::put_event;
use crate::packets::packet;
use crate::steps::{Ends, How, NOTHING, Said, Step, Story};
use crate::worker::{advice_on, answer_to, release};
use convo::ConvoSet;
use coretable::{CoreTable, Turn};
use evring::{Answer, Event};
use prio_budget::{Answered, Charge, Free, Look, PlainBudget, PlainCharge, SPENT_STAMP};
use scapconf::Settings;
use std::alloc::Global;
use std::collections::VecDeque;
use std::process::Abort;
use std::str;
use std::test::Fail;
use streamkey::{Input, Packet, Proto};
use textout::{put_count, put_text};

/// More turns than any step of a story has.
const MANY: u32 = 1_000;

/// The table, the budget, the events that no worker has seen and the answers that the table hasn't.
#[derive(Drop)]
struct Machine<'a> {
    alloc: Global,
    table: CoreTable<PlainCharge>,
    budget: PlainBudget,
    events: VecDeque<Event<PlainCharge>>,
    answers: VecDeque<Answer<PlainCharge>>,
    says: &'a [(u64, Said)],
    at_once: bool,
    how: How,
    /// The table's last turn was Full, Ready or Over, and nothing came to it since.
    idle: bool,
    calm: bool,
    number: u32,
    seen: u64,
    taken: u64,
    /// Charges and their bytes that came out in drain mode since the last rest.
    drained: (u32, u64),
    lines: Vec<u8>,
    /// The length of the lines before those that aren't kept.
    kept: usize,
}

/// The settings that a text says.
fn settings(alloc: Global, text: &str) -> Result<ConvoSet, Fail> {
    match Settings::parse(alloc, text.as_bytes()) {
        Ok(settings) => Ok(settings.set),
        Err(_) => Err("no settings".into()),
    }
}

/// An ask is answered.
fn decide(
    budget: &mut PlainBudget,
    how: How,
    bytes: u32,
    mark: u32,
) -> Result<Answered<PlainCharge>, Fail>
    requires bytes { 1 ≤ bytes }
    requires mark { mark ≤ budget.old.limit }
    ensures decided { IfOk result (IsDecided bytes mark) }
    ensures paid { IfOk result (IsPaid (charge_by ⟦<PlainCharge as Charge>⟧.amount ⟦<PlainCharge as Charge>⟧.stamp) bytes) }
    ensures limit { budget.new.limit ≡ budget.old.limit }
{
    if how != How::Moved {
        return Ok(budget.reserve(bytes, mark));
    }
    let look = Look {
        stamp: budget.stamp(),
        found: budget.used(),
    };
    let first = Look {
        stamp: look.stamp,
        found: u32::MAX,
    };
    let fits = u64::from(look.found) + u64::from(bytes) <= u64::from(mark);
    if look.stamp >= SPENT_STAMP || look.found == u32::MAX || !fits {
        return Err("nothing can move here".into());
    }
    Ok(Answered::Moved { first, look })
}

/// The line of an ask.
fn put_answered(
    lines: &mut Vec<u8>,
    bytes: u32,
    answered: &Answered<PlainCharge>,
) -> Result<(), Fail> {
    let (word, look) = match answered {
        Answered::Granted { look, .. } => ("+", look),
        Answered::Past { look } => ("-", look),
        Answered::Spent { look } => ("spent ", look),
        Answered::Moved { look, .. } => ("moved ", look),
    };
    put_count(lines, word, u64::from(bytes))?;
    put_count(lines, "@", u64::from(look.stamp))?;
    put_count(lines, ":", u64::from(look.found))?;
    put_text(lines, "\n")?;
    Ok(())
}

/// A release.
fn put_free(lines: &mut Vec<u8>, free: &Free) -> Result<(), Fail> {
    put_count(lines, "~", u64::from(free.bytes))?;
    put_count(lines, "@", u64::from(free.stamp))?;
    Ok(())
}

/// The line of an answer that is taken: its number, and what the worker gave back.
fn put_back(lines: &mut Vec<u8>, number: u64, frees: &[Free]) -> Result<(), Fail> {
    put_count(lines, "back ", number)?;
    for free in frees {
        put_text(lines, " ")?;
        put_free(lines, free)?;
    }
    put_text(lines, "\n")?;
    Ok(())
}

impl<'a> Machine<'a> {
    /// Before a story.
    fn new(alloc: Global, story: &Story<'a>) -> Result<Self, Fail>
        ensures still { IfOk result (λ m. paused m.table ≡ Still) }
        ensures limit { IfOk result (λ m. m.budget.limit ≡ limit m.table) }
    {
        let set = settings(alloc, story.settings)?;
        if story.first_stamp > SPENT_STAMP {
            return Err("a budget begins past its stamps".into());
        }
        let budget = PlainBudget::new(&set.marks, story.first_stamp);
        Ok(Machine {
            alloc,
            table: CoreTable::new(alloc, set),
            budget,
            events: VecDeque::new(alloc),
            answers: VecDeque::new(alloc),
            says: story.says,
            at_once: story.at_once,
            how: How::Plainly,
            idle: true,
            calm: true,
            number: 0,
            seen: 0,
            taken: 0,
            drained: (0, 0),
            lines: Vec::new(alloc),
            kept: 0,
        })
    }

    /// The table has come to a turn: what it tells of itself.
    fn look(&self, rests: bool, ready: bool) -> Result<(), Fail> {
        let events = self.events.len() as u64;
        let waiting = events.saturating_add(self.answers.len() as u64);
        if self.table.at_rest() != rests || self.table.ready != ready {
            return Err("another rest".into());
        }
        if self.table.unanswered() != waiting {
            return Err("another number of unanswered events".into());
        }
        if self.table.is_calm() != self.calm {
            return Err("another mode".into());
        }
        Ok(())
    }

    /// The table gives up.
    fn give_up(&mut self)
        ensures asked { (bytes mark : _) → paused self.old.table ≡ Asked bytes mark → paused self.new.table ≡ Still }
        ensures freeing { (bytes stamp : _) → paused self.old.table ≡ Freeing bytes stamp → paused self.new.table ≡ Freeing bytes stamp }
        ensures still { paused self.old.table ≡ Still → paused self.new.table ≡ Still }
        ensures limit { limit self.new.table ≡ limit self.old.table }
        ensures rest { self.new ≡ record self.old { table = self.new.table; calm = self.new.calm; idle = self.new.idle; how = self.new.how } }
    {
        self.table.give_up();
        self.calm = false;
        self.idle = false;
        self.how = How::Plainly;
    }

    /// The budget answers an ask.
    fn ask(&mut self, bytes: u32, mark: u32) -> Result<(), Fail>
        requires bytes { 1 ≤ bytes }
        requires mark { mark ≤ limit self.old.table }
        requires limit { self.old.budget.limit ≡ limit self.old.table }
        requires awaited { paused self.old.table ≡ Asked bytes mark }
        ensures still { OnOk result (paused self.new.table ≡ Still) }
        ensures limit { self.new.budget.limit ≡ limit self.new.table }
    {
        if self.how == How::AskIsVoid {
            put_count(&mut self.lines, "void ", u64::from(bytes))?;
            put_text(&mut self.lines, "\n")?;
            self.give_up();
            return Ok(());
        }
        let answered = decide(&mut self.budget, self.how, bytes, mark)?;
        self.how = How::Plainly;
        put_answered(&mut self.lines, bytes, &answered)?;
        if let Answered::Spent { .. } = &answered {
            self.calm = false;
        }
        self.table.told(answered);
        Ok(())
    }

    /// A charge goes back to the budget.
    fn free(&mut self, charge: PlainCharge) -> Result<(), Fail>
        requires limit { self.old.budget.limit ≡ limit self.old.table }
        requires awaited { paused self.old.table ≡ Freeing charge.amount charge.stamp }
        ensures still { OnOk result (paused self.new.table ≡ Still) }
        ensures limit { self.new.budget.limit ≡ limit self.new.table }
    {
        let bytes = charge.amount();
        let stamp = charge.stamp();
        if self.how == How::GivesUpBefore {
            put_text(&mut self.lines, "gives up\n")?;
            self.give_up();
            self.look(false, false)?;
        }
        let free = release(&mut self.budget, charge)?;
        if free.stamp <= stamp {
            return Err("it is given back before it was granted".into());
        }
        if self.calm {
            put_free(&mut self.lines, &free)?;
            put_text(&mut self.lines, "\n")?;
        } else {
            let (count, sum) = self.drained;
            self.drained = (
                count.saturating_add(1),
                sum.saturating_add(u64::from(bytes)),
            );
        }
        self.table.freed(free);
        Ok(())
    }

    /// The table waits for an input or an answer.
    fn rest(&mut self, word: &str, ready: bool) -> Result<(), Fail>
        ensures { self.new ≡ record self.old { lines = self.new.lines; drained = self.new.drained; idle = self.new.idle } }
    {
        self.look(true, ready)?;
        let (count, sum) = self.drained;
        if count > 0 {
            put_count(&mut self.lines, "drained ", u64::from(count))?;
            put_count(&mut self.lines, " of ", sum)?;
            put_text(&mut self.lines, "\n")?;
        }
        put_text(&mut self.lines, word)?;
        self.drained = (0, 0);
        self.idle = true;
        Ok(())
    }

    /// An event goes to the worker.
    fn emit(&mut self, event: Event<PlainCharge>) -> Result<(), Fail>
        ensures { self.new ≡ record self.old { lines = self.new.lines; events = self.new.events } }
    {
        put_event(self.alloc, &mut self.lines, &event)?;
        self.events.push_back(event)?;
        self.look(false, false)
    }

    /// The table's next turn.
    fn turn(&mut self) -> Result<(), Fail>
        requires still { paused self.old.table ≡ Still }
        requires limit { self.old.budget.limit ≡ limit self.old.table }
        ensures still { OnOk result (paused self.new.table ≡ Still) }
        ensures limit { OnOk result (self.new.budget.limit ≡ limit self.new.table) }
    {
        let Ok(turn) = self.table.next() else {
            return Err("next: out of memory".into());
        };
        match turn {
            Turn::Ask { bytes, mark } => {
                self.look(false, false)?;
                self.ask(bytes, mark)
            }
            Turn::Free(charge) => {
                self.look(false, false)?;
                self.free(charge)
            }
            Turn::Emit(event) => self.emit(event),
            Turn::Full => self.rest("full\n", false),
            Turn::Ready => self.rest("ready\n", true),
            Turn::Over => self.rest("over\n", false),
        }
    }

    /// The worker works an event off.
    fn work(&mut self, event: Event<PlainCharge>) -> Result<(), Fail>
        ensures limit { self.new.budget.limit ≡ self.old.budget.limit }
        ensures table { self.new.table ≡ self.old.table }
    {
        self.seen = self.seen.saturating_add(1);
        let advice = advice_on(self.says, self.seen);
        let answer = answer_to(self.alloc, &mut self.budget, event, advice)?;
        self.answers.push_back(answer)?;
        Ok(())
    }

    /// The table takes an answer.
    fn take(&mut self, answer: Answer<PlainCharge>) -> Result<(), Fail>
        requires still { paused self.old.table ≡ Still }
        requires rests { rests self.old.table ≡ true }
        requires waits { 1 ≤ unanswered self.old.table }
        requires limit { self.old.budget.limit ≡ limit self.old.table }
        ensures still { OnOk result (paused self.new.table ≡ Still) }
        ensures limit { OnOk result (self.new.budget.limit ≡ limit self.new.table) }
    {
        self.taken = self.taken.saturating_add(1);
        put_back(&mut self.lines, self.taken, answer.frees.as_slice())?;
        if self.table.back(answer).is_err() {
            return Err("back: out of memory".into());
        }
        self.idle = false;
        Ok(())
    }

    /// The next answer that the table can take.
    fn next_answer(&mut self) -> Option<Answer<PlainCharge>>
        ensures some { IsSome result → (rests self.old.table ≡ true) × (1 ≤ unanswered self.old.table) }
        ensures rest { self.new ≡ record self.old { answers = self.new.answers } }
    {
        if self.table.at_rest() && self.table.unanswered() >= 1 {
            return self.answers.pop_front();
        }
        None
    }

    /// The next event that the worker sees at once.
    fn next_event(&mut self) -> Option<Event<PlainCharge>>
        ensures { self.new ≡ record self.old { events = self.new.events } }
    {
        if self.at_once {
            return self.events.pop_front();
        }
        None
    }

    /// An answer is taken, else an event is worked off, else the table comes to a turn. False: nothing moves.
    fn go_on(&mut self) -> Result<bool, Fail>
        requires still { paused self.old.table ≡ Still }
        requires limit { self.old.budget.limit ≡ limit self.old.table }
        ensures still { OnOk result (paused self.new.table ≡ Still) }
        ensures limit { OnOk result (self.new.budget.limit ≡ limit self.new.table) }
    {
        if let Some(answer) = self.next_answer() {
            self.take(answer)?;
            return Ok(true);
        }
        if let Some(event) = self.next_event() {
            self.work(event)?;
            return Ok(true);
        }
        if self.idle {
            return Ok(false);
        }
        self.turn()?;
        Ok(true)
    }

    /// Goes on until nothing moves.
    fn settle(&mut self) -> Result<(), Fail>
        requires still { paused self.old.table ≡ Still }
        requires limit { self.old.budget.limit ≡ limit self.old.table }
        ensures still { OnOk result (paused self.new.table ≡ Still) }
        ensures limit { OnOk result (self.new.budget.limit ≡ limit self.new.table) }
    {
        'moves: for _ in 0..MANY {
            if !self.go_on()? {
                return Ok(());
            }
        }
        Err("it never comes to a rest".into())
    }

    /// The worker works the next event off, where events aren't answered at once.
    fn answer(&mut self) -> Result<(), Fail>
        requires still { paused self.old.table ≡ Still }
        requires limit { self.old.budget.limit ≡ limit self.old.table }
        ensures still { OnOk result (paused self.new.table ≡ Still) }
        ensures limit { OnOk result (self.new.budget.limit ≡ limit self.new.table) }
    {
        let Some(event) = self.events.pop_front() else {
            return Err("no event waits".into());
        };
        self.work(event)?;
        self.settle()
    }

    /// So many events are answered, one after the other.
    fn answers(&mut self, count: u32) -> Result<(), Fail>
        requires still { paused self.old.table ≡ Still }
        requires limit { self.old.budget.limit ≡ limit self.old.table }
        ensures still { OnOk result (paused self.new.table ≡ Still) }
        ensures limit { OnOk result (self.new.budget.limit ≡ limit self.new.table) }
    {
        'events: for _ in 0..count {
            self.answer()?;
        }
        Ok(())
    }

    /// An input is loaded, which only a table that is ready takes.
    fn load(&mut self, input: Input) -> Result<(), Fail>
        requires still { paused self.old.table ≡ Still }
        requires limit { self.old.budget.limit ≡ limit self.old.table }
        ensures still { OnOk result (paused self.new.table ≡ Still) }
        ensures limit { OnOk result (self.new.budget.limit ≡ limit self.new.table) }
    {
        if !self.table.ready {
            return Err("it isn't ready".into());
        }
        self.table.load(input);
        self.idle = false;
        self.settle()
    }

    /// The next packet of the capture is loaded.
    fn load_packet(&mut self, packet: Packet) -> Result<(), Fail>
        requires still { paused self.old.table ≡ Still }
        requires limit { self.old.budget.limit ≡ limit self.old.table }
        ensures still { OnOk result (paused self.new.table ≡ Still) }
        ensures limit { OnOk result (self.new.budget.limit ≡ limit self.new.table) }
    {
        put_count(&mut self.lines, "load ", u64::from(packet.number))?;
        put_text(&mut self.lines, "\n")?;
        self.load(Input::Packet(packet))
    }

    /// The number of the next packet.
    fn next_number(&mut self) -> u32
        ensures { self.new ≡ record self.old { number = self.new.number } }
    {
        self.number = self.number.saturating_add(1);
        self.number
    }

    /// A datagram without payload from a port.
    fn load_from(&mut self, port: u16) -> Result<(), Fail>
        requires still { paused self.old.table ≡ Still }
        requires limit { self.old.budget.limit ≡ limit self.old.table }
        ensures still { OnOk result (paused self.new.table ≡ Still) }
        ensures limit { OnOk result (self.new.budget.limit ≡ limit self.new.table) }
    {
        let number = self.next_number();
        let ends: Ends = (Proto::Udp, port, 53);
        let packet = packet(self.alloc, number, ends, true, 0, 0, "", NOTHING)?;
        self.load_packet(packet)
    }

    /// Datagrams without payload from so many ports.
    fn flood(&mut self, ports: u16) -> Result<(), Fail>
        requires still { paused self.old.table ≡ Still }
        requires limit { self.old.budget.limit ≡ limit self.old.table }
        ensures still { OnOk result (paused self.new.table ≡ Still) }
        ensures limit { OnOk result (self.new.budget.limit ≡ limit self.new.table) }
    {
        'ports: for port in 0..ports {
            self.load_from(port)?;
        }
        Ok(())
    }

    /// Drops the lines behind those that are kept.
    fn drop_lines(&mut self) -> Result<(), Fail>
        ensures { self.new ≡ record self.old { lines = self.new.lines } }
    {
        self.lines.truncate(self.kept);
        put_count(&mut self.lines, "unanswered ", self.table.unanswered())?;
        put_text(&mut self.lines, "\n")?;
        Ok(())
    }

    /// A step of a story.
    fn step(&mut self, step: Step<'_>) -> Result<(), Fail>
        requires still { paused self.old.table ≡ Still }
        requires limit { self.old.budget.limit ≡ limit self.old.table }
        ensures still { OnOk result (paused self.new.table ≡ Still) }
        ensures limit { OnOk result (self.new.budget.limit ≡ limit self.new.table) }
    {
        match step {
            Step::Up(ends, now, seq, flags, bytes) => {
                let number = self.next_number();
                let packet = packet(self.alloc, number, ends, true, now, seq, flags, bytes)?;
                self.load_packet(packet)
            }
            Step::Down(ends, now, seq, flags, bytes) => {
                let number = self.next_number();
                let packet = packet(self.alloc, number, ends, false, now, seq, flags, bytes)?;
                self.load_packet(packet)
            }
            Step::Finish(now) => {
                put_text(&mut self.lines, "finish\n")?;
                self.load(Input::Finish { now })
            }
            Step::Answers(count) => self.answers(count),
            Step::Flood(ports) => self.flood(ports),
            Step::Quiet => {
                self.kept = self.lines.len();
                Ok(())
            }
            Step::Loud => self.drop_lines(),
            Step::Next(how) => {
                self.how = how;
                Ok(())
            }
            Step::GivesUp => {
                put_text(&mut self.lines, "gives up\n")?;
                self.give_up();
                self.settle()
            }
        }
    }

    /// The steps of a story, one after the other. A table that gave up says at which stamp the budget was used up.
    fn play(&mut self, steps: &[Step<'_>]) -> Result<(), Fail>
        requires still { paused self.old.table ≡ Still }
        requires limit { self.old.budget.limit ≡ limit self.old.table }
    {
        'steps: for &step in steps {
            self.step(step)?;
        }
        if let Some(stamp) = self.table.spent() {
            put_count(&mut self.lines, "spent at ", u64::from(stamp))?;
            put_text(&mut self.lines, "\n")?;
        }
        Ok(())
    }
}

/// The turns of a story, its book, and the bytes that are in use behind it.
fn told(alloc: Global, story: &Story<'_>) -> Result<(Vec<u8>, Vec<u8>, u32), Fail> {
    let mut machine = Machine::new(alloc, story)?;
    machine.play(story.steps)?;
    let book = book_text(alloc, &mut machine.table)?;
    let used = machine.budget.used();
    Ok((machine.lines, book, used))
}

/// A story goes as it is written, and nothing is in use behind it.
pub(crate) fn expect_story(rt: &impl Abort, alloc: Global, story: &Story<'_>) -> Result<(), Fail> {
    let (turns, book, used) = told(alloc, story)?;
    let turns = str::from_utf8(turns.as_slice())?;
    let book = str::from_utf8(book.as_slice())?;
    let name = story.name;
    assert_eq!(rt; turns, story.turns, "of {name}");
    if let Some(wanted) = story.book {
        assert_eq!(rt; book, wanted, "of {name}");
    }
    assert_eq!(rt; used, 0, "of {name}");
    Ok(())
}
