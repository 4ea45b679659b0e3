ghost use Rattle.std.specs.Prelude.{◌≡◌, ◌+◌, ◌≤◌, max, length};
ghost use Rattle.prio_budget.specs.WordAnswers.{IsLost};
ghost use Rattle.prio_budget.specs.WordSteps.{IsOneWord, look_in};

use crate::answered::SPENT_STAMP;
use crate::word_rule::{Asks, Both, BudgetRule, Checks, Frees, Homes, Lends, Looks, Notes};
use crate::word_terms::WordTerms;
use crate::word_view::WordView;
use crate::{Answered, Closed, Free, Home, Look, Named, Note, WordCharge};
use atomic_table::Table;
use std::alloc::Global;
use std::marker::PhantomData;

pub(crate) type WordTable = Table<(), WordView, WordTerms, BudgetRule, Global>;

/// The word is stamp * 2^32 + used.
pub const ONE_STAMP: u64 = 4_294_967_296;

/// The memory budget that threads share: one word, which each call changes by one atomic step at most.
/// No call takes memory, and none waits.
#[derive(Drop)]
pub struct WordBudget<B: Named> {
    pub(crate) table: WordTable,
    pub(crate) of: PhantomData<B>,
    ghost one_word: { IsOneWord table.shared.table_id },
    ghost named: { (table.shared.table_id ≡ B.table) × (table.shared.key.limit ≡ B.limit) × (table.shared.key.first ≡ B.first) },
}

impl<B: Named> WordBudget<B> {
    ghost use Rattle.prio_budget.specs.Answers.{IsDecided};
    ghost use Rattle.prio_budget.specs.History.{IsOneHistory};
    ghost use Rattle.prio_budget.specs.Share.{IsWhole, half, share_sum};
    ghost use Rattle.prio_budget.specs.WordAnswers.{IsAnswered, IsReleased};
    ghost use Rattle.prio_budget.specs.WordParts.{IsAllIn, gathered, home_left, home_right, noted};

    /// Another home, for another actor.
    pub fn home(&self, from: &mut Home<B>) -> Home<B>
        ensures kept { from.new ≡ home_left from.old }
        ensures given { result ≡ home_right from.old }
    {
        Home {
            seat: self.table.shared.split_seat::<Homes>(&mut from.seat),
            of: PhantomData,
        }
    }

    /// A note of what the home has seen.
    pub fn note(&self, home: &mut Home<B>) -> Note<B>
        ensures kept { home.new ≡ noted home.old }
        ensures given { result ≡ record { seen = home.old.seen; share = half home.old.share } }
    {
        Note {
            seat: self.table.shared.split_seat::<Notes>(&mut home.seat),
            of: PhantomData,
        }
    }

    /// The home sees what the note had seen. What the home does from then on comes later.
    pub fn meet(&self, home: &mut Home<B>, note: Note<B>)
        ensures seen { home.new.seen ≡ max home.old.seen note.seen }
        ensures share { home.new.share ≡ share_sum home.old.share note.share }
        ensures lists { (home.new.moves ≡ home.old.moves) × (home.new.looks ≡ home.old.looks) }
        ensures counts { (home.new.part ≡ home.old.part) × (home.new.given ≡ home.old.given) × (home.new.met ≡ home.old.met + 1) }
        ensures whole { IsWhole home.new.share → IsOneHistory B.limit B.first home.new.moves home.new.looks }
        ensures all_in { IsAllIn home.new → IsWhole home.new.share }
    {
        let Note { seat, of: _ } = note;
        self.table.shared.join_seat::<Both>(&mut home.seat, seat);
        self.table.shared.load::<Checks<B>>(&mut home.seat, 0);
    }

    /// Another home comes in, with all that it knows.
    pub fn gather(&self, home: &mut Home<B>, other: Home<B>)
        ensures gathered { home.new ≡ gathered home.old other }
        ensures whole { IsWhole home.new.share → IsOneHistory B.limit B.first home.new.moves home.new.looks }
        ensures all_in { IsAllIn home.new → IsWhole home.new.share }
    {
        let Home { seat, of: _ } = other;
        self.table.shared.join_seat::<Both>(&mut home.seat, seat);
        self.table.shared.load::<Checks<B>>(&mut home.seat, 0);
    }

    /// Asks for bytes, up to a mark. `Moved` comes only where another actor changed the word in between.
    pub fn try_reserve(&self, home: &mut Home<B>, asked: u32, mark: u32) -> Answered<WordCharge<B>>
        requires asked { 1 ≤ asked }
        requires mark { mark ≤ B.limit }
        ensures decided { IsDecided asked mark result }
        ensures answer { IsAnswered asked mark home.old home.new result }
    {
        let word = self.table.shared.load::<Looks>(&mut home.seat, 0);
        let first = look_of(word);
        if first.stamp >= SPENT_STAMP {
            return Answered::Spent { look: first };
        }
        if u64::from(first.found) + u64::from(asked) > u64::from(mark) {
            return Answered::Past { look: first };
        }
        let next = word + ONE_STAMP + u64::from(asked);
        let found = self
            .table
            .shared
            .compare_exchange::<Asks>(&mut home.seat, 0, word, next);
        if found == word {
            let seat = self.table.shared.split_seat::<Lends>(&mut home.seat);
            return Answered::Granted {
                charge: WordCharge {
                    seat,
                    amount: asked,
                    stamp: first.stamp,
                    of: PhantomData,
                },
                look: first,
            };
        }
        lost(first, look_of(found), asked, mark)
    }

    /// Gives a charge's bytes back, whoever was granted them.
    pub fn release(&self, home: &mut Home<B>, charge: WordCharge<B>) -> Free
        ensures { IsReleased charge home.old home.new result }
    {
        let WordCharge {
            seat,
            amount,
            stamp: _,
            of: _,
        } = charge;
        self.table.shared.join_seat::<Both>(&mut home.seat, seat);
        let word = self
            .table
            .shared
            .fetch_add::<Frees>(&mut home.seat, 0, ONE_STAMP - u64::from(amount));
        Free {
            stamp: (word / ONE_STAMP) as u32,
            bytes: amount,
        }
    }

    /// Ends the budget, once all other homes, notes and charges have come in.
    pub fn close(self, home: Home<B>) -> Closed
        requires { IsWhole home.share }
        ensures stamp { result.stamp ≡ B.first + length home.moves }
        ensures used { result.used ≡ 0 }
        ensures whole { IsOneHistory B.limit B.first home.moves home.looks }
    {
        let WordBudget { table, of: _ } = self;
        let Home { seat, of: _ } = home;
        let closed = table.close_with(seat);
        let look = look_of(closed.word(0));
        closed.free();
        Closed {
            stamp: look.stamp,
            used: look.found,
        }
    }
}

fn look_of(word: u64) -> Look
    ensures { result ≡ look_in word }
{
    Look {
        stamp: (word / ONE_STAMP) as u32,
        found: (word % ONE_STAMP) as u32,
    }
}

// The answer where the exchange was lost.
fn lost<C: Drop>(first: Look, look: Look, asked: u32, mark: u32) -> Answered<C>
    ensures { IsLost asked mark first look result }
{
    if look.stamp >= SPENT_STAMP {
        Answered::Spent { look }
    } else if u64::from(look.found) + u64::from(asked) > u64::from(mark) {
        Answered::Past { look }
    } else {
        Answered::Moved { first, look }
    }
}
