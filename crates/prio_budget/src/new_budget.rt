ghost use Rattle.std.specs.Prelude.{◌≡◌, ◌≤◌, IfOk};

use crate::answered::SPENT_STAMP;
use crate::word_budget::{ONE_STAMP, WordTable};
use crate::word_terms::WordTerms;
use crate::word_view::WordView;
use crate::{Home, Marks, Memory, Named, WordBudget};
use atomic_table::{Seat, Table};
use std::alloc::Global;
use std::marker::{Model, PhantomData};

/// A budget word with its first home, before it has a name.
#[derive(Drop)]
pub struct NewBudget {
    table: WordTable,
    seat: Seat<(), WordView>,
}

impl Model for NewBudget {
    ghost use Rattle.std.specs.Prelude.{◌≡◌, []};
    ghost use Rattle.prio_budget.specs.WordParts.{BudgetName};
    ghost use Rattle.prio_budget.specs.WordSteps.{IsOneWord, newcomer};

    ghost Value = { BudgetName };

    ghost view = { λ b. record { table = b.table.shared.table_id; limit = b.table.shared.key.limit; first = b.table.shared.key.first } };

    ghost invariant = { λ b. IsOneWord b.table.shared.table_id × (b.seat.table_id ≡ b.table.shared.table_id) × (b.seat.me ≡ (newcomer b.table.shared.key.first, [])) };
}

impl NewBudget {
    ghost use Rattle.prio_budget.specs.WordParts.{first_home};

    /// A budget that has nothing in use.
    pub fn new(alloc: Global, marks: &Marks, first_stamp: u32) -> Result<NewBudget, Memory>
        requires { first_stamp ≤ SPENT_STAMP }
        ensures limit { IfOk result (λ b. b.limit ≡ marks.now.limit) }
        ensures first { IfOk result (λ b. b.first ≡ first_stamp) }
    {
        let terms = WordTerms {
            limit: marks.limit(),
            first: first_stamp,
        };
        let word = u64::from(first_stamp) * ONE_STAMP;
        match Table::of_words(alloc, &[word], &terms) {
            Ok((table, seat)) => Ok(NewBudget { table, seat }),
            Err(_) => Err(Memory),
        }
    }

    /// The budget and its first home under a name. The home has the whole share.
    pub fn named<B: Named>(self) -> (WordBudget<B>, Home<B>)
        requires { (self.table ≡ B.table) × (self.limit ≡ B.limit) × (self.first ≡ B.first) }
        ensures { result.1 ≡ first_home B.first }
    {
        let NewBudget { table, seat } = self;
        let budget = WordBudget {
            table,
            of: PhantomData,
        };
        let home = Home {
            seat,
            of: PhantomData,
        };
        (budget, home)
    }
}
