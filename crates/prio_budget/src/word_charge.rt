use crate::word_view::WordView;
use crate::{Charge, Named};
use atomic_table::Seat;
use std::marker::{Model, PhantomData};

/// A charge of a budget word. It has a byte at least.
#[derive(Drop)]
pub struct WordCharge<B: Named> {
    pub(crate) seat: Seat<(), WordView>,
    pub(crate) amount: u32,
    pub(crate) stamp: u32,
    pub(crate) of: PhantomData<B>,
}

impl<B: Named> Model for WordCharge<B> {
    ghost use Rattle.std.specs.Prelude.{◌<◌};
    ghost use Rattle.prio_budget.specs.WordParts.{WordChargeParts};
    ghost use Rattle.prio_budget.specs.WordSteps.{Sits, IsChargeOf};

    ghost Value = { WordChargeParts };

    ghost view = { λ c. record { amount = c.amount; stamp = c.stamp; share = c.seat.me.0.share; seen = c.seat.me.0.seen } };

    ghost invariant = { λ c. Sits B.table c.seat.table_id c.seat.me × IsChargeOf c.amount c.stamp c.seat.me.0 };
}

impl<B: Named> Charge for WordCharge<B> {
    ghost amount = { λ c. c.amount };

    ghost stamp = { λ c. c.stamp };

    ghost share = { λ c. c.share };

    fn amount(&self) -> u32 {
        self.amount
    }

    fn stamp(&self) -> u32 {
        self.stamp
    }
}
