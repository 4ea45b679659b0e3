use crate::Charge;
use std::marker::Model;

/// A charge of a budget of one thread. It has a byte at least.
#[derive(Debug, PartialEq, Eq, Drop)]
pub struct PlainCharge {
    pub(crate) amount: u32,
    pub(crate) stamp: u32,
}

impl Model for PlainCharge {
    ghost use Rattle.std.specs.Prelude.{◌≤◌};
    ghost use Rattle.prio_budget.specs.ChargeParts.{ChargeParts};

    ghost Value = { ChargeParts };

    ghost view = { λ c. record { amount = c.amount; stamp = c.stamp } };

    ghost invariant = { λ c. 1 ≤ c.amount };

    ghost inverse = { λ c. record { amount = c.amount; stamp = c.stamp } };
}

impl Charge for PlainCharge {
    ghost use Rattle.prio_budget.specs.Share.{no_share};

    ghost amount = { λ c. c.amount };

    ghost stamp = { λ c. c.stamp };

    ghost share = { λ _. no_share };

    fn amount(&self) -> u32 {
        self.amount
    }

    fn stamp(&self) -> u32 {
        self.stamp
    }
}
