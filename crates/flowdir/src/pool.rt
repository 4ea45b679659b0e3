ghost use Rattle.std.specs.Prelude.{◌≡◌, IfSome};

use prio_budget::Charge;

/// What a grant left, for tests of directions alone.
#[derive(Debug, PartialEq, Eq, Drop)]
pub(crate) struct Granted {
    pub(crate) amount: u32,
    pub(crate) stamp: u32,
}

impl Charge for Granted {
    ghost use Rattle.prio_budget.specs.Share.{no_share};

    ghost amount = { λ c. c.amount };

    ghost stamp = { λ c. c.stamp };

    ghost share = { λ _. no_share };

    fn amount(&self) -> u32 {
        self.amount
    }

    fn stamp(&self) -> u32 {
        self.stamp
    }
}

/// A budget that grants up to a mark, but for the asks whose numbers are named by bits, from bit 0 for the first one on. After
/// 64 asks the bits are used again.
#[derive(Clone, Copy)]
pub(crate) struct Pool {
    mark: u32,
    refused: u64,
    asks: u32,
    used: u32,
    stamp: u32,
    /// Of the sizes asked so far, told apart by their order.
    sum: u64,
}

impl Pool {
    pub(crate) fn new(mark: u32, refused: u64) -> Pool {
        Pool {
            mark,
            refused,
            asks: 0,
            used: 0,
            stamp: 0,
            sum: 0,
        }
    }

    pub(crate) fn ask(&mut self, bytes: u32) -> Option<Granted>
        ensures { IfSome result (λ charge. charge.amount ≡ bytes) }
    {
        let bit = self.asks % 64;
        self.asks = self.asks.wrapping_add(1);
        self.sum = self.sum.wrapping_mul(131).wrapping_add(u64::from(bytes));
        let used = self.used.checked_add(bytes)?;
        if used > self.mark || (self.refused >> bit) & 1 == 1 {
            return None;
        }
        self.used = used;
        let stamp = self.stamp;
        self.stamp = stamp.saturating_add(1);
        Some(Granted {
            amount: bytes,
            stamp,
        })
    }

    pub(crate) fn give(&mut self, charge: Granted) {
        self.used = self.used.saturating_sub(charge.amount);
        self.stamp = self.stamp.saturating_add(1);
    }

    /// Two pools with one sum were asked for the same sizes in the same order, as far as small numbers of asks can tell.
    pub(crate) fn sum(&self) -> u64 {
        self.sum
    }
}
