ghost use Rattle.std.specs.Prelude.{◌≡◌, ℕ, ◌+◌, ◌-◌, ◌<◌, ◌≤◌, List, [], ◌∷◌, ◌++◌};

use crate::answered::SPENT_STAMP;
use crate::{Answered, Free, Look, Marks, PlainCharge};
use std::marker::Model;

/// The memory budget of one thread: the bytes in use, and a stamp that each grant and each release raises by one.
#[derive(Debug, Drop)]
pub struct PlainBudget {
    limit: u32,
    stamp: u32,
    used: u32,
}

impl Model for PlainBudget {
    ghost use Rattle.prio_budget.specs.BudgetParts.{BudgetParts, IsWithin};

    ghost Value = { BudgetParts };

    ghost view = { λ b. record { limit = b.limit; stamp = b.stamp; used = b.used } };

    ghost invariant = { λ b. IsWithin b.limit b.stamp b.used };
}

impl PlainBudget {
    ghost use Rattle.prio_budget.specs.Answers.{IsDecided, IsPlainAnswer, granted_of};
    ghost use Rattle.prio_budget.specs.ChargeParts.{ChargeParts};
    ghost use Rattle.prio_budget.specs.Out.{HasOut, bytes_of};

    /// A budget that has nothing in use.
    pub fn new(marks: &Marks, first_stamp: u32) -> PlainBudget
        requires { first_stamp ≤ SPENT_STAMP }
        ensures budget { result ≡ record { limit = marks.now.limit; stamp = first_stamp; used = 0 } }
        ensures out { HasOut result [] }
    {
        PlainBudget {
            limit: marks.limit(),
            stamp: first_stamp,
            used: 0,
        }
    }

    /// Asks for bytes, up to a mark.
    pub fn reserve(&mut self, asked: u32, mark: u32) -> Answered<PlainCharge>
        requires asked { 1 ≤ asked }
        requires mark { mark ≤ self.old.limit }
        ensures decided { IsDecided asked mark result }
        ensures answer { IsPlainAnswer asked self.old self.new result }
        ensures within { self.new.used ≤ self.new.limit }
        ensures out { (out : List ChargeParts) → HasOut self.old out → HasOut self.new (granted_of result ++ out) }
    {
        let look = Look {
            stamp: self.stamp,
            found: self.used,
        };
        if look.stamp >= SPENT_STAMP {
            return Answered::Spent { look };
        }
        if u64::from(look.found) + u64::from(asked) > u64::from(mark) {
            return Answered::Past { look };
        }
        self.stamp = look.stamp + 1;
        self.used = look.found + asked;
        let charge = PlainCharge {
            amount: asked,
            stamp: look.stamp,
        };
        Answered::Granted { charge, look }
    }

    /// Gives a charge's bytes back.
    pub fn release(&mut self, charge: PlainCharge) -> Free
        requires { charge.amount ≤ self.old.used }
        ensures free { result ≡ record { stamp = self.old.stamp; bytes = charge.amount } }
        ensures after { self.new ≡ record { limit = self.old.limit; stamp = self.old.stamp + 1; used = self.old.used - charge.amount } }
        ensures within { self.new.used ≤ self.new.limit }
        ensures out { (left right : List ChargeParts) → HasOut self.old (left ++ charge ∷ right) → HasOut self.new (left ++ right) }
    {
        let free = Free {
            stamp: self.stamp,
            bytes: charge.amount,
        };
        self.stamp += 1;
        self.used -= free.bytes;
        free
    }

    /// The bytes in use.
    pub fn used(&self) -> u32
        ensures used { result ≡ self.now.used }
        ensures within { result ≤ self.now.limit }
        ensures out { (out : List ChargeParts) → HasOut self.now out → result ≡ bytes_of out }
    {
        self.used
    }

    /// The stamp that the next grant or release takes.
    pub fn stamp(&self) -> u32
        ensures { result ≡ self.now.stamp }
    {
        self.stamp
    }
}
