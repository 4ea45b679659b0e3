use crate::Named;
use crate::word_view::WordView;
use atomic_table::Seat;
use std::marker::{Model, PhantomData};

/// What an actor knows of a budget word: a stamp that it has seen, its share, its moves and its looks. It takes no bytes.
#[derive(Drop)]
pub struct Home<B: Named> {
    pub(crate) seat: Seat<(), WordView>,
    pub(crate) of: PhantomData<B>,
}

impl<B: Named> Model for Home<B> {
    ghost use Rattle.prio_budget.specs.WordParts.{HomeParts};
    ghost use Rattle.prio_budget.specs.WordSteps.{Sits, IsHome, home_in};

    ghost Value = { HomeParts };

    ghost view = { λ h. home_in h.seat.me.0 };

    ghost invariant = { λ h. Sits B.table h.seat.table_id h.seat.me × IsHome h.seat.me.0 };
}
