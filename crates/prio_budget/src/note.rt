use crate::Named;
use crate::word_view::WordView;
use atomic_table::Seat;
use std::marker::{Model, PhantomData};

/// How far a home has seen, for another home to meet. It takes no bytes.
#[derive(Drop)]
pub struct Note<B: Named> {
    pub(crate) seat: Seat<(), WordView>,
    pub(crate) of: PhantomData<B>,
}

impl<B: Named> Model for Note<B> {
    ghost use Rattle.prio_budget.specs.WordParts.{NoteParts};
    ghost use Rattle.prio_budget.specs.WordSteps.{Sits, IsNote};

    ghost Value = { NoteParts };

    ghost view = { λ n. record { seen = n.seat.me.0.seen; share = n.seat.me.0.share } };

    ghost invariant = { λ n. Sits B.table n.seat.table_id n.seat.me × IsNote n.seat.me.0 };
}
