use crate::{Books, Served};

/// What a run decided: a book for each core, and for each worker the cores of the events that it served.
#[derive(Debug, Drop)]
pub struct Journal {
    pub cores: Books,
    pub workers: Served,
}
