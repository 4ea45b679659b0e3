use crate::{Job, Owed, Slot, Unanswered};
use deadlines::Due;
use histbook::CoreEntry;
use indexmap::IndexMap;
use std::collections::VecDeque;
use streamkey::Key;

/// All that a table keeps but for the entry under way: the conversations in the order in which they opened, the place of each
/// key's last one, the moment at which each falls due under its place, the events without an answer, the book, the number of
/// answers, the End that is due at once, the input, and a place below which all have ended.
#[derive(Drop)]
pub struct Desk<T: Drop> {
    pub slots: Vec<Slot<T>>,
    pub index: IndexMap<Key, usize>,
    pub dues: Due,
    pub unanswered: VecDeque<Unanswered>,
    pub book: Vec<CoreEntry>,
    pub answered: u64,
    pub owed: Option<Owed>,
    pub job: Job,
    pub cursor: usize,
}
