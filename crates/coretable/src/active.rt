use crate::EntryKind;
use histbook::LookEntry;
use prio_budget::Free;

/// The entry under way: the place and the number of its conversation, the clock of that one's last packet before its End with
/// this entry, and what was kept in its slot.
#[derive(Drop)]
pub struct Active<T: Drop> {
    pub place: usize,
    pub number: u32,
    pub clock: u64,
    pub kind: EntryKind,
    pub looks: Vec<LookEntry>,
    pub frees: Vec<Free>,
    pub talk: T,
}
