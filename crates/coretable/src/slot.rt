use streamkey::Key;

/// A conversation of a table: its number, its key, the clock of its last packet before its End, and what is kept of it, which
/// is elsewhere while an entry of it is under way.
#[derive(Drop)]
pub struct Slot<T: Drop> {
    pub number: u32,
    pub key: Key,
    pub clock: u64,
    pub talk: Option<T>,
}
