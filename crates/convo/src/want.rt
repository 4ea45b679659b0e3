use evring::Event;
use prio_budget::Charge;

/// What an entry under way wants next.
#[derive(Drop)]
pub enum Want<C: Charge> {
    /// So many bytes, of which no more than the mark may be in use with them.
    Ask { bytes: u32, mark: u32 },
    /// This charge is given back.
    Free(C),
    /// This event is handed over.
    Emit(Event<C>),
    /// Nothing: the entry is complete.
    Rest,
}
