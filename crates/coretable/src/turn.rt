use evring::Event;
use prio_budget::Charge;

/// What a table comes to.
#[derive(Drop)]
pub enum Turn<C: Charge> {
    /// So many bytes are asked for, up to a mark.
    Ask { bytes: u32, mark: u32 },
    /// A charge is given back.
    Free(C),
    /// An event is handed over.
    Emit(Event<C>),
    /// An entry is to begin or the capture's end is worked off, and too many events are unanswered.
    Full,
    /// The input is worked off.
    Ready,
    /// The capture's end is worked off, and all events are answered.
    Over,
}
