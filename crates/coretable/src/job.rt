use streamkey::Packet;

/// What was loaded and has not begun to be worked off.
#[derive(Debug, Drop)]
pub enum Job {
    Nothing,
    Takes(Packet),
    /// The capture's end, at this clock.
    Closes(u64),
}
