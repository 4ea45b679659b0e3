/// What a table waits for before it goes on.
#[derive(Clone, Copy, Debug, PartialEq, Eq)]
pub enum Pause {
    Still,
    /// The answer to its ask.
    Asked { bytes: u32, mark: u32 },
    /// The release of a charge of that stamp.
    Freeing { bytes: u32, stamp: u32 },
}
