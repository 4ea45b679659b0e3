use crate::release::Release;
use evring::Event;
use prio_budget::Charge;

/// What a worker has in hand.
#[derive(Drop)]
pub(crate) enum Work<C: Charge> {
    Nothing,
    /// An event of which the handler isn't told yet.
    Loaded {
        core: u16,
        event: Event<C>,
    },
    /// An event whose charges go out.
    Releases {
        release: Release<C>,
    },
    /// As before, and a charge of so many bytes, granted at that stamp, is out to be released.
    Waits {
        bytes: u32,
        stamp: u32,
        release: Release<C>,
    },
}
