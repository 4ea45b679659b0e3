ghost use Rattle.std.specs.Prelude.{◌≡◌};
ghost use Rattle.evring.specs.Advice.{no_advice};

/// What a handler wants after an event.
#[derive(Clone, Copy, Debug, PartialEq, Eq)]
pub struct Advice {
    /// The chunk of this event is to be shown again with the next one.
    pub keep: bool,
    /// Nothing more of the conversation is wanted.
    pub discard: bool,
    /// From this position on, nothing more is wanted.
    pub cutoff: Option<u64>,
    /// The priority of what comes.
    pub priority: Option<u8>,
}

impl Advice {
    /// Nothing is wanted.
    pub fn none() -> Advice
        ensures { result ≡ no_advice }
    {
        Advice {
            keep: false,
            discard: false,
            cutoff: None,
            priority: None,
        }
    }
}
