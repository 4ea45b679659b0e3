ghost use Rattle.std.specs.Prelude.{◌≡◌};
ghost use Rattle.datagrams.specs.State.{waits_of, IsBare};

use crate::event::Event;
use std::marker::Model;

/// An event whose handler is still to be told, and the number of its conversation. A chunk in it has no copy.
#[derive(Drop)]
pub struct Untold {
    conv: u32,
    event: Event,
}

impl Model for Untold {
    ghost use Rattle.datagrams.specs.State.{Untold, waits_of, IsBare};

    ghost Value = { Untold };

    ghost view = { λ u. record { conv = u.conv; event = waits_of u.event } };

    ghost invariant = { λ u. IsBare u.event };
}

impl Untold {
    pub fn new(conv: u32, event: Event) -> Untold
        requires { IsBare event }
        ensures { result ≡ record { conv = conv; event = waits_of event } }
    {
        Untold { conv, event }
    }

    /// The number and the event.
    pub fn unpack(self) -> (u32, Event)
        ensures conv { result.0 ≡ self.conv }
        ensures event { waits_of result.1 ≡ self.event }
        ensures bare { IsBare result.1 }
    {
        (self.conv, self.event)
    }
}
