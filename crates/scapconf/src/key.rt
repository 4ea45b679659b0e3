ghost use Rattle.std.specs.Prelude.{◌≡◌, ◌<◌};
ghost use Rattle.scapconf.specs.Parser.{index};

use crate::place::Place;
use crate::size::Size;
use crate::time::Time;

/// What a text says once at most.
#[derive(Clone, Copy)]
pub(crate) enum Key {
    Mode,
    Policy,
    Size(Size),
    Time(Time),
    Filter,
    Cutoff(Place),
    Budget,
}

impl Key {
    /// How many there are.
    pub(crate) const COUNT: usize = 13;

    pub(crate) fn index(self) -> usize
        ensures index { result ≡ index self }
        ensures within { result < 13 }
    {
        match self {
            Key::Mode => 0,
            Key::Policy => 1,
            Key::Size(Size::Chunk) => 2,
            Key::Size(Size::Overlap) => 3,
            Key::Size(Size::Reorder) => 4,
            Key::Time(Time::Flush) => 5,
            Key::Time(Time::Hole) => 6,
            Key::Time(Time::Idle) => 7,
            Key::Filter => 8,
            Key::Cutoff(Place::Default) => 9,
            Key::Cutoff(Place::Fore) => 10,
            Key::Cutoff(Place::Back) => 11,
            Key::Budget => 12,
        }
    }
}
