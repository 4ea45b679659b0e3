ghost use Rattle.std.specs.Prelude.{◌≡◌};
ghost use Rattle.scapconf.specs.Names.{spelling, name};
ghost use Rattle.scapconf.specs.Faults.{count_fits};

use crate::size::Size;
use crate::time::Time;

/// The first words of lines.
#[derive(Clone, Copy)]
pub(crate) enum Name {
    Mode,
    Policy,
    Size(Size),
    Time(Time),
    Filter,
    Cutoff,
    Class,
    Budget,
    Rule,
}

const NAMES: [Name; 13] = [
    Name::Mode,
    Name::Policy,
    Name::Size(Size::Chunk),
    Name::Size(Size::Overlap),
    Name::Size(Size::Reorder),
    Name::Time(Time::Flush),
    Name::Time(Time::Hole),
    Name::Time(Time::Idle),
    Name::Filter,
    Name::Cutoff,
    Name::Class,
    Name::Budget,
    Name::Rule,
];

impl Name {
    fn word(self) -> &'static str
        ensures { result.now ≡ spelling self }
    {
        match self {
            Name::Mode => "mode",
            Name::Policy => "policy",
            Name::Size(size) => size.word(),
            Name::Time(time) => time.word(),
            Name::Filter => "filter",
            Name::Cutoff => "cutoff",
            Name::Class => "class",
            Name::Budget => "budget",
            Name::Rule => "rule",
        }
    }

    /// The name that a word is.
    #[tactic(auto, unfolding(crate::specs::Names::name))]
    pub(crate) fn of(word: &[u8]) -> Option<Name>
        ensures { result ≡ name word.now }
    {
        NAMES.iter().copied().find(|n| n.word().as_bytes() == word)
    }

    /// Whether a line of this name may have so many words.
    pub(crate) fn fits(self, words: usize) -> bool
        ensures { result ≡ count_fits self words }
    {
        match self {
            Name::Mode | Name::Policy | Name::Size(_) | Name::Time(_) => words == 2,
            Name::Cutoff => words == 3,
            Name::Budget => words == 4,
            Name::Filter | Name::Rule => words >= 2,
            Name::Class => words >= 4,
        }
    }
}
