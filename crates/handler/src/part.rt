// One word of advice, with its number.
ghost use Rattle.std.specs.Prelude.{◌≡◌};
ghost use Rattle.handler.specs.Reader.{part};
ghost use Rattle.handler.specs.Parts.{is_fresh, part_words, with_part};

use crate::value::{position, priority};
use evring::Advice;

/// One thing that a rule advises.
#[derive(Clone, Copy, Debug, PartialEq, Eq)]
pub enum Part {
    Keep,
    Discard,
    Cutoff(u64),
    Priority(u8),
}

impl Part {
    /// What a word and the one behind it advise.
    #[tactic(auto, unfolding(crate::specs::Reader::part))]
    pub(crate) fn of(name: &[u8], value: &[u8]) -> Option<Part>
        ensures { result ≡ part name.now value.now }
    {
        if name == "keep".as_bytes() {
            Some(Part::Keep)
        } else if name == "discard".as_bytes() {
            Some(Part::Discard)
        } else if name == "cutoff".as_bytes() {
            position(value).map(Part::Cutoff)
        } else if name == "priority".as_bytes() {
            priority(value).map(Part::Priority)
        } else {
            None
        }
    }

    /// How many words it has.
    pub(crate) fn words(self) -> usize
        ensures { result ≡ part_words self }
    {
        match self {
            Part::Keep | Part::Discard => 1,
            Part::Cutoff(_) | Part::Priority(_) => 2,
        }
    }

    /// Whether it may stand behind parts that advise so.
    pub(crate) fn is_fresh(self, of_data: bool, advice: &Advice) -> bool
        ensures { result ≡ is_fresh of_data self advice.now }
    {
        match self {
            Part::Keep => of_data && !advice.keep,
            Part::Discard => !advice.discard,
            Part::Cutoff(_) => advice.cutoff.is_none(),
            Part::Priority(_) => advice.priority.is_none(),
        }
    }

    /// The advice with this part.
    pub(crate) fn added(self, advice: Advice) -> Advice
        ensures { result ≡ with_part self advice }
    {
        match self {
            Part::Keep => Advice {
                keep: true,
                ..advice
            },
            Part::Discard => Advice {
                discard: true,
                ..advice
            },
            Part::Cutoff(position) => Advice {
                cutoff: Some(position),
                ..advice
            },
            Part::Priority(priority) => Advice {
                priority: Some(priority),
                ..advice
            },
        }
    }
}
