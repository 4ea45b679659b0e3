ghost use Rattle.std.specs.Prelude.{◌≡◌};
ghost use Rattle.scapconf.specs.Names.{place_word, place};

/// Which streams a cutoff is for.
#[derive(Clone, Copy)]
pub(crate) enum Place {
    Default,
    Fore,
    Back,
}

const PLACES: [Place; 3] = [Place::Default, Place::Fore, Place::Back];

impl Place {
    pub(crate) fn word(self) -> &'static str
        ensures { result.now ≡ place_word self }
    {
        match self {
            Place::Default => "default",
            Place::Fore => "fore",
            Place::Back => "back",
        }
    }

    /// The place that a word names.
    #[tactic(auto, unfolding(crate::specs::Names::place))]
    pub(crate) fn of(word: &[u8]) -> Option<Place>
        ensures { result ≡ place word.now }
    {
        PLACES.iter().copied().find(|p| p.word().as_bytes() == word)
    }
}
