ghost use Rattle.std.specs.Prelude.{◌≡◌, ◌≤◌};
ghost use Rattle.scapconf.specs.Names.{time_word};
ghost use Rattle.scapconf.specs.Values.{least_time, greatest_time};

/// The settings that are one time.
#[derive(Clone, Copy)]
pub(crate) enum Time {
    Flush,
    Hole,
    Idle,
}

impl Time {
    pub(crate) fn word(self) -> &'static str
        ensures { result.now ≡ time_word self }
    {
        match self {
            Time::Flush => "flush",
            Time::Hole => "hole",
            Time::Idle => "idle",
        }
    }

    /// In milliseconds.
    pub(crate) fn least(self) -> u64
        ensures { result ≡ least_time self }
    {
        match self {
            Time::Flush => 0,
            Time::Hole | Time::Idle => 1,
        }
    }

    /// In milliseconds.
    pub(crate) fn greatest(self) -> u64
        ensures greatest { result ≡ greatest_time self }
        ensures small { result ≤ 86400000 }
    {
        match self {
            Time::Flush | Time::Hole => 3_600_000,
            Time::Idle => 86_400_000,
        }
    }
}
