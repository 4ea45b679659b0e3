ghost use Rattle.std.specs.Prelude.{◌≡◌, [], ◌∷◌, List};
ghost use Rattle.cutclass.specs.InForce.{first_set};
ghost use Rattle.cutclass.specs.declared.cut.Cut.{Cut as Cutoff};

/// A cutoff: none set, so that a more general one counts; none at all; or the position at which a stream is cut.
#[derive(Clone, Copy, Debug, PartialEq, Eq)]
pub enum Cut {
    Unset,
    Endless,
    At(u64),
}

impl Cut {
    /// This cutoff where it is set, else a more general one.
    pub fn or(self, general: Cut) -> Cut
        ensures { (cuts : List Cutoff) → first_set (result ∷ cuts) ≡ first_set (self ∷ general ∷ cuts) }
    {
        match self {
            Cut::Unset => general,
            set => set,
        }
    }

    /// Where a stream is cut, None where it never is.
    pub fn position(self) -> Option<u64>
        ensures { result ≡ first_set (self ∷ []) }
    {
        match self {
            Cut::Unset | Cut::Endless => None,
            Cut::At(position) => Some(position),
        }
    }
}

/// The position at which a stream is cut: the first cutoff that is set, from the stream's own to the most general one.
pub fn in_force(stream: Cut, class: Cut, direction: Cut, default: Cut) -> Option<u64>
    ensures { result ≡ first_set (stream ∷ class ∷ direction ∷ default ∷ []) }
{
    stream.or(class).or(direction).or(default).position()
}
