//! The definitions evaluated on segments written out by hand.
ghost use Rattle.std.specs.Prelude.{◌≡◌, true, false, pos, negsuc};
ghost use Rattle.overpolicy.specs.Winner.{wins};
ghost use Rattle.overpolicy.specs.declared.policy.Policy.TheVariants.{First, Last, Bsd, Linux};

/// A segment that starts before the one whose byte is held, or with it, or behind it.
pub fn starts_decide()
    ensures first { wins First (pos 10) (pos 5) ≡ false }
    ensures last { wins Last (pos 10) (pos 15) ≡ true }
    ensures bsd_before { wins Bsd (pos 10) (pos 9) ≡ true }
    ensures bsd_equal { wins Bsd (pos 10) (pos 10) ≡ false }
    ensures linux_equal { wins Linux (pos 10) (pos 10) ≡ true }
    ensures linux_behind { wins Linux (pos 10) (pos 11) ≡ false }
    ensures before_the_stream { wins Bsd (pos 0) (negsuc 0) ≡ true }
{}
