//! Positions of sequence numbers written out by hand.
#![tactic(auto, unfolding(crate::specs::Rows::position_of))]

ghost use Rattle.std.specs.Prelude.{◌≡◌, pos, negsuc};
ghost use Rattle.seqspace.specs.Rows.{position_of};

/// Numbers go on behind the last one: the base is 4294967295, and four bytes were passed.
pub fn numbers_wrap()
    ensures first { position_of 4294967295 4294967295 0 ≡ pos 0 }
    ensures behind { position_of 4294967295 3 4 ≡ pos 4 }
    ensures base { position_of 4294967294 4294967295 0 ≡ pos 1 }
{}

/// A number before the front is before it, and one before the base has a negative position.
pub fn numbers_lie_before()
    ensures passed { position_of 1000 1009 10 ≡ pos 9 }
    ensures negative { position_of 1000 999 0 ≡ negsuc 0 }
    ensures far { position_of 0 2147483648 0 ≡ negsuc 2147483647 }
    ensures near { position_of 0 2147483647 0 ≡ pos 2147483647 }
{}

/// A stream has more bytes than there are numbers: from a front of 2^32 on the same number is 2^32 further.
pub fn positions_go_on()
    ensures again { position_of 7 7 4294967296 ≡ pos 4294967296 }
    ensures one_before { position_of 7 6 4294967296 ≡ pos 4294967295 }
    ensures ahead { position_of 7 8 4294967295 ≡ pos 4294967297 }
{}
