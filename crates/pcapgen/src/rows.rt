//! What the definition draws and makes for two seeds, worked out by hand, by computation.
#![tactic(auto, unfolding(crate::specs::Draws::next, crate::specs::Draws::below, crate::specs::Flows::begin_of, crate::specs::Flows::reached))]

ghost use Rattle.std.specs.Prelude.{◌≡◌, ◌+◌};
ghost use Rattle.pcapgen.specs.Draws.{drawn_at};
ghost use Rattle.pcapgen.specs.Flows.{begin_at};
ghost use Rattle.pcapgen.specs.Frame.{source, target};
ghost use Rattle.pcapgen.specs.declared.limits.TheConstants.{BUFFER_SIZE, LONGEST_MADE, MOST_RECORDS};

/// The first three records of seed 0: TCP leaves 75 bytes out, TCP again, and UDP.
pub fn records_of_seed_0()
    ensures first { drawn_at 0 0 ≡ record { flow = 62; way = 1; len = 75; step = 1 } }
    ensures left_out { begin_at 0 0 ≡ 75 }
    ensures second { drawn_at 0 1 ≡ record { flow = 26; way = 0; len = 169; step = 6 } }
    ensures third { drawn_at 0 2 ≡ record { flow = 1; way = 1; len = 7; step = 4 } }
    ensures client { (target (drawn_at 0 0)).port ≡ 40062 }
    ensures server { (source (drawn_at 0 0)).port ≡ 443 }
{}

/// The first two records of seed 7.
pub fn records_of_seed_7()
    ensures first { drawn_at 7 0 ≡ record { flow = 60; way = 1; len = 107; step = 2 } }
    ensures begin { begin_at 7 0 ≡ 0 }
    ensures second { drawn_at 7 1 ≡ record { flow = 18; way = 1; len = 129; step = 0 } }
    ensures nothing_again { begin_at 7 1 ≡ 0 }
    ensures server { (source (drawn_at 7 0)).port ≡ 80 }
{}

/// A million records are the most; the longest has a header of 16 bytes, headers of 54 and a payload of 200; at most 64 KiB wait.
pub fn the_sizes()
    ensures records { MOST_RECORDS ≡ 1000000 }
    ensures longest { LONGEST_MADE ≡ 16 + 54 + 200 }
    ensures waiting { BUFFER_SIZE ≡ 65536 }
{}
