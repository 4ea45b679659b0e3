//! The definitions evaluated on texts and packets written out by hand.
ghost use Rattle.std.specs.Prelude.{◌≡◌, [], ◌∷◌, Some, None, codes, true, false};
ghost use Rattle.streamkey.specs.declared.addr.Addr.TheVariants.{V4};
ghost use Rattle.streamkey.specs.declared.toward.Toward.TheVariants.{Up};
ghost use Rattle.capfilter.specs.declared.filter_error.FilterKind.TheVariants as kinds;
ghost use Rattle.capfilter.specs.Addresses.{address};
ghost use Rattle.capfilter.specs.Canonical.{canonical};
ghost use Rattle.capfilter.specs.Faults.{IsFault, Reads};
ghost use Rattle.capfilter.specs.Rows.{dns_text, dns, tcp_to, fault, documentation};
ghost use Rattle.capfilter.specs.Tokens.{tokens};
ghost use Rattle.capfilter.specs.Truth.{agree, truth};

use crate::{MOST_LEVELS, MOST_TOKENS};

/// The most tokens and the most levels.
pub fn limits_are_the_stated_ones()
    ensures tokens { MOST_TOKENS ≡ 512 }
    ensures levels { MOST_LEVELS ≡ 64 }
{}

/// Brackets are tokens wherever they stand.
pub fn tokens_stand_apart()
    ensures { tokens 0 (codes "a (\tbc)d")
        ≡ record { at = 0; bytes = codes "a" } ∷ record { at = 2; bytes = codes "(" } ∷ record { at = 4; bytes = codes "bc" }
        ∷ record { at = 6; bytes = codes ")" } ∷ record { at = 7; bytes = codes "d" } ∷ [] }
{}

/// Addresses of both versions, and texts that are none.
pub fn addresses_are_read()
    ensures leading { address (codes "010.0.0.1") ≡ Some (V4 (10 ∷ 0 ∷ 0 ∷ 1 ∷ [])) }
    ensures high { address (codes "10.0.0.256") ≡ None }
    ensures gap { address (codes "2001:dB8::1") ≡ Some documentation }
    ensures whole { address (codes "2001:db8:0:0:0:0:0:1") ≡ Some documentation }
    ensures no_zeros { address (codes "1:2:3:4::5:6:7:8") ≡ None }
    ensures two_gaps { address (codes "1::2::3") ≡ None }
    ensures dotted { address (codes "::1.2.3.4") ≡ None }
{}

/// `and` and `or` bind alike, from the left.
pub fn joins_bind_alike()
    ensures read { Reads dns_text dns }
    ensures shown { canonical dns ≡ codes "((tcp or udp) and port 53)" }
    ensures port_80 { truth dns (tcp_to 80) Up ≡ false }
    ensures port_53 { truth dns (tcp_to 53) Up ≡ true }
{}

/// Faults of each kind.
pub fn faults_are_told()
    ensures end { IsFault (codes "port") (fault 4 kinds.End) }
    ensures value { IsFault (codes "port x") (fault 5 kinds.Value) }
    ensures unexpected { IsFault (codes "tcp udp") (fault 4 kinds.Unexpected) }
    ensures number { IsFault (codes "tcp 80") (fault 4 kinds.Unexpected) }
    ensures token { IsFault (codes "tcp 65536") (fault 4 kinds.Token) }
    ensures empty { IsFault [] (fault 0 kinds.End) }
{}

/// The first bits of 10.0.0.0 and 10.0.1.0, and of 128 and 192.
pub fn first_bits()
    ensures same { agree 23 (10 ∷ 0 ∷ 0 ∷ 0 ∷ []) (10 ∷ 0 ∷ 1 ∷ 0 ∷ []) ≡ true }
    ensures apart { agree 24 (10 ∷ 0 ∷ 0 ∷ 0 ∷ []) (10 ∷ 0 ∷ 1 ∷ 0 ∷ []) ≡ false }
    ensures none { agree 0 (0 ∷ []) (255 ∷ []) ≡ true }
    ensures one { agree 1 (128 ∷ []) (192 ∷ []) ≡ true }
    ensures two { agree 2 (128 ∷ []) (192 ∷ []) ≡ false }
{}
