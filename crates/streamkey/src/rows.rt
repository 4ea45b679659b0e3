//! What the definition of the hash gives for inputs that were written out by hand, by computation.
ghost use Rattle.std.specs.Prelude.{◌≡◌, ◌∷◌, []};
ghost use Rattle.streamkey.specs.Hash.{core_number, hash_input, toeplitz_of, window};
ghost use Rattle.streamkey.specs.Rows.{client, pair, server};

/// The key bits from the first on are the key twice, and a place further they are turned by one bit.
pub fn the_key_is_repeated()
    ensures first { window 0 ≡ 0x6d5a6d5a }
    ensures second { window 1 ≡ 0xdab4dab4 }
    ensures again { window 16 ≡ window 0 }
{}

/// Nothing hashes to 0, the first bit alone to the key bits from the first on, the sixteenth to those from the sixteenth.
pub fn one_bit_takes_its_key_bits()
    ensures nothing { toeplitz_of [] ≡ 0 }
    ensures first { toeplitz_of (128 ∷ []) ≡ window 0 }
    ensures sixteenth { toeplitz_of (0 ∷ 1 ∷ []) ≡ window 15 }
{}

/// 10.0.0.1:40000 and 10.0.0.2:80, both ways.
pub fn two_ends_have_one_hash()
    ensures one { toeplitz_of (hash_input client server) ≡ 0x07f307f3 }
    ensures other { toeplitz_of (hash_input server client) ≡ 0x07f307f3 }
    ensures four { core_number pair 4 ≡ 3 }
    ensures two { core_number pair 2 ≡ 1 }
{}
