ghost use Rattle.std.specs.Prelude.{◌≡◌};

use crate::{End, Proto, Toward};
use std::marker::Model;

/// A conversation: its protocol and its two ends, of which `low` is not behind `high`.
#[derive(Clone, Copy, Debug, PartialEq, Eq, PartialOrd, Ord, Hash)]
pub struct Key {
    pub proto: Proto,
    pub low: End,
    pub high: End,
}

impl Model for Key {
    ghost use Rattle.std.specs.Prelude.{◌≡◌, false};
    ghost use Rattle.streamkey.specs.Order.{end_before};
    ghost use Rattle.streamkey.specs.KeyParts.{KeyParts};

    ghost Value = { KeyParts };

    ghost view = { λ k. record { proto = k.proto; low = k.low; high = k.high } };

    ghost invariant = { λ k. end_before k.high k.low ≡ false };

    ghost inverse = { λ k. record { proto = k.proto; low = k.low; high = k.high } };
}

impl Key {
    ghost use Rattle.streamkey.specs.Key.{key_of, source_of, target_of, IsOrdered};
    ghost use Rattle.streamkey.specs.Packet.{IsWay};

    /// The key of a packet from `source` to `target`, and its way.
    pub fn of(proto: Proto, source: End, target: End) -> (Key, Toward)
        ensures key { result ≡ key_of proto source target }
        ensures source { source_of result.0 result.1 ≡ source }
        ensures target { target_of result.0 result.1 ≡ target }
        ensures ordered { IsOrdered result.0 }
        ensures way { IsWay result.0 result.1 }
    {
        if target < source {
            let key = Key {
                proto,
                low: target,
                high: source,
            };
            (key, Toward::Down)
        } else {
            let key = Key {
                proto,
                low: source,
                high: target,
            };
            (key, Toward::Up)
        }
    }

    /// Where packets of this way come from.
    pub fn source(&self, toward: Toward) -> End
        ensures source { result ≡ source_of self.now toward }
        ensures ordered { IsOrdered self.now }
    {
        match toward {
            Toward::Up => self.low,
            Toward::Down => self.high,
        }
    }

    /// Where packets of this way go.
    pub fn target(&self, toward: Toward) -> End
        ensures target { result ≡ target_of self.now toward }
        ensures ordered { IsOrdered self.now }
    {
        match toward {
            Toward::Up => self.high,
            Toward::Down => self.low,
        }
    }
}
