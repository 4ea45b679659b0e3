ghost use Rattle.std.specs.Prelude.{◌≡◌, ◌<◌, length, slice_set};

use crate::{Charge, PartBytes};
use std::marker::Model;

/// Bytes with the charge that pays for them, one byte of the charge for each.
#[derive(Drop)]
pub struct Part<C: Charge> {
    bytes: PartBytes,
    charge: C,
}

impl<C: Charge> Model for Part<C> {
    ghost use Rattle.std.specs.Prelude.{◌≡◌, List, ℕ, length};

    ghost Value = { List ℕ × C };

    ghost view = { λ p. (p.bytes, p.charge) };

    ghost invariant = { λ p. C.amount p.charge ≡ length p.bytes };
}

impl<C: Charge> Part<C> {
    /// The bytes with their charge.
    pub fn new(bytes: PartBytes, charge: C) -> Part<C>
        requires { C.amount charge ≡ length bytes }
        ensures { result ≡ (bytes, charge) }
    {
        Part { bytes, charge }
    }

    pub fn bytes(&self) -> &[u8]
        ensures bytes { result.now ≡ self.now.0 }
        ensures paid { length result.now ≡ C.amount self.now.1 }
    {
        self.bytes.as_slice()
    }

    /// Puts another byte at a place.
    pub fn set(&mut self, at: usize, byte: u8)
        requires { at < length self.old.0 }
        ensures { self.new ≡ (slice_set self.old.0 at byte, self.old.1) }
    {
        self.bytes.set(at, byte);
    }

    /// The bytes and the charge, to be used apart.
    pub fn unpack(self) -> (PartBytes, C)
        ensures bytes { result.0 ≡ self.0 }
        ensures charge { result.1 ≡ self.1 }
        ensures paid { C.amount self.1 ≡ length self.0 }
    {
        let Part { bytes, charge } = self;
        (bytes, charge)
    }
}
