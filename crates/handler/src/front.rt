ghost use Rattle.std.specs.Prelude.{◌≡◌, IfOk};

use crate::Memory;
use std::marker::Model;

/// The first bytes that a rule asks for, seen as a list.
#[derive(Debug, Drop)]
pub struct Front {
    bytes: Vec<u8>,
}

impl Model for Front {
    ghost use Rattle.std.specs.Prelude.{ℕ, List};

    ghost Value = { List ℕ };

    ghost view = { λ f. f.bytes.items };
}

impl Front {
    pub fn of(bytes: Vec<u8>) -> Self
        ensures { result ≡ bytes.items }
    {
        Front { bytes }
    }

    pub fn as_slice(&self) -> &[u8]
        ensures { result.now ≡ self.now }
    {
        &self.bytes
    }

    pub fn into_vec(self) -> Vec<u8>
        ensures { result.items ≡ self }
    {
        self.bytes
    }

    /// Equal bytes.
    pub fn copy(&self) -> Result<Front, Memory>
        ensures { IfOk result (λ front. front ≡ self.now) }
    {
        Ok(Front {
            bytes: self.bytes.clone()?,
        })
    }
}
