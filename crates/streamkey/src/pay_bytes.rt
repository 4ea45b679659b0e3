ghost use Rattle.std.specs.Prelude.{◌≡◌};

use std::marker::Model;

/// The payload of a packet as it was captured, seen as a list.
#[derive(Debug, Drop)]
pub struct PayBytes {
    items: Vec<u8>,
}

impl Model for PayBytes {
    ghost use Rattle.std.specs.Prelude.{ℕ, List};

    ghost Value = { List ℕ };

    ghost view = { λ b. b.items.items };
}

impl PayBytes {
    pub fn of(items: Vec<u8>) -> Self
        ensures { result ≡ items.items }
    {
        PayBytes { items }
    }

    pub fn as_slice(&self) -> &[u8]
        ensures { result.now ≡ self.now }
    {
        &self.items
    }

    pub fn into_vec(self) -> Vec<u8>
        ensures { result.items ≡ self }
    {
        self.items
    }
}
