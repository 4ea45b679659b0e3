ghost use Rattle.std.specs.Prelude.{◌≡◌, ℕ, List};

use std::marker::Model;

/// What a file in memory holds.
#[derive(Drop)]
pub(crate) struct Bytes {
    items: Vec<u8>,
}

impl Model for Bytes {
    ghost Value = { List ℕ };

    ghost view = { λ b. b.items.items };
}

impl Bytes {
    pub fn of(items: Vec<u8>) -> Self
        ensures { result ≡ items.items }
    {
        Bytes { items }
    }

    pub fn as_slice(&self) -> &[u8]
        ensures { result.now ≡ self.now }
    {
        self.items.as_slice()
    }
}
