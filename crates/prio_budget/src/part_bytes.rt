ghost use Rattle.std.specs.Prelude.{◌≡◌, ◌<◌, length, slice_set};

use std::marker::Model;

/// The bytes of a part, seen as a list.
#[derive(Drop)]
pub struct PartBytes {
    items: Vec<u8>,
}

impl Model for PartBytes {
    ghost use Rattle.std.specs.Prelude.{List, ℕ};

    ghost Value = { List ℕ };

    ghost view = { λ b. b.items.items };
}

impl PartBytes {
    pub fn of(items: Vec<u8>) -> Self
        ensures { result ≡ items.items }
    {
        PartBytes { items }
    }

    pub fn as_slice(&self) -> &[u8]
        ensures { result.now ≡ self.now }
    {
        &self.items
    }

    pub(crate) fn set(&mut self, at: usize, byte: u8)
        requires { at < length self.old }
        ensures { self.new ≡ slice_set self.old at byte }
    {
        self.items[at] = byte;
    }

    pub fn into_vec(self) -> Vec<u8>
        ensures { result.items ≡ self }
    {
        self.items
    }
}
