ghost use Rattle.std.specs.Prelude.{◌≡◌, ◌≤◌};
ghost use Rattle.scapconf.specs.Names.{size_word};
ghost use Rattle.scapconf.specs.Values.{least_size, greatest_size};

/// The settings that are one number of bytes.
#[derive(Clone, Copy)]
pub(crate) enum Size {
    Chunk,
    Overlap,
    Reorder,
}

impl Size {
    pub(crate) fn word(self) -> &'static str
        ensures { result.now ≡ size_word self }
    {
        match self {
            Size::Chunk => "chunk",
            Size::Overlap => "overlap",
            Size::Reorder => "reorder",
        }
    }

    pub(crate) fn least(self) -> u64
        ensures { result ≡ least_size self }
    {
        match self {
            Size::Chunk => 1,
            Size::Overlap | Size::Reorder => 0,
        }
    }

    pub(crate) fn greatest(self) -> u64
        ensures greatest { result ≡ greatest_size self }
        ensures small { result ≤ 16777216 }
    {
        match self {
            Size::Chunk => 1_048_576,
            Size::Overlap => 65_536,
            Size::Reorder => 16_777_216,
        }
    }
}
