use cutclass::Cut;
use streamkey::{Key, Toward};

/// What a conversation's first packet settled: its number, its key and way, and the priority and the cutoff of its
/// class.
#[derive(Clone, Copy, Debug, PartialEq, Eq)]
pub struct Origin {
    pub number: u32,
    pub key: Key,
    pub toward: Toward,
    pub priority: u8,
    pub cut: Cut,
}
