use crate::Entry;

/// An entry of a core's book, under the number of its conversation.
#[derive(Debug, Drop)]
pub struct CoreEntry {
    pub conv: u32,
    pub entry: Entry,
}
