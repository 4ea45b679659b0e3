use crate::Conversations;
use histbook::CoreEntry;

/// What a replay made: the text of the events that were told, the core's book, what is kept of the conversations, how many
/// events were answered, the most bytes that were in use, and how many looks were refused.
#[derive(Drop)]
pub struct Made {
    pub text: Vec<u8>,
    pub book: Vec<CoreEntry>,
    pub table: Conversations,
    pub answered: u64,
    pub peak: u32,
    pub refused: u64,
}
