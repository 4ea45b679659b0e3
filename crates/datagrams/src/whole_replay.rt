use crate::Conversations;
use histbook::Journal;

/// What a replay over all packets made: the text of the deliveries, the journal, what is kept of the conversations, and the
/// budget's numbers: how many grants and releases there were, the most bytes in use, and how many looks were refused.
#[derive(Drop)]
pub struct WholeReplay {
    pub text: Vec<u8>,
    pub journal: Journal,
    pub table: Conversations,
    pub stamps: u32,
    pub peak: u32,
    pub refused: u64,
}
