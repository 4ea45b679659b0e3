/// What a budget word is made with.
#[derive(Drop)]
pub struct WordTerms {
    /// In bytes.
    pub limit: u32,
    /// The stamp of the first move.
    pub first: u32,
}
