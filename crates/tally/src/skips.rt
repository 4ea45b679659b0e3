/// How many records were not accepted, by the reason.
#[derive(Clone, Copy, Debug, PartialEq, Eq)]
pub struct Skips {
    pub other: u64,
    pub fragment: u64,
    pub short: u64,
    pub filtered: u64,
}
