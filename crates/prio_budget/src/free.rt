/// A release: the stamp that it found, and the bytes that it gave back.
#[derive(Clone, Copy, Debug, PartialEq, Eq)]
pub struct Free {
    pub stamp: u32,
    pub bytes: u32,
}
