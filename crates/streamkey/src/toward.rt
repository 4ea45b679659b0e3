/// The way of a packet in its conversation: `Up` where it goes from the low end to the high one.
#[derive(Clone, Copy, Debug, PartialEq, Eq)]
pub enum Toward {
    Up,
    Down,
}
