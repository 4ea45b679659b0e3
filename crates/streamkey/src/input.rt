use crate::Packet;

/// What a core is given: the packets of its conversations in the order of the capture, and then its end, with the clock
/// of the last record.
#[derive(Debug, Drop)]
pub enum Input {
    Packet(Packet),
    Finish { now: u64 },
}
