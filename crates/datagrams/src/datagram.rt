use streamkey::{Key, Toward};

/// An accepted datagram: the number of its record from 1 on, its clock in nanoseconds, the key and the way of its conversation,
/// the payload's length by the headers, and the payload as it was captured.
#[derive(Clone, Copy)]
pub struct Datagram<'a> {
    pub number: u32,
    pub clock: u64,
    pub key: Key,
    pub toward: Toward,
    pub declared: u32,
    pub payload: &'a [u8],
}
