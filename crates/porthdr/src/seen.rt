use crate::Skip;
use streamkey::{Key, Toward};

/// What a record is. `payload` lies in the record's frame.
#[derive(Clone, Copy, Debug, PartialEq, Eq)]
pub enum Seen<'a> {
    /// A segment of TCP or a datagram of UDP. `seq` and `flags` are the sequence number and the byte of control bits
    /// of a segment (FIN 1, SYN 2, RST 4), and 0 of a datagram. `declared` is the length in bytes that its headers say
    /// of the payload, and `payload` what was captured of that.
    Accepted {
        key: Key,
        toward: Toward,
        seq: u32,
        flags: u8,
        declared: u32,
        payload: &'a [u8],
    },
    Skipped(Skip),
}
