/// Why a conversation ended.
#[derive(Clone, Copy, Debug, PartialEq, Eq)]
pub enum Reason {
    /// A TCP packet with RST came (RFC 9293).
    Reset,
    /// Both directions had a FIN and were passed to it.
    Closed,
    /// The idle time went by without a packet.
    Idle,
    /// A SYN with another sequence number opened a new one.
    Replaced,
    /// The capture ended.
    Finish,
}
