/// Why a record has no packet.
#[derive(Clone, Copy, Debug, PartialEq, Eq)]
pub enum Skip {
    /// Something else than TCP and UDP over the internet protocol.
    Other,
    /// A fragment of a packet, also the first one.
    Fragment,
    /// Too few bytes, or a header that contradicts itself.
    Short,
}
