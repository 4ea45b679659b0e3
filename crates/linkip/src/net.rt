use streamkey::Addr;

/// What a frame carries. `body` lies in the frame.
#[derive(Clone, Copy, Debug, PartialEq, Eq)]
pub enum Net<'a> {
    /// A packet of TCP (`proto` 6) or UDP (17). `declared` is the length in bytes that its headers say of the body, and
    /// `body` what was captured of that.
    Ip {
        proto: u8,
        source: Addr,
        target: Addr,
        declared: u32,
        body: &'a [u8],
    },
    /// A fragment of a packet, also the first one.
    Fragment,
    /// Something else than TCP and UDP over the internet protocol.
    Other,
    /// Too few bytes, or a header that contradicts itself.
    Short,
}
