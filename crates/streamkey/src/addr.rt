/// An address of the internet protocol, its bytes as they stand in a header: version 4 (RFC 791) or version 6
/// (RFC 8200). Version 4 comes first, then the bytes decide.
#[derive(Clone, Copy, Debug, PartialEq, Eq, PartialOrd, Ord, Hash)]
pub enum Addr {
    V4([u8; 4]),
    V6([u8; 16]),
}
