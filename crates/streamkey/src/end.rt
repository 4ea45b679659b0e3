use crate::Addr;

/// One end of a conversation. The address comes first, then the port.
#[derive(Clone, Copy, Debug, PartialEq, Eq, PartialOrd, Ord, Hash)]
pub struct End {
    pub addr: Addr,
    pub port: u16,
}
