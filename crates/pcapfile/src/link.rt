ghost use Rattle.std.specs.Prelude.{◌≡◌};

/// What the bytes of a record begin with, by the link type of pcap 2.4.
#[derive(Clone, Copy, Debug, PartialEq, Eq)]
pub enum Link {
    /// 1, Ethernet.
    Ethernet,
    /// 101, raw IP.
    Raw,
    /// 113, Linux cooked.
    Cooked,
    /// 276, Linux cooked, version 2.
    Cooked2,
}

impl Link {
    ghost use Rattle.pcapfile.specs.Head.{link_of};

    /// The link of a link type, where it is one that is read.
    pub(crate) fn of(number: u32) -> Option<Link>
        ensures { result ≡ link_of number }
    {
        match number {
            1 => Some(Link::Ethernet),
            101 => Some(Link::Raw),
            113 => Some(Link::Cooked),
            276 => Some(Link::Cooked2),
            _ => None,
        }
    }
}
