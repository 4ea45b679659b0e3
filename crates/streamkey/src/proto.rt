/// The protocol of a conversation: TCP (RFC 9293) or UDP (RFC 768). TCP comes first.
#[derive(Clone, Copy, Debug, PartialEq, Eq, PartialOrd, Ord, Hash)]
pub enum Proto {
    Tcp,
    Udp,
}
