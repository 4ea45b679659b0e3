// Where the fields of the capture of one record stand; a field of several bytes is named at its first one, and
// where it is read from the high end its last one has a name too.

/// The first byte of the magic number.
pub const MAGIC: usize = 0;

/// The low byte of the major version.
pub const MAJOR: usize = 4;

/// The low byte of the link type, and the next one.
pub const LINK: usize = 20;

pub const LINK_HIGH: usize = 21;

/// The low byte of the captured length, and the third one.
pub const CAPTURED: usize = 32;

pub const CAPTURED_THIRD: usize = 34;

/// The two bytes of the EtherType.
pub const ETHER_TYPE_HIGH: usize = 52;

pub const ETHER_TYPE: usize = 53;

/// The version and the header length of IPv4.
pub const VERSION: usize = 54;

/// The low byte of IPv4's total length.
pub const IP_LEN: usize = 57;

/// The byte of the fragment flags, and the low byte of the fragment offset.
pub const FRAGMENT_FLAGS: usize = 60;

pub const FRAGMENT_OFFSET: usize = 61;

/// The protocol.
pub const PROTOCOL: usize = 63;

/// The last byte of the source's address.
pub const SOURCE: usize = 69;

/// The two bytes of UDP's length.
pub const UDP_LEN_HIGH: usize = 78;

pub const UDP_LEN: usize = 79;
