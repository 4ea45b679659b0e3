/// Why a file is no capture of pcap 2.4, the first that holds in this order.
#[derive(Clone, Copy, Debug, PartialEq, Eq)]
pub enum HeadFault {
    /// The file has fewer than 24 bytes.
    Short,
    /// The file is of the newer format, pcapng.
    PcapNg,
    /// The first four bytes are none of the four of pcap.
    Magic,
    /// The major version is not 2.
    Major,
    /// The link type is none of those that are read.
    Link,
}
