use pcap_io::CaptureFault;
use thiserror::Error;

/// Why bytes are no pcapng capture. Of the causes of a block the first one is told, except that the byte-order magic of
/// a section header is read wherever 12 bytes are left.
#[derive(Clone, Copy, Debug, PartialEq, Eq, Error)]
pub enum NgCause {
    /// Fewer bytes are left than 12, or than the block's total length.
    #[error("short block")]
    ShortBlock = 1,
    /// The total length is not a multiple of 4, or less than a block of this type has, or more than `MOST_BLOCK`, or
    /// another at the block's end.
    #[error("bad length")]
    BadLength = 2,
    /// The byte-order magic of a section header is another than 0x1A2B3C4D in both byte orders.
    #[error("bad magic")]
    BadMagic = 3,
    /// The major version is not 1.
    #[error("bad version")]
    BadVersion = 4,
    /// The link type is not 1.
    #[error("bad link type")]
    BadLinkType = 5,
    /// An option of an interface passes the block, or has a length or a resolution that it cannot have.
    #[error("bad option")]
    BadOption = 6,
    /// The packet's interface was not described in its section.
    #[error("no interface")]
    NoInterface = 7,
    /// The captured length is more than `MOST_CAPTURED` bytes, 262,144, or than the body has.
    #[error("bad packet")]
    BadPacket = 8,
    /// The seconds of the packet's time are not 0 to 2^32 - 1.
    #[error("bad time")]
    BadTime = 9,
}

/// The first block where bytes are no pcapng capture: the offset of its first byte, and why.
#[derive(Clone, Copy, Debug, PartialEq, Eq, Error)]
#[error("offset {offset}: {cause}")]
pub struct NgFault {
    /// The place in bytes from the beginning of the file, from 0.
    pub offset: u64,
    /// Why the bytes there are no block of a capture.
    pub cause: NgCause,
}

/// The first place where bytes are no capture of the format that their first four bytes tell.
#[derive(Clone, Copy, Debug, PartialEq, Eq, Error)]
pub enum AnyFault {
    /// The file begins as a libpcap savefile, or as neither.
    #[error("{0}")]
    Capture(CaptureFault),
    /// The file begins as a pcapng capture.
    #[error("{0}")]
    Ng(NgFault),
}
