use thiserror::Error;

/// Why bytes are no capture.
#[derive(Clone, Copy, Debug, PartialEq, Eq, Error)]
pub enum CaptureCause {
    /// The first four bytes are the magic of neither unit in either byte order.
    #[error("bad magic")]
    BadMagic = 1,
    /// The version is not 2.4.
    #[error("bad version")]
    BadVersion = 2,
    /// The link type, all 32 bits of it, is not 1.
    #[error("bad link type")]
    BadLinkType = 3,
    /// The file has fewer than the 24 bytes of its header.
    #[error("short header")]
    ShortHeader = 4,
    /// A record has begun, and the file ends before its last byte.
    #[error("short record")]
    ShortRecord = 5,
    /// A record has a captured length of more than `MOST_CAPTURED` bytes, 262,144.
    #[error("too long")]
    TooLong = 6,
}

/// The first place where bytes are no capture: the file's length where its header is short, 0, 4 or
/// 20 where a part of the header is bad, and else where the faulty record's header begins.
#[derive(Clone, Copy, Debug, PartialEq, Eq, Error)]
#[error("offset {offset}: {cause}")]
pub struct CaptureFault {
    /// The place in bytes from the beginning of the file, from 0.
    pub offset: u64,
    /// Why the bytes there are none of a capture.
    pub cause: CaptureCause,
}
