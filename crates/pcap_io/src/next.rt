use crate::CaptureFault;
use plain_text::{Limit, Packet};

/// What a reader came to.
#[derive(Drop)]
pub enum Next {
    /// The next packet.
    Packet(Packet),
    /// Nothing was left: the capture is whole.
    End,
    /// The record that begins here is faulty.
    Refused(CaptureFault),
    /// The record that begins here follows `MOST_PACKETS` packets, or needs a byte past the first
    /// `MOST_FILE_BYTES` of the file, and that byte is there. The packets' limit goes before the
    /// file's.
    TooLarge(Limit),
    /// Reading failed.
    ReadFault,
    NoMemory,
    /// An earlier call answered something other than a packet.
    Over,
}
