ghost use Rattle.std.specs.Prelude.{◌≡◌};
ghost use Rattle.pcapng_io.specs.Any.{any_next};

use crate::AnyFault;
use pcap_io::Next;
use plain_text::{Limit, Packet};

/// What a reader of either format came to.
#[derive(Drop)]
pub enum AnyNext {
    /// The next packet.
    Packet(Packet),
    /// Nothing was left: the capture is whole.
    End,
    /// The record or the block that begins here is faulty.
    Refused(AnyFault),
    /// A limit is passed here: that of packets, `MOST_PACKETS`, or that of a file, `MOST_FILE_BYTES`. The packets'
    /// limit goes before the file's. In a pcapng capture it is passed where the type of a further packet's block stands
    /// within the first `MOST_FILE_BYTES` bytes.
    TooLarge(Limit),
    /// Reading failed.
    ReadFault,
    NoMemory,
    /// An earlier call answered something other than a packet.
    Over,
}

impl AnyNext {
    /// What a reader of savefiles came to.
    pub(crate) fn of(next: Next) -> Self
        ensures { result ≡ any_next next }
    {
        match next {
            Next::Packet(packet) => AnyNext::Packet(packet),
            Next::End => AnyNext::End,
            Next::Refused(fault) => AnyNext::Refused(AnyFault::Capture(fault)),
            Next::TooLarge(limit) => AnyNext::TooLarge(limit),
            Next::ReadFault => AnyNext::ReadFault,
            Next::NoMemory => AnyNext::NoMemory,
            Next::Over => AnyNext::Over,
        }
    }
}
