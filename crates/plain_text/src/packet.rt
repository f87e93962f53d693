use crate::{Bytes, Sequence};

/// A captured packet: when it came, how long it was on the wire, and the bytes that were captured of it.
///
/// The captured bytes may be fewer than the packet had. No call of FTMB makes or takes a packet of more than
/// 262,144 bytes.
#[derive(Debug, Drop)]
pub struct Packet {
    /// Whole seconds since 1970.
    pub seconds: u32,
    /// The rest of the time, in microseconds or nanoseconds, as the capture has it; any value may stand here.
    pub fraction: u32,
    /// The bytes that the packet had on the wire.
    pub original: u32,
    pub bytes: Bytes,
}

/// The room that a packet which is to go out has in front of its bytes: the header of its frame is put there. It is as
/// long as such a header can be, with a component of 8 bytes for each of 16 threads.
pub const HEADER_ROOM: usize = 175;

/// Packets in order.
pub type Packets = Sequence<Packet>;

/// What the fraction of a packet's time counts.
#[derive(Clone, Copy, Debug, PartialEq, Eq)]
pub enum Unit {
    Micro,
    Nano,
}
