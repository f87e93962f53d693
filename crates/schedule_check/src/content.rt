ghost use Rattle.std.specs.Prelude.{◌≡◌};
ghost use Rattle.schedule_check.specs.Counting.{IsContentOf};
ghost use Rattle.recovery_world.specs.Matching.{nanoseconds};

use plain_text::{Packet, Unit};
use std::hash::{Hash, Hasher};

/// What two packets share that are the same: the time, the length on the wire and the bytes.
#[derive(Clone, Copy, Debug, PartialEq, Eq)]
pub struct Content<'a> {
    /// Whole seconds since 1970.
    pub seconds: u32,
    /// The rest of the time, in nanoseconds in either unit of a capture.
    pub nanoseconds: u64,
    /// The length on the wire, in bytes.
    pub original: u32,
    /// The bytes that the capture has of it.
    pub bytes: &'a [u8],
}

// All bytes go into the hasher by one write: a derived hash would make one of each byte.
impl<'a> Hash for Content<'a> {
    ghost use Rattle.schedule_check.specs.Hashing.{content_writes, alike_writes};

    ghost hash_input = { content_writes };

    ghost respects_eq = { alike_writes };

    fn hash<H: Hasher>(&self, state: &mut H) {
        state.write_u32(self.seconds);
        state.write_u64(self.nanoseconds);
        state.write(self.bytes);
    }
}

/// The content of a packet whose fraction is in this unit.
pub fn content_of(unit: Unit, packet: &Packet) -> Content<'_>
    ensures { IsContentOf unit packet.now result }
{
    Content {
        seconds: packet.seconds,
        nanoseconds: nanoseconds_of(unit, packet),
        original: packet.original,
        bytes: packet.bytes.as_slice(),
    }
}

/// The fraction of the packet's second, in nanoseconds.
fn nanoseconds_of(unit: Unit, packet: &Packet) -> u64
    ensures { result ≡ nanoseconds unit packet.now }
{
    match unit {
        Unit::Micro => u64::from(packet.fraction) * 1000,
        Unit::Nano => u64::from(packet.fraction),
    }
}
