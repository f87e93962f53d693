ghost use Rattle.std.specs.Prelude.{◌≡◌};
ghost use Rattle.world_io.specs.Stream.{GoesOn, HasFailed};
ghost use Rattle.world_io.specs.World.{Start};
ghost use Rattle.pcap_io.specs.Captured.{Says, TakesCapture, EndsAt, CapturesBytes};

use crate::{CaptureFault, Next, Reader, Started};
use plain_text::{Limit, Packets, Unit};
use std::alloc::Global;
use world_io::Source;

/// What reading a whole capture came to.
#[derive(Drop)]
pub enum Captured {
    /// The packets, and what their fractions count.
    Capture { unit: Unit, packets: Packets },
    /// The first place where the bytes are no capture.
    Refused(CaptureFault),
    /// Whole records within the limits, and then one that passes this limit.
    TooLarge(Limit),
    /// Reading failed.
    ReadFault,
    NoMemory,
}

/// Reads a capture to its end.
pub fn read_capture<S: Source>(alloc: Global, source: &mut S) -> Captured
    ensures taken { TakesCapture S.reads result source.old source.new }
    ensures bytes { CapturesBytes result }
    ensures goes_on { GoesOn S.faults S.healthy source.old source.new }
    ensures cause { result ≡ Captured.ReadFault
        → HasFailed S.faults S.healthy source.old source.new }
    ensures shows { (p : Start) → S.honest p source.new → Says (S.remains p source.old) result }
    ensures ends { (p : Start) → S.honest p source.new → EndsAt result (S.remains p source.new) }
{
    let mut reader = match Reader::start(source) {
        Started::Reader(reader) => reader,
        Started::Refused(fault) => return Captured::Refused(fault),
        Started::ReadFault => return Captured::ReadFault,
        Started::NoMemory => return Captured::NoMemory,
    };
    let mut packets = Packets::new(alloc);
    'records: loop {
        match reader.next_packet(alloc, source) {
            Next::Packet(packet) => {
                let Ok(()) = packets.push(packet) else {
                    return Captured::NoMemory;
                };
            }
            Next::End => break 'records,
            Next::Refused(fault) => return Captured::Refused(fault),
            Next::TooLarge(limit) => return Captured::TooLarge(limit),
            Next::ReadFault => return Captured::ReadFault,
            Next::NoMemory => return Captured::NoMemory,
            Next::Over => unreachable!(),
        }
    }
    Captured::Capture {
        unit: reader.unit(),
        packets,
    }
}
