ghost use Rattle.std.specs.Prelude.{◌≡◌};
ghost use Rattle.world_io.specs.Stream.{GoesOn, HasFailed};
ghost use Rattle.world_io.specs.World.{Start};
ghost use Rattle.world_io.specs.Taking.{TakesSome};
ghost use Rattle.pcapng_io.specs.Captured.{SaysAny, CapturesPackets};

use crate::{AnyFault, AnyNext, AnyStarted, open_capture};
use plain_text::{Limit, Packets, Unit};
use std::alloc::Global;
use world_io::Source;

/// What reading a whole capture of either format came to.
#[derive(Drop)]
pub enum AnyCaptured {
    /// The packets, and what their fractions count.
    Capture { unit: Unit, packets: Packets },
    /// The first place where the bytes are no capture.
    Refused(AnyFault),
    /// Whole records or blocks within the limits, and then one that passes this limit.
    TooLarge(Limit),
    /// Reading failed.
    ReadFault,
    NoMemory,
}

/// Reads a capture of either format to its end.
pub fn read_any_capture<S: Source>(alloc: Global, source: &mut S) -> AnyCaptured
    ensures reads { TakesSome S.reads source.old source.new }
    ensures packets { CapturesPackets result }
    ensures goes_on { GoesOn S.faults S.healthy source.old source.new }
    ensures cause { result ≡ AnyCaptured.ReadFault
        → HasFailed S.faults S.healthy source.old source.new }
    ensures shows { (p : Start) → S.honest p source.new → SaysAny (S.remains p source.old) result }
{
    let mut reader = match open_capture(alloc, source) {
        AnyStarted::Reader(reader) => reader,
        AnyStarted::Refused(fault) => return AnyCaptured::Refused(fault),
        AnyStarted::ReadFault => return AnyCaptured::ReadFault,
        AnyStarted::NoMemory => return AnyCaptured::NoMemory,
    };
    let mut packets = Packets::new(alloc);
    'records: loop {
        match reader.next_packet(source) {
            AnyNext::Packet(packet) => {
                let Ok(()) = packets.push(packet) else {
                    return AnyCaptured::NoMemory;
                };
            }
            AnyNext::End => break 'records,
            AnyNext::Refused(fault) => return AnyCaptured::Refused(fault),
            AnyNext::TooLarge(limit) => return AnyCaptured::TooLarge(limit),
            AnyNext::ReadFault => return AnyCaptured::ReadFault,
            AnyNext::NoMemory => return AnyCaptured::NoMemory,
            AnyNext::Over => unreachable!(),
        }
    }
    AnyCaptured::Capture {
        unit: reader.unit(),
        packets,
    }
}
