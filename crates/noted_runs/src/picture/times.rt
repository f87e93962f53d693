ghost use Rattle.std.specs.Prelude.{◌≡◌, IfOk};
ghost use Rattle.recovery_world.specs.World.{microseconds as microseconds_of};
ghost use Rattle.noted_runs.specs.Picture.{times_in};

use plain_text::{NoMemory, Packet, Sequence, Unit};
use std::alloc::Global;

/// Times of packets, in microseconds.
pub type Times = Sequence<u64>;

/// The time of a packet, in microseconds.
fn microseconds(unit: Unit, packet: &Packet) -> u64
    ensures { result ≡ microseconds_of unit packet.now }
{
    let whole = u64::from(packet.seconds) * 1_000_000;
    match unit {
        Unit::Micro => whole + u64::from(packet.fraction),
        Unit::Nano => whole + u64::from(packet.fraction) / 1000,
    }
}

/// The times of packets.
pub fn times_of(alloc: Global, unit: Unit, packets: &[Packet]) -> Result<Times, NoMemory>
    ensures { IfOk result (λ times. times ≡ times_in unit packets.now) }
{
    let mut times = Times::new(alloc);
    for packet in packets {
        times.push(microseconds(unit, packet))?;
    }
    Ok(times)
}
