ghost use Rattle.std.specs.Prelude.{◌≡◌, IfOk};

use plain_text::{Bytes, NoMemory, Packet, Packets};
use std::alloc::Global;

/// A copy of a packet.
fn copy_packet(alloc: Global, packet: &Packet) -> Result<Packet, NoMemory>
    ensures { IfOk result (λ copy. copy ≡ packet.now) }
{
    Ok(Packet {
        seconds: packet.seconds,
        fraction: packet.fraction,
        original: packet.original,
        bytes: Bytes::of(alloc, packet.bytes.as_slice())?,
    })
}

/// A copy of packets, in their order.
pub fn copy_packets(alloc: Global, packets: &[Packet]) -> Result<Packets, NoMemory>
    ensures { IfOk result (λ copy. copy ≡ packets.now) }
{
    let mut copy = Packets::new(alloc);
    for packet in packets {
        copy.push(copy_packet(alloc, packet)?)?;
    }
    Ok(copy)
}
