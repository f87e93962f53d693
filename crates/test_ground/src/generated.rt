use plain_text::{NoMemory, Packet};
use traffic_gen::make;

/// The 20,000th packet of seed 7. Another program worked it out, from the published algorithm of the generator and the
/// tables of the headers.
const LAST_OF_20000: [u8; 60] = [
    0x02, 0x00, 0x00, 0x00, 0x00, 0x02, 0x02, 0x00, 0x00, 0x00, 0x00, 0x01, 0x08, 0x00, 0x45, 0x00,
    0x00, 0x2e, 0x4e, 0x1f, 0x00, 0x00, 0x40, 0x06, 0xf7, 0xfc, 0x0a, 0x00, 0x00, 0x5f, 0xc6, 0x33,
    0x64, 0x1c, 0x04, 0x3e, 0x00, 0x50, 0x00, 0x00, 0x00, 0x00, 0x00, 0x00, 0x00, 0x00, 0x50, 0x10,
    0x04, 0x00, 0x72, 0x92, 0x00, 0x00, 0x00, 0x00, 0x00, 0x00, 0x00, 0x00,
];

/// Whether a packet is the 20,000th.
fn is_last(packet: &Packet) -> bool {
    (packet.seconds, packet.fraction, packet.original) == (1_600_000_019, 999_000, 60)
        && packet.bytes.as_slice() == LAST_OF_20000.as_slice()
}

/// Whether these are 20,000 packets, of which the last is that one.
fn are_made(packets: &[Packet]) -> bool {
    packets.len() == 20_000 && is_last(&packets[19_999])
}

#[test]
fn makes_20000_packets_of_a_seed(rt: HostRuntime) -> Result<(), NoMemory> {
    let packets = make(rt.alloc(), 7, 20_000)?;
    assert!(rt; are_made(packets.as_slice()));
    Ok(())
}
