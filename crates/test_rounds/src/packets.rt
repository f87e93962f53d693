//! Packets of some 120 flows, and some others among them.
ghost use Rattle.std.specs.Prelude.{All, IsTrue};
ghost use Rattle.plain_text.specs.Packets.{IsShort};

use plain_text::{Bytes, MOST_CAPTURED, NoMemory, Packet, Packets};
use sample_frames::{ANSWER, HAIRPIN, OTHER_QUERY, QUERY, QUERY_WITH_OPTIONS, SYN};
use std::alloc::Global;

/// A query of one of three hosts from one of forty ports, without a UDP checksum. What is added to the host's address
/// is taken from the checksum of the header.
fn query(place: u64) -> [u8; 42] {
    let mut frame = QUERY;
    let host = (place % 3) as u8;
    frame[25] = 0x91 - host;
    frame[29] = 5 + host;
    frame[35] = (place % 40) as u8;
    frame[40] = 0;
    frame[41] = 0;
    frame
}

/// The bytes of a packet by its place: one in five is none of the queries.
fn bytes_of(alloc: Global, place: u64) -> Result<Bytes, NoMemory> {
    match place % 25 {
        4 => Bytes::of(alloc, &SYN),
        9 => Bytes::of(alloc, &HAIRPIN),
        14 => Bytes::of(alloc, &ANSWER),
        19 => Bytes::of(alloc, &OTHER_QUERY),
        24 => Bytes::of(alloc, &QUERY_WITH_OPTIONS),
        _ => Bytes::of(alloc, &query(place)),
    }
}

/// Appends the packet of a place.
fn push_packet(alloc: Global, packets: &mut Packets, place: u32) -> Result<(), NoMemory> {
    let bytes = bytes_of(alloc, u64::from(place))?;
    packets.push(Packet {
        seconds: 100,
        fraction: place,
        original: bytes.len().min(65_535) as u32,
        bytes,
    })
}

/// This number of packets.
pub fn packets_of(alloc: Global, count: u32) -> Result<Packets, NoMemory> {
    let mut packets = Packets::new(alloc);
    for place in 0..count {
        push_packet(alloc, &mut packets, place)?;
    }
    Ok(packets)
}

/// Whether a system takes these packets.
pub fn are_taken(packets: &[Packet]) -> bool
    ensures { IsTrue result → All IsShort packets.now }
{
    packets
        .iter()
        .all(|packet| packet.bytes.len() <= MOST_CAPTURED as usize)
}
