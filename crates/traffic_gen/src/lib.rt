//! Packets made from a number, for tests and measurements: the same number makes the same packets everywhere.
#![tactic(auto)]

ghost use Rattle.plain_text.specs.declared.limit.TheConstants.{MOST_PACKETS};
ghost use Rattle.std.specs.Prelude.{◌≡◌, ◌≤◌, ◌<◌, IfOk, All, length};
ghost use Rattle.traffic_gen.specs.Checksums.{HasRightChecksums};
ghost use Rattle.traffic_gen.specs.Generated.{packet_of, generated};

mod fields;
mod frame;

use fields::choose_fields;
use frame::{FRAME_LENGTH, build_frame};
use plain_text::{NoMemory, Packet, Packets};
use random_words::next_word;
use std::alloc::Global;

/// The time of the first packet, in seconds since 1970.
const START: u64 = 1_600_000_000;

/// The first `n` packets of a seed, a millisecond apart, with their fractions of a second in microseconds.
///
/// Each is an Ethernet frame of 60 bytes with IPv4 (RFC 791) that carries TCP (RFC 9293) or UDP (RFC 768), with the
/// checksums filled in. 200 addresses send, each from 64 ports, to port 80 or 53 of 200 addresses.
pub fn make(alloc: Global, seed: u64, n: u64) -> Result<Packets, NoMemory>
    requires { n ≤ MOST_PACKETS }
    ensures packets { IfOk result (λ packets. packets ≡ generated seed n) }
    ensures count { IfOk result (λ packets. length packets ≡ n) }
    ensures sixty_bytes { IfOk result (All (λ packet. length packet.bytes ≡ 60)) }
    ensures right_checksums { IfOk result (All (λ packet. HasRightChecksums packet.bytes)) }
{
    let mut words = random_words::generator(seed);
    let mut packets = Packets::new(alloc);
    for index in 0..n {
        let first = next_word(&mut words);
        let second = next_word(&mut words);
        packets.push(build_packet(alloc, index, first, second)?)?;
    }
    Ok(packets)
}

/// The packet of this index, by its two words.
fn build_packet(alloc: Global, index: u64, first: u32, second: u32) -> Result<Packet, NoMemory>
    requires { index < MOST_PACKETS }
    ensures { IfOk result (λ packet. packet ≡ packet_of index first second) }
{
    Ok(Packet {
        seconds: (START + index / 1000) as u32,
        fraction: (index % 1000 * 1000) as u32,
        original: FRAME_LENGTH as u32,
        bytes: build_frame(alloc, &choose_fields(index, first, second))?,
    })
}
