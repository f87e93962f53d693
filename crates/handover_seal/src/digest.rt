ghost use Rattle.std.specs.Prelude.{◌≡◌, ◌++◌, ℕ, List, IfOk};
ghost use Rattle.sha2.specs.Hashers.{Holds256};
ghost use Rattle.sha2.specs.Sha256.{sha256};
ghost use Rattle.handover_seal.specs.Packets.{AreFirstDigests, packet_text};
ghost use Rattle.handover_seal.specs.Packets.{packets_digest as digest_of};
ghost use Rattle.handover_seal.specs.Packets.{packets_text, unit_text};

use plain_text::{NoMemory, Packet, Sequence, Unit};
use sha2::{Digest, Sha256};
use std::alloc::Global;

/// A hasher that has taken what the times of packets count.
fn begin(unit: Unit) -> Sha256
    ensures { Holds256 result (unit_text unit) }
{
    let mut hasher = Sha256::new();
    let letter: &[u8] = match unit {
        Unit::Micro => b"u",
        Unit::Nano => b"n",
    };
    hasher.update(letter);
    hasher
}

/// Takes a packet.
fn take_packet(hasher: &mut Sha256, packet: &Packet)
    ensures { (text : List ℕ) → Holds256 hasher.old text
        → Holds256 hasher.new (text ++ packet_text packet.now) }
{
    hasher.update(packet.seconds.to_be_bytes());
    hasher.update(packet.fraction.to_be_bytes());
    hasher.update(packet.original.to_be_bytes());
    hasher.update((packet.bytes.len() as u64).to_be_bytes());
    hasher.update(packet.bytes.as_slice());
}

/// The digest of packets.
pub fn packets_digest(unit: Unit, packets: &[Packet]) -> [u8; 32]
    ensures { result ≡ digest_of unit packets.now }
{
    let mut hasher = begin(unit);
    for packet in packets {
        take_packet(&mut hasher, packet);
    }
    hasher.finalize()
}

/// The digest of what a hasher has taken so far.
fn digest_so_far(hasher: &Sha256) -> Result<[u8; 32], NoMemory>
    ensures { (text : List ℕ) → Holds256 hasher.now text
        → IfOk result (λ digest. digest ≡ sha256 text) }
{
    Ok(hasher.clone()?.finalize())
}

/// The digests of no packet, of the first one, and so on, up to that of all.
pub fn first_digests(
    alloc: Global,
    unit: Unit,
    packets: &[Packet],
) -> Result<Sequence<[u8; 32]>, NoMemory>
    ensures { IfOk result (AreFirstDigests unit packets.now) }
{
    let mut hasher = begin(unit);
    let mut digests = Sequence::new(alloc);
    digests.push(digest_so_far(&hasher)?)?;
    for packet in packets {
        take_packet(&mut hasher, packet);
        digests.push(digest_so_far(&hasher)?)?;
    }
    Ok(digests)
}
