ghost use Rattle.std.specs.Prelude.{◌≡◌, ℕ, List, Option, IfOk};
ghost use Rattle.plain_text.specs.declared.packet.Packet.{Packet as PacketKind};
ghost use Rattle.handover_seal.specs.Seals.{AreSeals, seal_after as after_of};

use crate::digest::{first_digests, packets_digest};
use crate::seal::Seal;
use plain_text::{NoMemory, Packet, Sequence, Unit};
use std::alloc::Global;

/// The seal of a box and the first packets of a capture, for each count of them; none of a box that is not sealed.
#[derive(Drop)]
pub struct Seals {
    /// The digest of the box file.
    pub box_file: Option<[u8; 32]>,
    /// The digests of no packet, of the first one, and so on.
    pub packets: Sequence<[u8; 32]>,
}

impl Seals {
    /// The seals of a box, whose file has this digest, on these packets.
    pub fn of(
        alloc: Global,
        box_file: Option<[u8; 32]>,
        unit: Unit,
        packets: &[Packet],
    ) -> Result<Seals, NoMemory>
        ensures { IfOk result (AreSeals box_file unit packets.now) }
    {
        let packets = match box_file {
            Some(_) => first_digests(alloc, unit, packets)?,
            None => Sequence::new(alloc),
        };
        Ok(Seals { box_file, packets })
    }

    /// The seal after this many packets.
    pub fn after(&self, fed: u64) -> Option<Seal>
        ensures { (box_file : Option (List ℕ)) (unit : Unit) (packets : List PacketKind)
            → AreSeals box_file unit packets self.now
            → result ≡ after_of box_file unit packets fed }
    {
        let box_file = self.box_file?;
        let last = self.packets.len().saturating_sub(1);
        let place = (fed as usize).min(last);
        let packets = *self.packets.as_slice().get(place)?;
        Some(Seal { box_file, packets })
    }
}

/// The seal of a box, whose file has this digest, after so many of the packets.
pub fn seal_after(
    box_file: Option<[u8; 32]>,
    unit: Unit,
    packets: &[Packet],
    fed: u64,
) -> Option<Seal>
    ensures { result ≡ after_of box_file unit packets.now fed }
{
    let box_file = box_file?;
    let many = (fed as usize).min(packets.len());
    let packets = packets_digest(unit, &packets[..many]);
    Some(Seal { box_file, packets })
}
