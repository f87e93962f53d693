ghost use Rattle.std.specs.Prelude.{◌≡◌, ◌++◌, ◌∷◌, [], IfOk, OnOk, OnErr};

use packet_taps::PacketTap;
use plain_text::{Bytes, NoMemory, Packet, Packets};
use release_taps::Shown;
use std::alloc::Global;

/// A tap that keeps copies of the packets, and fails at each one past so many.
#[derive(Drop)]
pub struct Recorder {
    pub alloc: Global,
    pub packets: Packets,
    pub most: usize,
    pub faults: u64,
    pub lacks: u64,
}

impl Recorder {
    /// A tap that was shown nothing.
    pub fn new(alloc: Global, most: usize) -> Self {
        Recorder {
            alloc,
            packets: Packets::new(alloc),
            most,
            faults: 0,
            lacks: 0,
        }
    }

    fn keep(&mut self, packet: &Packet) -> Result<(), NoMemory>
        ensures ok { OnOk result (self.new.packets ≡ self.old.packets ++ packet.now ∷ []) }
        ensures err { OnErr result (self.new.packets ≡ self.old.packets) }
        ensures faults { self.new.faults ≡ self.old.faults }
        ensures lacks { self.new.lacks ≡ self.old.lacks }
    {
        self.packets.push(copy(self.alloc, packet)?)
    }
}

fn copy(alloc: Global, packet: &Packet) -> Result<Packet, NoMemory>
    ensures { IfOk result (λ copy. copy ≡ packet.now) }
{
    Ok(Packet {
        seconds: packet.seconds,
        fraction: packet.fraction,
        original: packet.original,
        bytes: Bytes::of(alloc, packet.bytes.as_slice())?,
    })
}

impl PacketTap for Recorder {
    ghost use Rattle.std.specs.Prelude.{◌≡◌, ◌++◌, ◌∷◌, []};
    ghost use Rattle.plain_text.specs.declared.packet.Packet.{Packet};

    ghost saw = { λ r packets. r.packets ≡ packets };

    ghost missed = { λ r packets. (last : Packet) × (packets ≡ r.packets ++ last ∷ []) };

    ghost fault_count = { λ r. r.faults };

    ghost lack_count = { λ r. r.lacks };

    fn show(&mut self, packet: &Packet) -> Shown {
        if self.packets.len() >= self.most {
            self.faults = self.faults.saturating_add(1);
            return Shown::Failed;
        }
        match self.keep(packet) {
            Ok(()) => Shown::Took,
            Err(NoMemory) => {
                self.lacks = self.lacks.saturating_add(1);
                Shown::NoMemory
            }
        }
    }

    fn faults(&self) -> u64 {
        self.faults
    }

    fn lacks(&self) -> u64 {
        self.lacks
    }
}
