ghost use Rattle.std.specs.Prelude.{◌≡◌, ◌≤◌, ℕ, All, IfOk, length};
ghost use Rattle.plain_text.specs.Packets.{IsShort};
ghost use Rattle.plain_text.specs.declared.packet.Packet as packet_of;
ghost use Rattle.plain_text.specs.declared.packet.Unit as unit_of;
ghost use Rattle.recovery_world.specs.World.{Setting, World, opening};
ghost use Rattle.system_parts.specs.SystemStanding.{StandsFor};

use box_program::Program;
use drawn_words::words_behind;
use event_replies::Releases;
use input_logger::InputLog;
use link_store::SentFrames;
use master_core::Master;
use output_logger::OutputLogger;
use plain_machine::Schedule;
use plain_text::{NoMemory, Packets, Unit};
use replay_guide::Guide;
use snapshot_store::Store;
use std::alloc::Global;
use std::collections::VecDeque;
use system_parts::Core;

/// More packets than this are taken for more than memory has.
const MOST_PACKETS: usize = 1 << 50;

/// The parts of a system on these packets, before the first event; `tags` says whether one tag is looked through.
pub fn open_parts<P: Program>(
    alloc: Global,
    program: P,
    threads: u32,
    tags: bool,
    seed: u64,
    unit: Unit,
    packets: Packets,
) -> Result<Core<P>, NoMemory>
    requires some_threads { 1 ≤ threads }
    requires few_threads { threads ≤ 16 }
    requires short { All IsShort packets }
    ensures stands { IfOk result (λ y. StandsFor (P.meaning program) (record {
      meaning = P.meaning program;
      threads = threads;
      tags = tags;
      fractions = unit;
      packets = packets;
      seed = seed;
    }) (opening P.Value) y) }
    ensures program { IfOk result (λ y. y.program ≡ program) }
{
    if packets.len() >= MOST_PACKETS {
        return Err(NoMemory);
    }
    let (Ok(inputs), Ok(sent), Ok(logger), Ok(master), Ok(store)) = (
        InputLog::new(alloc, threads, tags),
        SentFrames::new(alloc, threads),
        OutputLogger::new(alloc, threads),
        Master::fresh(alloc, &program, threads),
        Store::new(alloc, &program, threads),
    ) else {
        return Err(NoMemory);
    };
    let left = VecDeque::from_vec(packets.into_vec());
    Ok(Core {
        alloc,
        program,
        unit,
        clock: 0,
        generator: words_behind(seed, 0),
        left,
        inputs,
        up: true,
        master,
        schedule: Schedule::new(alloc),
        guide: Guide::none(alloc),
        store,
        ended: Vec::new(alloc),
        moves: 0,
        bytes: 0,
        sent,
        logger,
        released: Releases::new(alloc),
    })
}
