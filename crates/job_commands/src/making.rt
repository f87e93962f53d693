ghost use Rattle.std.specs.Prelude.{◌≡◌, ◌<◌, ◌≤◌, ◌-◌, ◌^◌, All, IfOk, IsErrOf};
ghost use Rattle.plain_text.specs.Packets.{IsShort};
ghost use Rattle.plain_text.specs.declared.limit.TheConstants.{MOST_PACKETS};
ghost use Rattle.traffic_gen.specs.Generated.{generated};
ghost use Rattle.output_files.specs.Written.{Writes, WritesFiles};
ghost use Rattle.job_commands.specs.Answers.{AnswersAs};
ghost use Rattle.job_commands.specs.Making.{made_writes, make_meaning};
ghost use Rattle.job_commands.specs.Words.{made_of};
ghost use Rattle.world_io.specs.World.{Start, WritingFailed};

use crate::status::outcome;
use crate::{MakeWords, Status};
use output_files::OutputError;
use plain_text::{NoMemory, Packets, Unit};
use schedule_commands::{put_count, write_capture};
use std::alloc::Global;
use traffic_gen::make;
use world_io::World;

/// As many packets of a seed.
fn make_packets(alloc: Global, seed: u64, count: u64) -> Result<Packets, NoMemory>
    requires { count ≤ MOST_PACKETS }
    ensures packets { IfOk result (λ packets. packets ≡ generated seed count) }
    ensures short { IfOk result (All IsShort) }
{
    make(alloc, seed, count)
}

/// Writes the capture of the generated packets, and reports how many there are.
fn write_made<W: World>(
    alloc: Global,
    world: &mut W,
    words: MakeWords<'_>,
) -> Result<(), OutputError>
    requires room { (W.ledger world.old).given < 2 ^ 32 - 1 }
    requires few { words.count ≤ MOST_PACKETS }
    ensures writes_files { WritesFiles W.ledger W.healthy 1 world.old world.new }
    ensures cause { IsErrOf result OutputError.WriteFault
        → WritingFailed W.ledger W.healthy world.old world.new }
    ensures shows { (p : Start) → W.honest p world.new → Writes result (made_writes
        (made_of words.entry)) (W.shows p world.old) (W.shows p world.new) }
    ensures before { (p : Start) → W.honest p world.new → W.honest p world.old }
{
    let packets = make_packets(alloc, words.seed, words.count)?;
    let report = put_count(alloc, b"made ", words.count)?;
    write_capture(
        alloc,
        world,
        words.capture,
        Unit::Micro,
        packets.as_slice(),
        report.as_slice(),
    )
}

/// The command `make`: makes packets, writes their capture, and reports how many there are.
pub fn make_capture<W: World>(alloc: Global, world: &mut W, words: MakeWords<'_>) -> Status
    requires room { (W.ledger world.old).given < 2 ^ 32 - 1 }
    requires few { words.count ≤ MOST_PACKETS }
    ensures { AnswersAs W.honest W.shows W.ledger W.healthy
        (make_meaning (made_of words.entry)) result world.old world.new }
{
    outcome(write_made(alloc, world, words))
}
