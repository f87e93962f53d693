ghost use Rattle.std.specs.Prelude.{◌≡◌, ◌⊎◌, ◌<◌, ◌-◌, ◌^◌, All, Err, IfOk, OnOk, IsErrOf};
ghost use Rattle.plain_text.specs.Packets.{IsShort};
ghost use Rattle.plain_machine.specs.declared.plain_move.PlayFault as move_fault;
ghost use Rattle.output_files.specs.Written.{Writes, WritesFiles};
ghost use Rattle.schedule_check.specs.Checking.{IsEmitted};
ghost use Rattle.schedule_commands.specs.Playing.{HasBegunPlay, HasPlayed, SaysPlay, packet_writes};
ghost use Rattle.schedule_commands.specs.Runs.{CanPlay, outcome_of};
ghost use Rattle.world_io.specs.World.{Start, WritingFailed};

use crate::{ScheduleError, ScheduleRun, put_count, write_capture};
use box_program::Program;
use output_files::OutputError;
use plain_machine::PlayFault;
use plain_player::PlayError;
use plain_text::{NoMemory, Packet, Packets, Text, Unit};
use schedule_check::{emit, feed_all};
use std::alloc::Global;
use world_io::World;

/// The packets that the schedule sends out, in its order, or its first illegal move.
fn play_whole<P: Program>(
    alloc: Global,
    run: ScheduleRun,
    program: &P,
) -> Result<Packets, PlayError>
    requires { CanPlay run }
    ensures emits { IsEmitted (outcome_of (P.meaning program.now) run) result }
    ensures short { IfOk result (All IsShort) }
{
    let inputs = feed_all(alloc, run.threads, run.tags, run.packets)?;
    emit(alloc, program, &inputs, &run.schedule)
}

/// Writes these packets as a capture, and then how many there are.
fn write_packets<W: World>(
    alloc: Global,
    world: &mut W,
    out: &Text,
    unit: Unit,
    packets: &[Packet],
) -> Result<(), OutputError>
    requires short { All IsShort packets.now }
    requires room { (W.ledger world.old).given < 2 ^ 32 - 1 }
    ensures writes_files { WritesFiles W.ledger W.healthy 1 world.old world.new }
    ensures cause { IsErrOf result OutputError.WriteFault
        → WritingFailed W.ledger W.healthy world.old world.new }
    ensures shows { (p : Start) → W.honest p world.new → Writes result
        (packet_writes out.now unit packets.now) (W.shows p world.old) (W.shows p world.new) }
    ensures before { (p : Start) → W.honest p world.new → W.honest p world.old }
{
    let report = put_count(alloc, b"emitted ", packets.len() as u64)?;
    write_capture(alloc, world, out, unit, packets, report.as_slice())
}

/// Plays a schedule on a whole capture, and writes the packets that it sends out, in its order, as a capture in the
/// unit of the inputs; and then how many there are.
///
/// Where the schedule is not legal, its first illegal move is `Refused`, and nothing is created.
pub fn play_schedule<P: Program, W: World>(
    alloc: Global,
    world: &mut W,
    out: &Text,
    run: ScheduleRun,
    program: &P,
) -> Result<(), ScheduleError<PlayFault>>
    requires inputs { CanPlay run }
    requires room { (W.ledger world.old).given < 2 ^ 32 - 1 }
    ensures says { SaysPlay (outcome_of (P.meaning program.now) run) result }
    ensures refused { (fault : move_fault.PlayFault) → result ≡ Err (ScheduleError.Refused fault)
        → world.new ≡ world.old }
    ensures writes_files { WritesFiles W.ledger W.healthy 1 world.old world.new }
    ensures cause { IsErrOf result ScheduleError.WriteFault
        → WritingFailed W.ledger W.healthy world.old world.new }
    ensures played { (p : Start) → W.honest p world.new → OnOk result (HasPlayed (outcome_of
        (P.meaning program.now) run) out.now run.unit (W.shows p world.old) (W.shows p world.new)) }
    ensures in_order { (p : Start) → W.honest p world.new → (world.new ≡ world.old)
        ⊎ HasBegunPlay (outcome_of (P.meaning program.now) run) out.now run.unit
        (W.shows p world.old) (W.shows p world.new) }
    ensures before { (p : Start) → W.honest p world.new → W.honest p world.old }
{
    let unit = run.unit;
    let packets = match play_whole(alloc, run, program) {
        Ok(packets) => packets,
        Err(error) => return Err(ScheduleError::from(error)),
    };
    match write_packets(alloc, world, out, unit, packets.as_slice()) {
        Ok(()) => Ok(()),
        Err(error) => Err(ScheduleError::from(error)),
    }
}
