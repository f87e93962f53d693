ghost use Rattle.std.specs.Prelude.{◌≡◌, ◌<◌, ◌-◌, ◌^◌, All, OnOk, IsErrOf};
ghost use Rattle.plain_text.specs.Packets.{IsShort};
ghost use Rattle.world_io.specs.World.{Start, WritingFailed};
ghost use Rattle.output_files.specs.Written.{Writes, WritesFiles};
ghost use Rattle.run_writes.specs.Replies.{packets_in};
ghost use Rattle.run_writes.specs.Run.{FitsRecord, names_of};
ghost use Rattle.noted_runs.specs.Drill.{drill_writes, stopped_writes};
ghost use Rattle.noted_runs.specs.Drilled.{WritesDrilled};

use crate::drill::{Drilled, Texts};
use access_log::Output;
use output_files::OutputError;
use plain_text::{Bytes, Unit};
use run_writes::{
    RunError, RunFiles, open_outputs, stopped, write_closing, write_reply, write_stopped, written,
};
use std::alloc::Global;
use world_io::World;

/// Writes a drill that came to its end: all that was released, then the schedule, and then the report.
fn write_whole<W: World>(
    alloc: Global,
    world: &mut W,
    files: RunFiles<'_>,
    unit: Unit,
    outputs: &[Output],
    texts: &Texts,
) -> Result<(), OutputError>
    requires short { All IsShort (packets_in outputs.now) }
    requires room { (W.ledger world.old).given < 2 ^ 32 - 2 }
    requires apart { files.released.now ≡ files.schedule.now → ⊥ }
    ensures fit_records { OnOk result (All FitsRecord (packets_in outputs.now)) }
    ensures writes_files { WritesFiles W.ledger W.healthy 2 world.old world.new }
    ensures cause { IsErrOf result OutputError.WriteFault
        → WritingFailed W.ledger W.healthy world.old world.new }
    ensures shows { (p : Start) → W.honest p world.new → Writes result
        (drill_writes (names_of files.entry) unit (packets_in outputs.now)
        texts.now.schedule texts.now.report) (W.shows p world.old) (W.shows p world.new) }
    ensures before { (p : Start) → W.honest p world.new → W.honest p world.old }
{
    let created = open_outputs(world, files, unit)?;
    let mut lines = Bytes::new(alloc);
    write_reply(alloc, world, created.released, &mut lines, b"", outputs)?;
    let schedule = texts.schedule.as_slice();
    write_closing(
        world,
        created.schedule,
        &mut lines,
        schedule,
        texts.report.as_slice(),
    )
}

/// Writes what a drill released that a limit stopped.
fn write_halted<W: World>(
    alloc: Global,
    world: &mut W,
    files: RunFiles<'_>,
    unit: Unit,
    outputs: &[Output],
) -> Result<(), OutputError>
    requires short { All IsShort (packets_in outputs.now) }
    requires room { (W.ledger world.old).given < 2 ^ 32 - 2 }
    requires apart { files.released.now ≡ files.schedule.now → ⊥ }
    ensures writes_files { WritesFiles W.ledger W.healthy 2 world.old world.new }
    ensures cause { IsErrOf result OutputError.WriteFault
        → WritingFailed W.ledger W.healthy world.old world.new }
    ensures shows { (p : Start) → W.honest p world.new → Writes result
        (stopped_writes (names_of files.entry) unit (packets_in outputs.now))
        (W.shows p world.old) (W.shows p world.new) }
    ensures before { (p : Start) → W.honest p world.new → W.honest p world.old }
{
    let created = open_outputs(world, files, unit)?;
    let mut lines = Bytes::new(alloc);
    write_stopped(alloc, world, created.released, &mut lines, outputs)
}

/// Writes what a drill came to.
pub fn write_drilled<W: World>(
    alloc: Global,
    world: &mut W,
    files: RunFiles<'_>,
    unit: Unit,
    drilled: &Drilled,
) -> Result<(), RunError>
    requires short { All IsShort (packets_in drilled.now.outputs) }
    requires room { (W.ledger world.old).given < 2 ^ 32 - 2 }
    requires apart { files.released.now ≡ files.schedule.now → ⊥ }
    ensures writes_files { WritesFiles W.ledger W.healthy 2 world.old world.new }
    ensures cause { IsErrOf result RunError.WriteFault
        → WritingFailed W.ledger W.healthy world.old world.new }
    ensures shows { (p : Start) → W.honest p world.new → WritesDrilled result drilled.now.texts
        (packets_in drilled.now.outputs) (names_of files.entry) unit
        (W.shows p world.old) (W.shows p world.new) }
    ensures before { (p : Start) → W.honest p world.new → W.honest p world.old }
{
    let outputs = drilled.outputs.as_slice();
    match &drilled.texts {
        Ok(texts) => written(write_whole(alloc, world, files, unit, outputs, texts)),
        Err(limit) => stopped(write_halted(alloc, world, files, unit, outputs), *limit),
    }
}
