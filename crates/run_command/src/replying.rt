ghost use Rattle.std.specs.Prelude.{◌≡◌, ◌≤◌, ◌++◌, ℕ, All, List, length, OnOk, IsTrue, IsErrOf};
ghost use Rattle.std.specs.Result.{IsOk};
ghost use Rattle.plain_text.specs.Packets.{IsShort};
ghost use Rattle.recovery_world.specs.World.{Sent};
ghost use Rattle.recovery_world.specs.Files.{reply_line, sent_names};
ghost use Rattle.world_io.specs.World.{Start, Shown, is_writable, WritingFailed};
ghost use Rattle.output_files.specs.Writes.{Write, HasGathered, IsOutput, KeepsOutputs};
ghost use Rattle.output_files.specs.Written.{WritesGathered, OnlyWrites};
ghost use Rattle.run_writes.specs.Replies.{packets_in};
ghost use Rattle.run_writes.specs.Run.{FitsRecord, reply_writes};
ghost use Rattle.run_command.specs.Running.{WritesPerformed};

use crate::Performed;
use access_log::Output;
use output_files::OutputError;
use plain_text::Bytes;
use recovery_core::{Reply, Stop, put_line};
use recovery_world::Event;
use run_writes::{RunError, stopped, write_reply, write_stopped, written};
use std::alloc::Global;
use world_io::World;

/// Writes what an event left that ended: the records of what it released, and then its line, which may be gathered.
fn write_answer<W: World>(
    alloc: Global,
    world: &mut W,
    file: u32,
    lines: &mut Bytes,
    event: &Event,
    reply: &Reply,
    outputs: &[Output],
) -> Result<(), OutputError>
    requires short { All IsShort (packets_in outputs.now) }
    requires writable { IsTrue (is_writable (W.ledger world.old) file) }
    ensures gathered { OnOk result (length lines.new ≤ 65536) }
    ensures fit_records { OnOk result (All FitsRecord (packets_in outputs.now)) }
    ensures only_writes { OnlyWrites W.ledger W.healthy world.old world.new }
    ensures cause { IsErrOf result OutputError.WriteFault
        → WritingFailed W.ledger W.healthy world.old world.new }
    ensures shows { (p : Start) → W.honest p world.new
        → (before : Shown) (writes : List Write) (name : List ℕ)
        (freed : List Sent) → IsOutput file name (W.shows p world.old)
        → reply.now.released ≡ sent_names freed
        → HasGathered writes lines.old before (W.shows p world.old)
        → WritesGathered result (writes ++ reply_writes name (record {
          released = packets_in outputs.now;
          line = reply_line event.now reply.now.outcome freed;
        })) lines.new before (W.shows p world.new) }
    ensures keeps { (p : Start) → W.honest p world.new
        → KeepsOutputs (W.shows p world.old) (W.shows p world.new) }
    ensures before { (p : Start) → W.honest p world.new → W.honest p world.old }
{
    let line = put_line(alloc, event, reply)?;
    let line = line.as_str().as_bytes();
    write_reply(alloc, world, file, lines, line, outputs)
}

/// Writes what an event left: the records of what it released, and then its line, which may be gathered. Where it
/// stopped at a limit, what it released before and all lines before it are written.
pub fn write_performed<W: World>(
    alloc: Global,
    world: &mut W,
    file: u32,
    lines: &mut Bytes,
    event: &Event,
    performed: &Performed,
) -> Result<(), RunError>
    requires short { All IsShort (packets_in performed.now.outputs) }
    requires writable { IsTrue (is_writable (W.ledger world.old) file) }
    ensures gathered { OnOk result (length lines.new ≤ 65536) }
    ensures ended { OnOk result (IsOk performed.now.reply) }
    ensures only_writes { OnlyWrites W.ledger W.healthy world.old world.new }
    ensures cause { IsErrOf result RunError.WriteFault
        → WritingFailed W.ledger W.healthy world.old world.new }
    ensures shows { (p : Start) → W.honest p world.new
        → (before : Shown) (writes : List Write) (name : List ℕ)
        → IsOutput file name (W.shows p world.old)
        → HasGathered writes lines.old before (W.shows p world.old)
        → WritesPerformed result performed.now.reply event.now (packets_in performed.now.outputs)
        writes name lines.new before (W.shows p world.new) }
    ensures keeps { (p : Start) → W.honest p world.new
        → KeepsOutputs (W.shows p world.old) (W.shows p world.new) }
    ensures before { (p : Start) → W.honest p world.new → W.honest p world.old }
{
    let outputs = performed.outputs.as_slice();
    match &performed.reply {
        Ok(reply) => {
            let files = write_answer(alloc, world, file, lines, event, reply, outputs);
            written(files)
        }
        Err(Stop::Limit(limit)) => {
            let files = write_stopped(alloc, world, file, lines, outputs);
            stopped(files, *limit)
        }
        Err(Stop::NoMemory) => Err(RunError::NoMemory),
    }
}
