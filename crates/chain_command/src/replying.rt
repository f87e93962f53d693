ghost use Rattle.std.specs.Prelude.{◌≡◌, ◌++◌, ℕ, All, List, IfOk, OnOk, IsTrue, IsErrOf};
ghost use Rattle.std.specs.Result.{IsOk};
ghost use Rattle.plain_text.specs.Packets.{IsShort};
ghost use Rattle.recovery_world.specs.World.{Sent};
ghost use Rattle.recovery_world.specs.Files.{sent_names};
ghost use Rattle.world_io.specs.World.{Start, Shown, is_writable, WritingFailed};
ghost use Rattle.output_files.specs.Writes.{Write, HasGathered, KeepsOutputs};
ghost use Rattle.output_files.specs.Written.{Writes, WritesGathered, OnlyWrites};
ghost use Rattle.run_writes.specs.Replies.{packets_in};
ghost use Rattle.run_writes.specs.Run.{FitsRecord};
ghost use Rattle.chain_world.specs.Chain.{chain_line};
ghost use Rattle.chain_command.specs.Outputs.{ChainNames};
ghost use Rattle.chain_command.specs.Running.{AreOpen, WritesPerformed};
ghost use Rattle.chain_command.specs.Writes.{passed_writes, reply_writes};

use crate::opening::ChainNumbers;
use crate::performing::Performed;
use access_log::Output;
use chain_box::{Reply, put_line};
use chain_world::ChainEvent;
use output_files::OutputError;
use plain_text::{Bytes, NoMemory, put_u64};
use run_writes::{RunError, stopped, write_outputs, write_reply, write_stopped, written};
use std::alloc::Global;
use world_io::World;

/// What each system of a chain released, in order of release.
#[derive(Clone, Copy)]
struct Outgoing<'a> {
    middle: &'a [Output],
    released: &'a [Output],
}

/// The line of the report for an event of a chain: the number of its system, and then its line as in a run.
pub fn put_chain_line(alloc: Global, event: &ChainEvent, reply: &Reply) -> Result<Bytes, NoMemory>
    ensures { IfOk result (λ text. (freed : List Sent) → reply.now.released ≡ sent_names freed
        → text ≡ chain_line event.now reply.now.outcome freed) }
{
    let line = put_line(alloc, &event.event, reply)?;
    let mut text = Bytes::new(alloc);
    put_u64(&mut text, u64::from(event.which))?;
    text.push(b' ')?;
    text.extend(line.as_str().as_bytes())?;
    Ok(text)
}

/// Writes what an event left that ended: the records of what the systems released, and then its line, which may be
/// gathered.
fn write_answer<W: World>(
    alloc: Global,
    world: &mut W,
    files: ChainNumbers,
    lines: &mut Bytes,
    line: &[u8],
    passed: Outgoing<'_>,
) -> Result<(), OutputError>
    requires short_middle { All IsShort (packets_in passed.middle.now) }
    requires short_released { All IsShort (packets_in passed.released.now) }
    requires middle { IsTrue (is_writable (W.ledger world.old) files.middle) }
    requires released { IsTrue (is_writable (W.ledger world.old) files.released) }
    ensures fit_middle { OnOk result (All FitsRecord (packets_in passed.entry.middle.now)) }
    ensures fit_released { OnOk result (All FitsRecord (packets_in passed.entry.released.now)) }
    ensures only_writes { OnlyWrites W.ledger W.healthy world.old world.new }
    ensures cause { IsErrOf result OutputError.WriteFault
        → WritingFailed W.ledger W.healthy world.old world.new }
    ensures shows { (p : Start) → W.honest p world.new
        → (before : Shown) (writes : List Write) (names : ChainNames)
        → AreOpen names files (W.shows p world.old)
        → HasGathered writes lines.old before (W.shows p world.old)
        → WritesGathered result (writes ++ reply_writes names (record {
          middle = packets_in passed.entry.middle.now;
          released = packets_in passed.entry.released.now;
          line = line.now;
        })) lines.new before (W.shows p world.new) }
    ensures keeps { (p : Start) → W.honest p world.new
        → KeepsOutputs (W.shows p world.old) (W.shows p world.new) }
    ensures before { (p : Start) → W.honest p world.new → W.honest p world.old }
{
    write_outputs(alloc, world, files.middle, lines, passed.middle)?;
    write_reply(alloc, world, files.released, lines, line, passed.released)
}

/// Writes what an event that stopped at a limit released, behind the lines of the events before it.
fn write_halted<W: World>(
    alloc: Global,
    world: &mut W,
    files: ChainNumbers,
    lines: &mut Bytes,
    passed: Outgoing<'_>,
) -> Result<(), OutputError>
    requires short_middle { All IsShort (packets_in passed.middle.now) }
    requires short_released { All IsShort (packets_in passed.released.now) }
    requires middle { IsTrue (is_writable (W.ledger world.old) files.middle) }
    requires released { IsTrue (is_writable (W.ledger world.old) files.released) }
    ensures only_writes { OnlyWrites W.ledger W.healthy world.old world.new }
    ensures cause { IsErrOf result OutputError.WriteFault
        → WritingFailed W.ledger W.healthy world.old world.new }
    ensures shows { (p : Start) → W.honest p world.new
        → (before : Shown) (writes : List Write) (names : ChainNames)
        → AreOpen names files (W.shows p world.old)
        → HasGathered writes lines.old before (W.shows p world.old)
        → Writes result (writes ++ passed_writes names (packets_in passed.entry.middle.now)
        (packets_in passed.entry.released.now)) before (W.shows p world.new) }
    ensures keeps { (p : Start) → W.honest p world.new
        → KeepsOutputs (W.shows p world.old) (W.shows p world.new) }
    ensures before { (p : Start) → W.honest p world.new → W.honest p world.old }
{
    write_outputs(alloc, world, files.middle, lines, passed.middle)?;
    write_stopped(alloc, world, files.released, lines, passed.released)
}

/// Writes what an event that ended left, with its line.
fn write_replied<W: World>(
    alloc: Global,
    world: &mut W,
    files: ChainNumbers,
    lines: &mut Bytes,
    event: &ChainEvent,
    reply: &Reply,
    passed: Outgoing<'_>,
) -> Result<(), OutputError>
    requires short_middle { All IsShort (packets_in passed.middle.now) }
    requires short_released { All IsShort (packets_in passed.released.now) }
    requires middle { IsTrue (is_writable (W.ledger world.old) files.middle) }
    requires released { IsTrue (is_writable (W.ledger world.old) files.released) }
    ensures fit_middle { OnOk result (All FitsRecord (packets_in passed.entry.middle.now)) }
    ensures fit_released { OnOk result (All FitsRecord (packets_in passed.entry.released.now)) }
    ensures only_writes { OnlyWrites W.ledger W.healthy world.old world.new }
    ensures cause { IsErrOf result OutputError.WriteFault
        → WritingFailed W.ledger W.healthy world.old world.new }
    ensures shows { (p : Start) → W.honest p world.new
        → (before : Shown) (writes : List Write) (names : ChainNames) (freed : List Sent)
        → AreOpen names files (W.shows p world.old) → reply.now.released ≡ sent_names freed
        → HasGathered writes lines.old before (W.shows p world.old)
        → WritesGathered result (writes ++ reply_writes names (record {
          middle = packets_in passed.entry.middle.now;
          released = packets_in passed.entry.released.now;
          line = chain_line event.now reply.now.outcome freed;
        })) lines.new before (W.shows p world.new) }
    ensures keeps { (p : Start) → W.honest p world.new
        → KeepsOutputs (W.shows p world.old) (W.shows p world.new) }
    ensures before { (p : Start) → W.honest p world.new → W.honest p world.old }
{
    let line = put_chain_line(alloc, event, reply)?;
    write_answer(alloc, world, files, lines, line.as_slice(), passed)
}

/// Writes what an event left: the records of what the systems released, and then its line, which may be gathered. Where
/// it stopped at a limit, what was released before and all lines before it are written.
pub fn write_performed<W: World>(
    alloc: Global,
    world: &mut W,
    files: ChainNumbers,
    lines: &mut Bytes,
    event: &ChainEvent,
    performed: &Performed,
) -> Result<(), RunError>
    requires short_middle { All IsShort (packets_in performed.now.passed.middle) }
    requires short_released { All IsShort (packets_in performed.now.passed.released) }
    requires middle { IsTrue (is_writable (W.ledger world.old) files.middle) }
    requires released { IsTrue (is_writable (W.ledger world.old) files.released) }
    ensures ended { OnOk result (IsOk performed.now.reply) }
    ensures only_writes { OnlyWrites W.ledger W.healthy world.old world.new }
    ensures cause { IsErrOf result RunError.WriteFault
        → WritingFailed W.ledger W.healthy world.old world.new }
    ensures shows { (p : Start) → W.honest p world.new
        → (before : Shown) (writes : List Write) (names : ChainNames)
        → AreOpen names files (W.shows p world.old)
        → HasGathered writes lines.old before (W.shows p world.old)
        → WritesPerformed result performed.now.reply event.now
        (packets_in performed.now.passed.middle) (packets_in performed.now.passed.released)
        writes names lines.new before (W.shows p world.new) }
    ensures keeps { (p : Start) → W.honest p world.new
        → KeepsOutputs (W.shows p world.old) (W.shows p world.new) }
    ensures before { (p : Start) → W.honest p world.new → W.honest p world.old }
{
    let passed = Outgoing {
        middle: performed.passed.middle.as_slice(),
        released: performed.passed.released.as_slice(),
    };
    match &performed.reply {
        Ok(reply) => written(write_replied(alloc, world, files, lines, event, reply, passed)),
        Err(limit) => stopped(write_halted(alloc, world, files, lines, passed), *limit),
    }
}
