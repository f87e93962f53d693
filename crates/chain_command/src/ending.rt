ghost use Rattle.std.specs.Prelude.{◌≡◌, ◌∷◌, ◌++◌, [], ℕ, IfOk, OnOk, List, IsTrue, IsErrOf};
ghost use Rattle.std.specs.Prelude.{codes, false};
ghost use Rattle.plain_player.specs.ScheduleText.{schedule_text};
ghost use Rattle.plain_player.specs.Schedules.{FitLines};
ghost use Rattle.world_io.specs.World.{Start, Shown, is_writable, WritingFailed};
ghost use Rattle.recovery_world.specs.World.{Setting};
ghost use Rattle.output_files.specs.Writes.{Write, Appends, Reports, HasGathered, KeepsOutputs};
ghost use Rattle.output_files.specs.Written.{Writes, OnlyWrites};
ghost use Rattle.run_writes.specs.Run.{counts_line};
ghost use Rattle.chain_world.specs.declared.chain_event.ChainEvent.{ChainEvent as EventOfChain};
ghost use Rattle.chain_command.specs.Outputs.{ChainNames};
ghost use Rattle.chain_command.specs.Running.{AreOpen, HasCome};
ghost use Rattle.chain_command.specs.Writes.{Finishes};

use crate::opening::ChainNumbers;
use box_program::Program;
use chain_box::{Chain, ChainFinished, Finished, Memory};
use output_files::{OutputError, append, report, write_lines};
use plain_player::put_schedule;
use plain_text::{Bytes, NoMemory};
use run_writes::put_done;
use std::alloc::Global;
use world_io::World;

/// The texts with which a chain ends: the schedules, and the last two lines of the report.
#[derive(Drop)]
struct Closing {
    first: Bytes,
    second: Bytes,
    last: Bytes,
}

/// Appends the last line of a system to a text.
fn put_end(
    alloc: Global,
    text: &mut Bytes,
    which: &[u8],
    finished: &Finished,
) -> Result<(), NoMemory>
    ensures { OnOk result (text.new ≡ text.old ++ (which.now
        ++ counts_line finished.now.fed finished.now.epoch finished.now.released)) }
{
    let line = put_done(alloc, finished.fed, finished.epoch, finished.released)?;
    text.extend(which)?;
    text.extend(line.as_slice())
}

/// The last two lines of the report of a chain.
fn put_ends(alloc: Global, finished: &ChainFinished) -> Result<Bytes, NoMemory>
    ensures { IfOk result (λ text. text ≡ (codes "1 " ++ counts_line finished.now.first.fed
        finished.now.first.epoch finished.now.first.released)
        ++ (codes "2 " ++ counts_line finished.now.second.fed finished.now.second.epoch
        finished.now.second.released)) }
{
    let mut text = Bytes::new(alloc);
    put_end(alloc, &mut text, b"1 ", &finished.first)?;
    put_end(alloc, &mut text, b"2 ", &finished.second)?;
    Ok(text)
}

/// The texts of a chain that is finished.
fn put_closing(alloc: Global, finished: &ChainFinished) -> Result<Closing, NoMemory>
    ensures first { IfOk result
        (λ texts. texts.first ≡ schedule_text finished.now.first.schedule) }
    ensures second { IfOk result
        (λ texts. texts.second ≡ schedule_text finished.now.second.schedule) }
    ensures fit_first { OnOk result (FitLines finished.now.first.schedule) }
    ensures fit_second { OnOk result (FitLines finished.now.second.schedule) }
    ensures last { IfOk result (λ texts. texts.last ≡ (codes "1 " ++ counts_line
        finished.now.first.fed finished.now.first.epoch finished.now.first.released)
        ++ (codes "2 " ++ counts_line finished.now.second.fed finished.now.second.epoch
        finished.now.second.released)) }
{
    let last = put_ends(alloc, finished)?;
    let first = put_schedule(alloc, &finished.first.schedule)?;
    let second = put_schedule(alloc, &finished.second.schedule)?;
    Ok(Closing {
        first,
        second,
        last,
    })
}

/// Writes the end of a chain: the lines that are gathered, the texts of the schedules, and the last lines.
fn write_closing<W: World>(
    world: &mut W,
    files: ChainNumbers,
    lines: &mut Bytes,
    first: &[u8],
    second: &[u8],
    last: &[u8],
) -> Result<(), OutputError>
    requires first { IsTrue (is_writable (W.ledger world.old) files.first_schedule) }
    requires second { IsTrue (is_writable (W.ledger world.old) files.second_schedule) }
    ensures only_writes { OnlyWrites W.ledger W.healthy world.old world.new }
    ensures cause { IsErrOf result OutputError.WriteFault
        → WritingFailed W.ledger W.healthy world.old world.new }
    ensures shows { (p : Start) → W.honest p world.new
        → (before : Shown) (writes : List Write) (names : ChainNames)
        → AreOpen names files (W.shows p world.old)
        → HasGathered writes lines.old before (W.shows p world.old)
        → Writes result (writes ++ (Appends names.first_schedule first.now
        ∷ Appends names.second_schedule second.now ∷ Reports last.now ∷ [])) before
        (W.shows p world.new) }
    ensures keeps { (p : Start) → W.honest p world.new
        → KeepsOutputs (W.shows p world.old) (W.shows p world.new) }
    ensures before { (p : Start) → W.honest p world.new → W.honest p world.old }
{
    write_lines(world, lines)?;
    append(world, files.first_schedule, first)?;
    append(world, files.second_schedule, second)?;
    report(world, last)
}

/// Finishes a chain whose events were all performed: writes the lines that are gathered, the schedules, and the last
/// lines.
pub fn close_chain<P: Program, Q: Program, W: World>(
    alloc: Global,
    world: &mut W,
    files: ChainNumbers,
    chain: Chain<P, Q>,
    lines: &mut Bytes,
) -> Result<(), OutputError>
    requires runs { chain.stopped ≡ false }
    requires first { IsTrue (is_writable (W.ledger world.old) files.first_schedule) }
    requires second { IsTrue (is_writable (W.ledger world.old) files.second_schedule) }
    ensures only_writes { OnlyWrites W.ledger W.healthy world.old world.new }
    ensures cause { IsErrOf result OutputError.WriteFault
        → WritingFailed W.ledger W.healthy world.old world.new }
    ensures shows { (p : Start) → W.honest p world.new
        → (s : Setting P.Value) (r : Setting Q.Value) (names : ChainNames)
        (events : List EventOfChain) (before : Shown)
        → AreOpen names files (W.shows p world.old)
        → HasCome P.meaning Q.meaning s r names events chain lines.old before
        (W.shows p world.old)
        → Finishes result s r names events before (W.shows p world.new) }
    ensures keeps { (p : Start) → W.honest p world.new
        → KeepsOutputs (W.shows p world.old) (W.shows p world.new) }
    ensures before { (p : Start) → W.honest p world.new → W.honest p world.old }
{
    let finished = chain.finish(Memory::Left)?;
    let closing = put_closing(alloc, &finished)?;
    let first = closing.first.as_slice();
    let second = closing.second.as_slice();
    write_closing(world, files, lines, first, second, closing.last.as_slice())
}
