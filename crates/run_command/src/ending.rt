ghost use Rattle.std.specs.Prelude.{◌≡◌, IfOk, OnOk, List, IsTrue, IsErrOf, false};
ghost use Rattle.plain_player.specs.ScheduleText.{schedule_text};
ghost use Rattle.plain_player.specs.Schedules.{FitLines};
ghost use Rattle.world_io.specs.World.{Start, Shown, is_writable, WritingFailed};
ghost use Rattle.recovery_world.specs.declared.event.Event.{Event as EventKind};
ghost use Rattle.recovery_world.specs.World.{Setting};
ghost use Rattle.output_files.specs.Writes.{IsOutput, KeepsOutputs};
ghost use Rattle.output_files.specs.Written.{OnlyWrites};
ghost use Rattle.run_writes.specs.Replies.{Point};
ghost use Rattle.run_writes.specs.Run.{OutputNames, FinishesFrom, counts_line};
ghost use Rattle.run_command.specs.Running.{HasCome};

use box_program::Program;
use output_files::OutputError;
use plain_player::put_schedule;
use plain_text::{Bytes, NoMemory};
use recovery_core::{Finished, Memory, System};
use run_writes::{put_done, write_closing};
use std::alloc::Global;
use world_io::World;

/// The texts with which a run ends: its schedule, and the last line of its report.
#[derive(Drop)]
struct Closing {
    schedule: Bytes,
    last: Bytes,
}

/// The texts of a run that is finished.
fn put_closing(alloc: Global, finished: &Finished) -> Result<Closing, NoMemory>
    ensures schedule { IfOk result
        (λ texts. texts.schedule ≡ schedule_text finished.now.schedule) }
    ensures fit_lines { OnOk result (FitLines finished.now.schedule) }
    ensures last { IfOk result (λ texts.
        texts.last ≡ counts_line finished.now.fed finished.now.epoch finished.now.released) }
{
    let last = put_done(alloc, finished.fed, finished.epoch, finished.released)?;
    let schedule = put_schedule(alloc, &finished.schedule)?;
    Ok(Closing { schedule, last })
}

/// Finishes a run whose events were all performed: writes the lines that are gathered, the schedule, and the last line.
pub fn close_run<P: Program, W: World>(
    alloc: Global,
    world: &mut W,
    file: u32,
    system: System<P>,
    lines: &mut Bytes,
) -> Result<(), OutputError>
    requires runs { system.stopped ≡ false }
    requires writable { IsTrue (is_writable (W.ledger world.old) file) }
    ensures only_writes { OnlyWrites W.ledger W.healthy world.old world.new }
    ensures cause { IsErrOf result OutputError.WriteFault
        → WritingFailed W.ledger W.healthy world.old world.new }
    ensures shows { (p : Start) → W.honest p world.new
        → (s : Setting P.Value) (from : Point P.Value) (names : OutputNames)
        (events : List EventKind) (before : Shown)
        → IsOutput file names.schedule (W.shows p world.old)
        → HasCome (P.meaning system.parts.program) s from names events system lines.old before
        (W.shows p world.old)
        → FinishesFrom result s from names events before (W.shows p world.new) }
    ensures keeps { (p : Start) → W.honest p world.new
        → KeepsOutputs (W.shows p world.old) (W.shows p world.new) }
    ensures before { (p : Start) → W.honest p world.new → W.honest p world.old }
{
    let finished = system.finish(Memory::Left)?;
    let closing = put_closing(alloc, &finished)?;
    let schedule = closing.schedule.as_slice();
    write_closing(world, file, lines, schedule, closing.last.as_slice())
}
