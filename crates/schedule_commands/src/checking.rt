ghost use Rattle.std.specs.Prelude.{◌≡◌, ◌⊎◌, Err, IfOk, OnOk, IsErrOf, length};
ghost use Rattle.schedule_check.specs.declared.checking.Refutation as refuted;
ghost use Rattle.world_io.specs.World.{Start, WritingFailed};
ghost use Rattle.output_files.specs.Writes.{HasBegun, HasWritten};
ghost use Rattle.output_files.specs.Written.{Writes, OnlyWrites};
ghost use Rattle.schedule_commands.specs.Checking.{IsFound, SaysCheck, found_writes};
ghost use Rattle.schedule_commands.specs.Runs.{CanPlay, outcome_of};

use crate::{ScheduleError, ScheduleRun, put_count};
use box_program::Program;
use output_files::{OutputError, report};
use plain_text::{Packet, Unit};
use schedule_check::{Checked, Refutation, check, feed_all};
use std::alloc::Global;
use world_io::World;

/// The number of released packets, where the schedule is legal and each of them has an emission of its own.
fn find_released<P: Program>(
    alloc: Global,
    run: ScheduleRun,
    released: &[Packet],
    released_unit: Unit,
    program: &P,
) -> Result<u64, ScheduleError<Refutation>>
    requires { CanPlay run }
    ensures says { SaysCheck (outcome_of (P.meaning program.now) run) run.unit released.now
        released_unit result }
    ensures count { IfOk result (λ count. count ≡ length released.now) }
    ensures quiet { ¬ IsErrOf result ScheduleError.WriteFault }
{
    let inputs = feed_all(alloc, run.threads, run.tags, run.packets)?;
    let schedule = &run.schedule;
    let checked = check(
        alloc,
        program,
        &inputs,
        run.unit,
        schedule,
        released,
        released_unit,
    )?;
    match checked {
        Checked::Found(count) => Ok(count),
        Checked::Refuted(refutation) => Err(ScheduleError::Refused(refutation)),
    }
}

/// Reports how many released packets were found.
fn report_found<W: World>(alloc: Global, world: &mut W, count: u64) -> Result<(), OutputError>
    ensures only_writes { OnlyWrites W.ledger W.healthy world.old world.new }
    ensures cause { IsErrOf result OutputError.WriteFault
        → WritingFailed W.ledger W.healthy world.old world.new }
    ensures shows { (p : Start) → W.honest p world.new → Writes result (found_writes count)
        (W.shows p world.old) (W.shows p world.new) }
    ensures before { (p : Start) → W.honest p world.new → W.honest p world.old }
{
    let text = put_count(alloc, b"found ", count)?;
    report(world, text.as_slice())
}

/// Plays a schedule on a whole capture, and reports how many released packets there are, where the schedule is legal
/// and each of them has an emission of its own. Their fractions are in `released_unit`.
///
/// Else it is `Refused`, and nothing is reported: for the first illegal move of the schedule; where it is legal, for
/// the first packet that has no emission of its own.
pub fn check_schedule<P: Program, W: World>(
    alloc: Global,
    world: &mut W,
    run: ScheduleRun,
    released: &[Packet],
    released_unit: Unit,
    program: &P,
) -> Result<(), ScheduleError<Refutation>>
    requires { CanPlay run }
    ensures says { SaysCheck (outcome_of (P.meaning program.now) run) run.unit released.now
        released_unit result }
    ensures refused { (refutation : refuted.Refutation)
        → result ≡ Err (ScheduleError.Refused refutation) → world.new ≡ world.old }
    ensures only_writes { OnlyWrites W.ledger W.healthy world.old world.new }
    ensures cause { IsErrOf result ScheduleError.WriteFault
        → WritingFailed W.ledger W.healthy world.old world.new }
    ensures reported { (p : Start) → W.honest p world.new → OnOk result (HasWritten
        (found_writes (length released.now)) (W.shows p world.old) (W.shows p world.new)) }
    ensures in_order { (p : Start) → W.honest p world.new → (world.new ≡ world.old) ⊎ (IsFound
        (outcome_of (P.meaning program.now) run) run.unit released.now released_unit × HasBegun
        (found_writes (length released.now)) (W.shows p world.old) (W.shows p world.new)) }
    ensures before { (p : Start) → W.honest p world.new → W.honest p world.old }
{
    let count = match find_released(alloc, run, released, released_unit, program) {
        Ok(count) => count,
        Err(error) => return Err(error),
    };
    match report_found(alloc, world, count) {
        Ok(()) => Ok(()),
        Err(error) => Err(ScheduleError::from(error)),
    }
}
