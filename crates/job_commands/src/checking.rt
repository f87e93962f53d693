ghost use Rattle.std.specs.Prelude.{◌≡◌, ◌⊎◌, ◌<◌, ◌^◌, Err, OnOk, IsErrOf, length};
ghost use Rattle.schedule_check.specs.declared.checking.Refutation as refuted;
ghost use Rattle.world_io.specs.World.{Start, WritingFailed};
ghost use Rattle.output_files.specs.Writes.{HasBegun, HasWritten};
ghost use Rattle.output_files.specs.Written.{OnlyWrites};
ghost use Rattle.schedule_commands.specs.Checking.{SaysCheck, found_writes};
ghost use Rattle.schedule_commands.specs.Runs.{CanPlay};
ghost use Rattle.job_commands.specs.Answers.{AnswersAs};
ghost use Rattle.job_commands.specs.Schedules.{AreFound, check_meaning, outcome_for, schedule_of};
ghost use Rattle.job_commands.specs.Words.{check_names_of};

use crate::status::check_outcome;
use crate::{CheckInputs, CheckWords, Status, read_check_inputs};
use box_conf::BoxKind;
use schedule_check::Refutation;
use schedule_commands::{ScheduleError, ScheduleRun, check_schedule};
use std::alloc::Global;
use world_io::World;

/// Checks the schedule and the released packets with the box that the inputs name.
fn check_box<W: World>(
    alloc: Global,
    world: &mut W,
    inputs: CheckInputs,
) -> Result<(), ScheduleError<Refutation>>
    requires { CanPlay (schedule_of inputs.played) }
    ensures says { SaysCheck (outcome_for inputs.played) inputs.played.capture.unit
        inputs.released.packets inputs.released.unit result }
    ensures refused { (refutation : refuted.Refutation)
        → result ≡ Err (ScheduleError.Refused refutation) → world.new ≡ world.old }
    ensures only_writes { OnlyWrites W.ledger W.healthy world.old world.new }
    ensures cause { IsErrOf result ScheduleError.WriteFault
        → WritingFailed W.ledger W.healthy world.old world.new }
    ensures reported { (p : Start) → W.honest p world.new → OnOk result (HasWritten
        (found_writes (length inputs.released.packets))
        (W.shows p world.old) (W.shows p world.new)) }
    ensures in_order { (p : Start) → W.honest p world.new → (world.new ≡ world.old)
        ⊎ (AreFound inputs × HasBegun (found_writes (length inputs.released.packets))
        (W.shows p world.old) (W.shows p world.new)) }
    ensures before { (p : Start) → W.honest p world.new → W.honest p world.old }
{
    let played = inputs.played;
    let run = ScheduleRun {
        threads: played.conf.threads,
        tags: played.conf.tags,
        unit: played.capture.unit,
        packets: played.capture.packets,
        schedule: played.schedule,
    };
    let unit = inputs.released.unit;
    let released = inputs.released.packets.as_slice();
    match played.conf.kind {
        BoxKind::Count(count) => check_schedule(alloc, world, run, released, unit, &count),
        BoxKind::Monitor(monitor) => check_schedule(alloc, world, run, released, unit, &monitor),
        BoxKind::Nat(nat) => check_schedule(alloc, world, run, released, unit, &nat),
        BoxKind::Balancer(balancer) => {
            check_schedule(alloc, world, run, released, unit, &balancer)
        }
    }
}

/// The command `check`: all input files are judged, then the schedule, and then the released packets.
pub fn check_released<W: World>(alloc: Global, world: &mut W, names: CheckWords<'_>) -> Status
    requires { (W.ledger world.old).given < 2 ^ 31 }
    ensures { AnswersAs W.honest W.shows W.ledger W.healthy
        (check_meaning (check_names_of names.entry)) result world.old world.new }
{
    match read_check_inputs(alloc, world, names) {
        Ok(inputs) => check_outcome(check_box(alloc, world, inputs)),
        Err(status) => status,
    }
}
