ghost use Rattle.std.specs.Prelude.{◌≡◌, ◌⊎◌, ◌<◌, ◌-◌, ◌^◌, Err, OnOk, IsErrOf};
ghost use Rattle.plain_machine.specs.declared.plain_move.PlayFault as move_fault;
ghost use Rattle.output_files.specs.Written.{WritesFiles};
ghost use Rattle.schedule_commands.specs.Playing.{HasBegunPlay, HasPlayed, SaysPlay};
ghost use Rattle.schedule_commands.specs.Runs.{CanPlay};
ghost use Rattle.job_commands.specs.Answers.{AnswersAs};
ghost use Rattle.job_commands.specs.Schedules.{outcome_for, play_meaning, schedule_of};
ghost use Rattle.job_commands.specs.Words.{play_names_of};
ghost use Rattle.world_io.specs.World.{Start, WritingFailed};

use crate::status::play_outcome;
use crate::{PlayWords, ScheduleInputs, Status, read_schedule_inputs};
use box_conf::BoxKind;
use plain_machine::PlayFault;
use plain_text::Text;
use schedule_commands::{ScheduleError, ScheduleRun, play_schedule};
use std::alloc::Global;
use world_io::World;

/// Plays the schedule with the box that the inputs name.
fn play_box<W: World>(
    alloc: Global,
    world: &mut W,
    out: &Text,
    inputs: ScheduleInputs,
) -> Result<(), ScheduleError<PlayFault>>
    requires inputs { CanPlay (schedule_of inputs) }
    requires room { (W.ledger world.old).given < 2 ^ 32 - 1 }
    ensures says { SaysPlay (outcome_for inputs) result }
    ensures refused { (fault : move_fault.PlayFault) → result ≡ Err (ScheduleError.Refused fault)
        → world.new ≡ world.old }
    ensures writes_files { WritesFiles W.ledger W.healthy 1 world.old world.new }
    ensures cause { IsErrOf result ScheduleError.WriteFault
        → WritingFailed W.ledger W.healthy world.old world.new }
    ensures played { (p : Start) → W.honest p world.new → OnOk result (HasPlayed
        (outcome_for inputs) out.now inputs.capture.unit
        (W.shows p world.old) (W.shows p world.new)) }
    ensures in_order { (p : Start) → W.honest p world.new → (world.new ≡ world.old)
        ⊎ HasBegunPlay (outcome_for inputs) out.now inputs.capture.unit
        (W.shows p world.old) (W.shows p world.new) }
    ensures before { (p : Start) → W.honest p world.new → W.honest p world.old }
{
    let run = ScheduleRun {
        threads: inputs.conf.threads,
        tags: inputs.conf.tags,
        unit: inputs.capture.unit,
        packets: inputs.capture.packets,
        schedule: inputs.schedule,
    };
    match inputs.conf.kind {
        BoxKind::Count(count) => play_schedule(alloc, world, out, run, &count),
        BoxKind::Monitor(monitor) => play_schedule(alloc, world, out, run, &monitor),
        BoxKind::Nat(nat) => play_schedule(alloc, world, out, run, &nat),
        BoxKind::Balancer(balancer) => play_schedule(alloc, world, out, run, &balancer),
    }
}

/// The command `play`: all input files are judged, and then the schedule, before OUT is created.
pub fn play_capture<W: World>(alloc: Global, world: &mut W, names: PlayWords<'_>) -> Status
    requires { (W.ledger world.old).given < 2 ^ 31 }
    ensures { AnswersAs W.honest W.shows W.ledger W.healthy
        (play_meaning (play_names_of names.entry)) result world.old world.new }
{
    match read_schedule_inputs(alloc, world, names.files) {
        Ok(inputs) => play_outcome(play_box(alloc, world, names.out, inputs)),
        Err(status) => status,
    }
}
