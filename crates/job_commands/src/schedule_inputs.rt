ghost use Rattle.std.specs.Prelude.{◌<◌, ◌^◌, IfOk, IfErr, IsErrOf, OnOk};
ghost use Rattle.world_io.specs.Stream.{Rose};
ghost use Rattle.schedule_commands.specs.Runs.{CanPlay};
ghost use Rattle.input_files.specs.Files.{KeepsOutputs, OnlyReads, OpensAll};
ghost use Rattle.job_commands.specs.Schedules.{JudgesScheduleFiles, JudgesCheckFiles, schedule_of};
ghost use Rattle.job_commands.specs.Status.{AtInputs, ComesAt, EndsReading};
ghost use Rattle.job_commands.specs.Words.{check_inputs, check_names_of, files_of, schedule_inputs};
ghost use Rattle.world_io.specs.World.{Start};

use crate::first_inputs::read_first_inputs;
use crate::status::{released_status, schedule_status};
use crate::{CheckWords, ScheduleFiles, Status};
use box_conf::BoxConf;
use input_files::{Capture, read_capture_file, read_schedule_file};
use plain_machine::Schedule;
use std::alloc::Global;
use world_io::World;

/// The inputs of a command that plays a schedule, which were accepted.
#[derive(Drop)]
pub struct ScheduleInputs {
    pub conf: BoxConf,
    pub capture: Capture,
    pub schedule: Schedule,
}

/// The inputs of `check` that were accepted.
#[derive(Drop)]
pub struct CheckInputs {
    pub played: ScheduleInputs,
    pub released: Capture,
}

/// Reads and judges box, capture and schedule, in their order.
pub fn read_schedule_inputs<W: World>(
    alloc: Global,
    world: &mut W,
    files: ScheduleFiles<'_>,
) -> Result<ScheduleInputs, Status>
    requires { (W.ledger world.old).given < 2 ^ 31 }
    ensures quiet { IfErr result EndsReading }
    ensures can_play { IfOk result (λ inputs. CanPlay (schedule_of inputs)) }
    ensures only_reads { OnlyReads W.ledger W.healthy (schedule_inputs (files_of files.entry))
        world.old world.new }
    ensures opened { OnOk result (OpensAll (schedule_inputs (files_of files.entry))
        (W.ledger world.old) (W.ledger world.new)) }
    ensures cause { IsErrOf result Status.ReadFault
        → Rose (W.ledger world.old).read_faults (W.ledger world.new).read_faults }
    ensures judged { (p : Start) → W.honest p world.new → JudgesScheduleFiles (W.healthy world.old)
        (files_of files.entry) result (W.shows p world.old) }
    ensures stage { (p : Start) → W.honest p world.new → IfErr result (ComesAt AtInputs) }
    ensures keeps { (p : Start) → W.honest p world.new → KeepsOutputs
        (W.shows p world.old) (W.shows p world.new) }
    ensures before { (p : Start) → W.honest p world.new → W.honest p world.old }
{
    let first = match read_first_inputs(alloc, world, files.box_file, files.capture) {
        Ok(first) => first,
        Err(status) => return Err(status),
    };
    match read_schedule_file(alloc, world, files.schedule) {
        Ok(schedule) => Ok(ScheduleInputs {
            conf: first.conf,
            capture: first.capture,
            schedule,
        }),
        Err(error) => Err(schedule_status(error)),
    }
}

/// Reads and judges the input files of `check`: those of the schedule, and then the released capture.
pub fn read_check_inputs<W: World>(
    alloc: Global,
    world: &mut W,
    names: CheckWords<'_>,
) -> Result<CheckInputs, Status>
    requires { (W.ledger world.old).given < 2 ^ 31 }
    ensures quiet { IfErr result EndsReading }
    ensures can_play { IfOk result (λ inputs. CanPlay (schedule_of inputs.played)) }
    ensures only_reads { OnlyReads W.ledger W.healthy (check_inputs (check_names_of names.entry))
        world.old world.new }
    ensures opened { OnOk result (OpensAll (check_inputs (check_names_of names.entry))
        (W.ledger world.old) (W.ledger world.new)) }
    ensures cause { IsErrOf result Status.ReadFault
        → Rose (W.ledger world.old).read_faults (W.ledger world.new).read_faults }
    ensures judged { (p : Start) → W.honest p world.new → JudgesCheckFiles (W.healthy world.old)
        (check_names_of names.entry) result (W.shows p world.old) }
    ensures stage { (p : Start) → W.honest p world.new → IfErr result (ComesAt AtInputs) }
    ensures keeps { (p : Start) → W.honest p world.new → KeepsOutputs
        (W.shows p world.old) (W.shows p world.new) }
    ensures before { (p : Start) → W.honest p world.new → W.honest p world.old }
{
    let played = match read_schedule_inputs(alloc, world, names.files) {
        Ok(played) => played,
        Err(status) => return Err(status),
    };
    match read_capture_file(alloc, world, names.released) {
        Ok(released) => Ok(CheckInputs { played, released }),
        Err(error) => Err(released_status(error)),
    }
}
