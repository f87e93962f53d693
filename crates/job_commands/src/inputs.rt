ghost use Rattle.std.specs.Prelude.{◌<◌, ◌-◌, ◌^◌, IfOk, IfErr, IsErrOf, OnOk};
ghost use Rattle.world_io.specs.Stream.{Rose};
ghost use Rattle.run_writes.specs.Run.{CanRun};
ghost use Rattle.input_files.specs.Files.{KeepsOutputs, OnlyReads, OpensAll};
ghost use Rattle.job_commands.specs.Judging.{JudgesInputs};
ghost use Rattle.job_commands.specs.Run.{script_of};
ghost use Rattle.job_commands.specs.Status.{AtInputs, ComesAt, EndsReading};
ghost use Rattle.job_commands.specs.Words.{names_of, run_inputs};
ghost use Rattle.world_io.specs.World.{Start};

use crate::first_inputs::read_first_inputs;
use crate::status::script_status;
use crate::{RunWords, Status};
use box_conf::BoxConf;
use input_files::{Capture, read_script_file};
use script_text::Events;
use std::alloc::Global;
use world_io::World;

/// The inputs of a run that were accepted.
#[derive(Drop)]
pub struct Inputs {
    pub conf: BoxConf,
    pub capture: Capture,
    pub events: Events,
}

/// Reads and judges the input files, in their order: box, capture, script. The first that is not accepted ends the
/// command.
pub fn read_inputs<W: World>(
    alloc: Global,
    world: &mut W,
    names: RunWords<'_>,
) -> Result<Inputs, Status>
    requires { (W.ledger world.old).given < 2 ^ 31 }
    ensures quiet { IfErr result EndsReading }
    ensures can_run { IfOk result (λ inputs. CanRun (script_of inputs)) }
    ensures only_reads { OnlyReads W.ledger W.healthy (run_inputs (names_of names.entry))
        world.old world.new }
    ensures opened { OnOk result (OpensAll (run_inputs (names_of names.entry))
        (W.ledger world.old) (W.ledger world.new)) }
    ensures cause { IsErrOf result Status.ReadFault
        → Rose (W.ledger world.old).read_faults (W.ledger world.new).read_faults }
    ensures judged { (p : Start) → W.honest p world.new → JudgesInputs (W.healthy world.old)
        (names_of names.entry) result (W.shows p world.old) }
    ensures stage { (p : Start) → W.honest p world.new → IfErr result (ComesAt AtInputs) }
    ensures keeps { (p : Start) → W.honest p world.new → KeepsOutputs
        (W.shows p world.old) (W.shows p world.new) }
    ensures before { (p : Start) → W.honest p world.new → W.honest p world.old }
{
    let first = match read_first_inputs(alloc, world, names.box_file, names.capture) {
        Ok(first) => first,
        Err(status) => return Err(status),
    };
    match read_script_file(alloc, world, names.script) {
        Ok(events) => Ok(Inputs {
            conf: first.conf,
            capture: first.capture,
            events,
        }),
        Err(error) => Err(script_status(error)),
    }
}
