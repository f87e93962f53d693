ghost use Rattle.std.specs.Prelude.{◌<◌, ◌≤◌, ◌^◌, All, IfOk, IfErr, IsErrOf, OnOk};
ghost use Rattle.plain_text.specs.Packets.{IsShort};
ghost use Rattle.world_io.specs.Stream.{Rose};
ghost use Rattle.input_files.specs.Files.{KeepsOutputs, OnlyReads, OpensAll};
ghost use Rattle.job_commands.specs.Live.{JudgesLiveInputs};
ghost use Rattle.job_commands.specs.Status.{AtInputs, ComesAt, EndsReading};
ghost use Rattle.job_commands.specs.Words.{live_inputs, live_names_of};
ghost use Rattle.world_io.specs.World.{Start};

use crate::first_inputs::read_first_inputs;
use crate::status::plan_status;
use crate::{LiveWords, Status};
use box_conf::BoxConf;
use input_files::{Capture, read_plan_file};
use plan_text::Plan;
use std::alloc::Global;
use world_io::World;

/// The inputs of `live` that were accepted.
#[derive(Drop)]
pub struct LiveInputs {
    pub conf: BoxConf,
    pub capture: Capture,
    pub plan: Plan,
}

/// Reads and judges the input files, in their order: box, capture, plan. The first that is not accepted ends the
/// command.
pub fn read_live_inputs<W: World>(
    alloc: Global,
    world: &mut W,
    names: LiveWords<'_>,
) -> Result<LiveInputs, Status>
    requires { (W.ledger world.old).given < 2 ^ 31 }
    ensures quiet { IfErr result EndsReading }
    ensures some_threads { IfOk result (λ inputs. 1 ≤ inputs.conf.threads) }
    ensures few_threads { IfOk result (λ inputs. inputs.conf.threads ≤ 16) }
    ensures short { IfOk result (λ inputs. All IsShort inputs.capture.packets) }
    ensures only_reads { OnlyReads W.ledger W.healthy (live_inputs (live_names_of names.entry))
        world.old world.new }
    ensures opened { OnOk result (OpensAll (live_inputs (live_names_of names.entry))
        (W.ledger world.old) (W.ledger world.new)) }
    ensures cause { IsErrOf result Status.ReadFault
        → Rose (W.ledger world.old).read_faults (W.ledger world.new).read_faults }
    ensures judged { (p : Start) → W.honest p world.new → JudgesLiveInputs (W.healthy world.old)
        (live_names_of names.entry) result (W.shows p world.old) }
    ensures stage { (p : Start) → W.honest p world.new → IfErr result (ComesAt AtInputs) }
    ensures keeps { (p : Start) → W.honest p world.new → KeepsOutputs
        (W.shows p world.old) (W.shows p world.new) }
    ensures before { (p : Start) → W.honest p world.new → W.honest p world.old }
{
    let first = match read_first_inputs(alloc, world, names.box_file, names.capture) {
        Ok(first) => first,
        Err(status) => return Err(status),
    };
    match read_plan_file(alloc, world, names.plan) {
        Ok(plan) => Ok(LiveInputs {
            conf: first.conf,
            capture: first.capture,
            plan,
        }),
        Err(error) => Err(plan_status(error)),
    }
}
