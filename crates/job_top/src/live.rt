ghost use Rattle.std.specs.Prelude.{◌≡◌, ◌+◌, ◌<◌, ◌-◌, ◌^◌, Err, OnOk, IsErrOf};
ghost use Rattle.plain_text.specs.declared.limit.Limit.{Limit as LimitKind};
ghost use Rattle.world_io.specs.World.{Start, WritingFailed};
ghost use Rattle.output_files.specs.Written.{WritesFiles};
ghost use Rattle.live_writes.specs.Outputs.{AreApart, CanLive};
ghost use Rattle.live_command.specs.Plans.{LivesInOrder, LivesToLimit, LivesWhole};
ghost use Rattle.job_commands.specs.Words.{live_names_of};
ghost use Rattle.job_top.specs.Live.{live_outputs, live_setting, plan_of};
ghost use Rattle.job_commands.specs.Answers.{AnswersAs};
ghost use Rattle.job_top.specs.Live.{live_meaning};

use box_conf::BoxKind;
use job_commands::{LiveInputs, LiveWords, Status, read_live_inputs, run_outcome};
use live_command::run_plan;
use live_writes::{LiveFiles, PlanRun};
use run_writes::RunError;
use std::sync::Wait;
use std::thread::Threads;
use var_locks::Gate;
use world_io::{Clock, World};

/// Runs the box on the inputs, by the lines of the plan, and writes the outputs.
fn live_box<W: World, C: Clock + Sync, G: Gate + Sync, R: AllocGlobal + Threads + Wait + Sync>(
    rt: &R,
    world: &mut W,
    names: LiveWords<'_>,
    inputs: LiveInputs,
    clock: &C,
    gate: &G,
) -> Result<(), RunError>
    requires inputs { CanLive (plan_of inputs) }
    requires room { (W.ledger world.old).given < 2 ^ 32 - 3 }
    requires apart { AreApart (live_outputs (live_names_of names)) }
    ensures whole { (p : Start) → W.honest p world.new → OnOk result (LivesWhole
        (live_setting inputs) (C.may clock.now) inputs.plan (live_outputs
        (live_names_of names.entry)) (W.shows p world.old) (W.shows p world.new)) }
    ensures limit { (p : Start) → W.honest p world.new → (limit : LimitKind)
        → result ≡ Err (RunError.Limit limit) → LivesToLimit (live_setting inputs) inputs.plan
        (live_outputs (live_names_of names.entry)) limit
        (W.shows p world.old) (W.shows p world.new) }
    ensures in_order { (p : Start) → W.honest p world.new → LivesInOrder (live_setting inputs)
        inputs.plan (live_outputs (live_names_of names.entry))
        (W.shows p world.old) (W.shows p world.new) }
    ensures writes_files { WritesFiles W.ledger W.healthy 3 world.old world.new }
    ensures cause { IsErrOf result RunError.WriteFault
        → WritingFailed W.ledger W.healthy world.old world.new }
    ensures before { (p : Start) → W.honest p world.new → W.honest p world.old }
{
    let files = LiveFiles {
        released: names.released,
        schedule: names.schedule,
        script: names.script,
    };
    let run = PlanRun {
        threads: inputs.conf.threads,
        tags: inputs.conf.tags,
        seed: inputs.conf.seed,
        unit: inputs.capture.unit,
        packets: inputs.capture.packets,
        plan: inputs.plan,
    };
    match inputs.conf.kind {
        BoxKind::Count(count) => run_plan(rt, world, files, run, count, clock, gate),
        BoxKind::Monitor(monitor) => run_plan(rt, world, files, run, monitor, clock, gate),
        BoxKind::Nat(nat) => run_plan(rt, world, files, run, nat, clock, gate),
        BoxKind::Balancer(balancer) => run_plan(rt, world, files, run, balancer, clock, gate),
    }
}

/// The command `live`: all input files are judged before an output is created.
pub(crate) fn live<
    W: World,
    C: Clock + Sync,
    G: Gate + Sync,
    R: AllocGlobal + Threads + Wait + Sync,
>(rt: &R, world: &mut W, names: LiveWords<'_>, clock: &C, gate: &G) -> Status
    requires room { (W.ledger world.old).given < 2 ^ 31 }
    requires apart { AreApart (live_outputs (live_names_of names)) }
    ensures { AnswersAs W.honest W.shows W.ledger W.healthy
        (live_meaning (C.may clock.now) (live_names_of names.entry)) result world.old world.new }
{
    match read_live_inputs(rt.alloc(), world, names) {
        Ok(inputs) => run_outcome(live_box(rt, world, names, inputs, clock, gate)),
        Err(status) => status,
    }
}
