ghost use Rattle.std.specs.Prelude.{◌≡◌, ◌<◌, ◌-◌, ◌^◌, Err, OnOk, IsErrOf};
ghost use Rattle.plain_text.specs.declared.limit.Limit.{Limit as LimitKind};
ghost use Rattle.world_io.specs.World.{Start, WritingFailed};
ghost use Rattle.output_files.specs.Written.{WritesFiles};
ghost use Rattle.run_writes.specs.Run.{CanRun};
ghost use Rattle.noted_runs.specs.Trace.{HasBegunTrace, HasStopped, HasTraced};
ghost use Rattle.job_commands.specs.Run.{script_of, setting_for};
ghost use Rattle.job_commands.specs.Words.{trace_names_of};
ghost use Rattle.box_conf.specs.Kinds.{drop_register};
ghost use Rattle.job_commands.specs.Answers.{AnswersAs};
ghost use Rattle.job_top.specs.Trace.{trace_meaning};

use box_conf::BoxKind;
use job_commands::{Inputs, RunWords, Status, TraceWords, read_inputs, run_outcome};
use noted_runs::run_trace;
use plain_text::Text;
use run_writes::{RunError, ScriptRun};
use std::alloc::Global;
use world_io::World;

/// Traces the packets through the run that the inputs ask for, and writes the table.
fn trace_box<W: World>(
    alloc: Global,
    world: &mut W,
    table: &Text,
    inputs: Inputs,
) -> Result<(), RunError>
    requires inputs { CanRun (script_of inputs) }
    requires room { (W.ledger world.old).given < 2 ^ 32 - 1 }
    ensures whole { (p : Start) → W.honest p world.new → OnOk result (HasTraced
        (drop_register inputs.conf.kind) (setting_for inputs) inputs.events table.now
        (W.shows p world.old) (W.shows p world.new)) }
    ensures limit { (p : Start) → W.honest p world.new → (limit : LimitKind)
        → result ≡ Err (RunError.Limit limit) → HasStopped (setting_for inputs) inputs.events limit
        (W.shows p world.old) (W.shows p world.new) }
    ensures in_order { (p : Start) → W.honest p world.new → HasBegunTrace
        (drop_register inputs.conf.kind) (setting_for inputs) inputs.events table.now
        (W.shows p world.old) (W.shows p world.new) }
    ensures writes_files { WritesFiles W.ledger W.healthy 1 world.old world.new }
    ensures cause { IsErrOf result RunError.WriteFault
        → WritingFailed W.ledger W.healthy world.old world.new }
    ensures before { (p : Start) → W.honest p world.new → W.honest p world.old }
{
    let register = inputs.conf.kind.drop_register();
    let run = ScriptRun {
        threads: inputs.conf.threads,
        tags: inputs.conf.tags,
        seed: inputs.conf.seed,
        unit: inputs.capture.unit,
        packets: inputs.capture.packets,
        events: inputs.events,
    };
    match inputs.conf.kind {
        BoxKind::Count(count) => run_trace(alloc, world, table, run, register, count),
        BoxKind::Monitor(monitor) => run_trace(alloc, world, table, run, register, monitor),
        BoxKind::Nat(nat) => run_trace(alloc, world, table, run, register, nat),
        BoxKind::Balancer(balancer) => run_trace(alloc, world, table, run, register, balancer),
    }
}

/// The command `trace`: all input files are judged before the table is created.
pub(crate) fn trace<W: World>(alloc: Global, world: &mut W, names: TraceWords<'_>) -> Status
    requires room { (W.ledger world.old).given < 2 ^ 31 }
    ensures { AnswersAs W.honest W.shows W.ledger W.healthy
        (trace_meaning (trace_names_of names.entry)) result world.old world.new }
{
    // The outputs of the run are not written: the table stands for both.
    let run = RunWords {
        box_file: names.box_file,
        capture: names.capture,
        script: names.script,
        released: names.table,
        schedule: names.table,
    };
    match read_inputs(alloc, world, run) {
        Ok(inputs) => run_outcome(trace_box(alloc, world, names.table, inputs)),
        Err(status) => status,
    }
}
