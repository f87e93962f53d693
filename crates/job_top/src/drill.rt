ghost use Rattle.std.specs.Prelude.{◌≡◌, ◌<◌, ◌≤◌, ◌-◌, ◌^◌, Err, OnOk, IsErrOf};
ghost use Rattle.plain_text.specs.declared.limit.Limit.{Limit as LimitKind};
ghost use Rattle.world_io.specs.World.{Start, WritingFailed};
ghost use Rattle.output_files.specs.Written.{WritesFiles};
ghost use Rattle.noted_runs.specs.Drill.{CanDrill, HasBegunDrill, HasDrilled, HasStopped};
ghost use Rattle.job_commands.specs.Words.{drill_names_of};
ghost use Rattle.job_top.specs.Drill.{drill_of, drill_outputs, drill_setting};
ghost use Rattle.job_top.specs.Drill.{has_drop_table as has_drop_table_of};
ghost use Rattle.job_commands.specs.Answers.{AnswersAs};
ghost use Rattle.job_top.specs.Drill.{drill_meaning};

use box_conf::BoxKind;
use job_commands::{DrillWords, FirstInputs, Status, read_first_inputs, run_outcome};
use noted_runs::{DrillRun, run_drill};
use run_writes::{RunError, RunFiles};
use std::alloc::Global;
use world_io::World;

/// Whether variable 0 of the box is a table of its drops.
fn has_drop_table(kind: &BoxKind) -> bool
    ensures { result ≡ has_drop_table_of kind.now }
{
    match kind {
        BoxKind::Count(_) | BoxKind::Monitor(_) => false,
        BoxKind::Nat(_) | BoxKind::Balancer(_) => true,
    }
}

/// Drills the box on the inputs, and writes the outputs.
fn drill_box<W: World>(
    alloc: Global,
    world: &mut W,
    names: DrillWords<'_>,
    inputs: FirstInputs,
) -> Result<(), RunError>
    requires inputs { CanDrill (drill_of (drill_names_of names) inputs) }
    requires room { (W.ledger world.old).given < 2 ^ 32 - 2 }
    requires apart { names.released.now ≡ names.schedule.now → ⊥ }
    ensures whole { (p : Start) → W.honest p world.new → OnOk result (HasDrilled
        (drill_setting (drill_names_of names.entry) inputs) names.entry.every
        (has_drop_table_of inputs.conf.kind) (drill_outputs (drill_names_of names.entry))
        (W.shows p world.old) (W.shows p world.new)) }
    ensures limit { (p : Start) → W.honest p world.new → (limit : LimitKind)
        → result ≡ Err (RunError.Limit limit) → HasStopped
        (drill_setting (drill_names_of names.entry) inputs) names.entry.every
        (drill_outputs (drill_names_of names.entry)) limit
        (W.shows p world.old) (W.shows p world.new) }
    ensures in_order { (p : Start) → W.honest p world.new → HasBegunDrill
        (drill_setting (drill_names_of names.entry) inputs) names.entry.every
        (has_drop_table_of inputs.conf.kind) (drill_outputs (drill_names_of names.entry))
        (W.shows p world.old) (W.shows p world.new) }
    ensures writes_files { WritesFiles W.ledger W.healthy 2 world.old world.new }
    ensures cause { IsErrOf result RunError.WriteFault
        → WritingFailed W.ledger W.healthy world.old world.new }
    ensures before { (p : Start) → W.honest p world.new → W.honest p world.old }
{
    let files = RunFiles {
        released: names.released,
        schedule: names.schedule,
    };
    let run = DrillRun {
        threads: inputs.conf.threads,
        tags: inputs.conf.tags,
        seed: inputs.conf.seed,
        unit: inputs.capture.unit,
        packets: inputs.capture.packets,
        every: names.every,
        table: has_drop_table(&inputs.conf.kind),
    };
    match inputs.conf.kind {
        BoxKind::Count(count) => run_drill(alloc, world, files, run, count),
        BoxKind::Monitor(monitor) => run_drill(alloc, world, files, run, monitor),
        BoxKind::Nat(nat) => run_drill(alloc, world, files, run, nat),
        BoxKind::Balancer(balancer) => run_drill(alloc, world, files, run, balancer),
    }
}

/// The command `drill`: both input files are judged before an output is created.
pub(crate) fn drill<W: World>(alloc: Global, world: &mut W, names: DrillWords<'_>) -> Status
    requires room { (W.ledger world.old).given < 2 ^ 31 }
    requires some { 1 ≤ names.every }
    requires apart { names.released.now ≡ names.schedule.now → ⊥ }
    ensures { AnswersAs W.honest W.shows W.ledger W.healthy
        (drill_meaning (drill_names_of names.entry)) result world.old world.new }
{
    match read_first_inputs(alloc, world, names.box_file, names.capture) {
        Ok(inputs) => run_outcome(drill_box(alloc, world, names, inputs)),
        Err(status) => status,
    }
}
