ghost use Rattle.std.specs.Prelude.{◌≡◌, ◌<◌, ◌-◌, ◌^◌, Err, OnOk, IsErrOf, true};
ghost use Rattle.plain_text.specs.declared.limit.Limit.{Limit as LimitKind};
ghost use Rattle.world_io.specs.World.{Start, WritingFailed};
ghost use Rattle.box_conf.specs.Kinds.{meaning_of};
ghost use Rattle.output_files.specs.Written.{WritesFiles};
ghost use Rattle.chain_command.specs.Headline.{KeepsChainPromise as KeepsBothPromises};
ghost use Rattle.chain_command.specs.Outputs.{AreApart, CanChain, names_of as output_names_of};
ghost use Rattle.chain_command.specs.Outputs.{first_setting, second_setting};
ghost use Rattle.chain_command.specs.Writes.{HasBegunChain, HasChained, HasStopped};
ghost use Rattle.job_commands.specs.ChainWords.{all_apart, chain_names_of};
ghost use Rattle.job_top.specs.Chain.{chain_of, chain_outputs, first_of, second_of};
ghost use Rattle.job_commands.specs.Answers.{AnswersAs};
ghost use Rattle.job_top.specs.Chain.{chain_meaning};

use box_conf::BoxKind;
use box_program::Program;
use chain_command::{ChainFiles, ChainRun, SystemShape, run_chain};
use job_commands::{ChainInputs, ChainWords, Status, read_chain_inputs, run_outcome};
use run_writes::RunError;
use std::alloc::Global;
use world_io::World;

/// Runs a chain whose first box is this program and whose second box is of this kind, and writes the outputs.
fn chain_behind<P: Program, W: World>(
    alloc: Global,
    world: &mut W,
    files: ChainFiles<'_>,
    run: ChainRun,
    first: P,
    second: BoxKind,
) -> Result<(), RunError>
    requires inputs { CanChain run }
    requires room { (W.ledger world.old).given < 2 ^ 32 - 4 }
    requires apart { AreApart (output_names_of files) }
    ensures whole { (p : Start) → W.honest p world.new → OnOk result (HasChained
        (first_setting (P.meaning first) run) (second_setting (meaning_of second).meaning run)
        (output_names_of files.entry) run.events (W.shows p world.old) (W.shows p world.new)) }
    ensures headline { (p : Start) → W.honest p world.new → OnOk result (KeepsBothPromises
        (first_setting (P.meaning first) run) (second_setting (meaning_of second).meaning run)
        (output_names_of files.entry) run.events (W.shows p world.new)) }
    ensures limit { (p : Start) → W.honest p world.new → (limit : LimitKind)
        → result ≡ Err (RunError.Limit limit) → HasStopped
        (first_setting (P.meaning first) run) (second_setting (meaning_of second).meaning run)
        (output_names_of files.entry) run.events limit
        (W.shows p world.old) (W.shows p world.new) }
    ensures in_order { (p : Start) → W.honest p world.new → HasBegunChain
        (first_setting (P.meaning first) run) (second_setting (meaning_of second).meaning run)
        (output_names_of files.entry) run.events (W.shows p world.old) (W.shows p world.new) }
    ensures writes_files { WritesFiles W.ledger W.healthy 4 world.old world.new }
    ensures cause { IsErrOf result RunError.WriteFault
        → WritingFailed W.ledger W.healthy world.old world.new }
    ensures before { (p : Start) → W.honest p world.new → W.honest p world.old }
{
    match second {
        BoxKind::Count(count) => run_chain(alloc, world, files, run, first, count),
        BoxKind::Monitor(monitor) => run_chain(alloc, world, files, run, first, monitor),
        BoxKind::Nat(nat) => run_chain(alloc, world, files, run, first, nat),
        BoxKind::Balancer(balancer) => run_chain(alloc, world, files, run, first, balancer),
    }
}

/// Runs a chain of boxes of these kinds, and writes the outputs.
fn chain_kinds<W: World>(
    alloc: Global,
    world: &mut W,
    files: ChainFiles<'_>,
    run: ChainRun,
    first: BoxKind,
    second: BoxKind,
) -> Result<(), RunError>
    requires inputs { CanChain run }
    requires room { (W.ledger world.old).given < 2 ^ 32 - 4 }
    requires apart { AreApart (output_names_of files) }
    ensures whole { (p : Start) → W.honest p world.new → OnOk result (HasChained
        (first_setting (meaning_of first).meaning run)
        (second_setting (meaning_of second).meaning run)
        (output_names_of files.entry) run.events (W.shows p world.old) (W.shows p world.new)) }
    ensures headline { (p : Start) → W.honest p world.new → OnOk result (KeepsBothPromises
        (first_setting (meaning_of first).meaning run)
        (second_setting (meaning_of second).meaning run)
        (output_names_of files.entry) run.events (W.shows p world.new)) }
    ensures limit { (p : Start) → W.honest p world.new → (limit : LimitKind)
        → result ≡ Err (RunError.Limit limit) → HasStopped
        (first_setting (meaning_of first).meaning run)
        (second_setting (meaning_of second).meaning run)
        (output_names_of files.entry) run.events limit
        (W.shows p world.old) (W.shows p world.new) }
    ensures in_order { (p : Start) → W.honest p world.new → HasBegunChain
        (first_setting (meaning_of first).meaning run)
        (second_setting (meaning_of second).meaning run)
        (output_names_of files.entry) run.events (W.shows p world.old) (W.shows p world.new) }
    ensures writes_files { WritesFiles W.ledger W.healthy 4 world.old world.new }
    ensures cause { IsErrOf result RunError.WriteFault
        → WritingFailed W.ledger W.healthy world.old world.new }
    ensures before { (p : Start) → W.honest p world.new → W.honest p world.old }
{
    match first {
        BoxKind::Count(count) => chain_behind(alloc, world, files, run, count, second),
        BoxKind::Monitor(monitor) => chain_behind(alloc, world, files, run, monitor, second),
        BoxKind::Nat(nat) => chain_behind(alloc, world, files, run, nat, second),
        BoxKind::Balancer(balancer) => chain_behind(alloc, world, files, run, balancer, second),
    }
}

/// Runs the two boxes on the inputs, and writes the outputs.
fn chain_boxes<W: World>(
    alloc: Global,
    world: &mut W,
    names: ChainWords<'_>,
    inputs: ChainInputs,
) -> Result<(), RunError>
    requires inputs { CanChain (chain_of inputs) }
    requires room { (W.ledger world.old).given < 2 ^ 32 - 4 }
    requires apart { AreApart (chain_outputs (chain_names_of names)) }
    ensures whole { (p : Start) → W.honest p world.new → OnOk result (HasChained
        (first_of inputs) (second_of inputs) (chain_outputs (chain_names_of names.entry))
        inputs.events (W.shows p world.old) (W.shows p world.new)) }
    ensures headline { (p : Start) → W.honest p world.new → OnOk result (KeepsBothPromises
        (first_of inputs) (second_of inputs) (chain_outputs (chain_names_of names.entry))
        inputs.events (W.shows p world.new)) }
    ensures limit { (p : Start) → W.honest p world.new → (limit : LimitKind)
        → result ≡ Err (RunError.Limit limit) → HasStopped
        (first_of inputs) (second_of inputs) (chain_outputs (chain_names_of names.entry))
        inputs.events limit (W.shows p world.old) (W.shows p world.new) }
    ensures in_order { (p : Start) → W.honest p world.new → HasBegunChain
        (first_of inputs) (second_of inputs) (chain_outputs (chain_names_of names.entry))
        inputs.events (W.shows p world.old) (W.shows p world.new) }
    ensures writes_files { WritesFiles W.ledger W.healthy 4 world.old world.new }
    ensures cause { IsErrOf result RunError.WriteFault
        → WritingFailed W.ledger W.healthy world.old world.new }
    ensures before { (p : Start) → W.honest p world.new → W.honest p world.old }
{
    let files = ChainFiles {
        middle: names.middle,
        released: names.released,
        first_schedule: names.first_schedule,
        second_schedule: names.second_schedule,
    };
    let boxes = inputs.source.boxes;
    let capture = inputs.source.capture;
    let run = ChainRun {
        first: SystemShape {
            threads: boxes.first.threads,
            tags: boxes.first.tags,
            seed: boxes.first.seed,
        },
        second: SystemShape {
            threads: boxes.second.threads,
            tags: boxes.second.tags,
            seed: boxes.second.seed,
        },
        unit: capture.unit,
        packets: capture.packets,
        events: inputs.events,
    };
    chain_kinds(
        alloc,
        world,
        files,
        run,
        boxes.first.kind,
        boxes.second.kind,
    )
}

/// The command `chain`: all input files are judged before an output is created.
pub(crate) fn chain<W: World>(alloc: Global, world: &mut W, names: ChainWords<'_>) -> Status
    requires room { (W.ledger world.old).given < 2 ^ 31 }
    requires apart { all_apart (chain_names_of names) ≡ true }
    ensures { AnswersAs W.honest W.shows W.ledger W.healthy
        (chain_meaning (chain_names_of names.entry)) result world.old world.new }
{
    match read_chain_inputs(alloc, world, names) {
        Ok(inputs) => run_outcome(chain_boxes(alloc, world, names, inputs)),
        Err(status) => status,
    }
}
