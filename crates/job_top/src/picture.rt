ghost use Rattle.std.specs.Prelude.{◌≡◌, ◌<◌, ◌-◌, ◌^◌, Err, OnOk, IsErrOf};
ghost use Rattle.plain_text.specs.declared.limit.Limit.{Limit as LimitKind};
ghost use Rattle.world_io.specs.World.{Start, WritingFailed};
ghost use Rattle.output_files.specs.Written.{WritesFiles};
ghost use Rattle.run_writes.specs.Run.{CanRun};
ghost use Rattle.noted_runs.specs.Picture.{HasBegunPicture, HasPictured, HasStopped};
ghost use Rattle.job_commands.specs.Run.{script_of, setting_for};
ghost use Rattle.job_commands.specs.Words.{picture_names_of};
ghost use Rattle.job_commands.specs.Answers.{AnswersAs};
ghost use Rattle.job_top.specs.Picture.{picture_meaning};

use box_conf::BoxKind;
use job_commands::{Inputs, PictureWords, RunWords, Status, read_inputs, run_outcome};
use noted_runs::run_picture;
use plain_text::Text;
use run_writes::{RunError, ScriptRun};
use std::alloc::Global;
use world_io::World;

/// Performs the run that the inputs ask for, and draws its picture under this name, with this title.
fn draw_box<W: World>(
    alloc: Global,
    world: &mut W,
    name: &Text,
    title: &Text,
    inputs: Inputs,
) -> Result<(), RunError>
    requires inputs { CanRun (script_of inputs) }
    requires room { (W.ledger world.old).given < 2 ^ 32 - 1 }
    ensures whole { (p : Start) → W.honest p world.new → OnOk result (HasPictured title.now
        (setting_for inputs) inputs.events name.now (W.shows p world.old) (W.shows p world.new)) }
    ensures limit { (p : Start) → W.honest p world.new → (limit : LimitKind)
        → result ≡ Err (RunError.Limit limit) → HasStopped (setting_for inputs) inputs.events limit
        (W.shows p world.old) (W.shows p world.new) }
    ensures in_order { (p : Start) → W.honest p world.new → HasBegunPicture title.now
        (setting_for inputs) inputs.events name.now (W.shows p world.old) (W.shows p world.new) }
    ensures writes_files { WritesFiles W.ledger W.healthy 1 world.old world.new }
    ensures cause { IsErrOf result RunError.WriteFault
        → WritingFailed W.ledger W.healthy world.old world.new }
    ensures before { (p : Start) → W.honest p world.new → W.honest p world.old }
{
    let run = ScriptRun {
        threads: inputs.conf.threads,
        tags: inputs.conf.tags,
        seed: inputs.conf.seed,
        unit: inputs.capture.unit,
        packets: inputs.capture.packets,
        events: inputs.events,
    };
    match inputs.conf.kind {
        BoxKind::Count(count) => run_picture(alloc, world, name, title, run, count),
        BoxKind::Monitor(monitor) => run_picture(alloc, world, name, title, run, monitor),
        BoxKind::Nat(nat) => run_picture(alloc, world, name, title, run, nat),
        BoxKind::Balancer(balancer) => run_picture(alloc, world, name, title, run, balancer),
    }
}

/// The command `picture`: all input files are judged before the picture is created.
pub(crate) fn picture<W: World>(alloc: Global, world: &mut W, names: PictureWords<'_>) -> Status
    requires room { (W.ledger world.old).given < 2 ^ 31 }
    ensures { AnswersAs W.honest W.shows W.ledger W.healthy
        (picture_meaning (picture_names_of names.entry)) result world.old world.new }
{
    // The outputs of the run are not written: the picture stands for both.
    let run = RunWords {
        box_file: names.box_file,
        capture: names.capture,
        script: names.script,
        released: names.picture,
        schedule: names.picture,
    };
    match read_inputs(alloc, world, run) {
        Ok(inputs) => run_outcome(draw_box(alloc, world, names.picture, names.box_file, inputs)),
        Err(status) => status,
    }
}
