ghost use Rattle.std.specs.Prelude.{◌≡◌, ◌<◌, ◌-◌, ◌^◌, Err, OnOk, IsErrOf};
ghost use Rattle.plain_text.specs.declared.limit.Limit.{Limit as LimitKind};
ghost use Rattle.world_io.specs.World.{Start, WritingFailed};
ghost use Rattle.handover_world.specs.declared.unready.Unready.{Unready as UnreadyKind};
ghost use Rattle.output_files.specs.Written.{WritesFiles};
ghost use Rattle.run_writes.specs.Run.{CanRun};
ghost use Rattle.hand_command.specs.Hand.{HasBegunHand, HasHanded, IsNotReady};
ghost use Rattle.job_commands.specs.Run.{script_of, setting_for};
ghost use Rattle.job_commands.specs.HandWords.{hand_names_of};
ghost use Rattle.job_top.specs.Hand.{PassesLimit, hand_outputs};
ghost use Rattle.job_top.specs.Hand.{hand_outcome as hand_outcome_of};
ghost use Rattle.job_commands.specs.Answers.{AnswersAs};
ghost use Rattle.job_top.specs.Hand.{hand_meaning};

use box_conf::BoxKind;
use hand_command::{HandError, HandFiles, run_hand};
use job_commands::{HandWords, Inputs, RunWords, Status, read_inputs};
use run_writes::ScriptRun;
use std::alloc::Global;
use world_io::World;

/// What `hand` comes to.
fn hand_outcome(hand: Result<(), HandError>) -> Status
    ensures { result ≡ hand_outcome_of hand }
{
    match hand {
        Ok(()) => Status::Done,
        Err(HandError::Limit(limit)) => Status::TooLarge(limit),
        Err(HandError::WriteFault) => Status::WriteFault,
        Err(HandError::NoMemory) => Status::NoMemory,
        Err(HandError::Unready(unready)) => Status::Unready(unready),
    }
}

/// Runs the box on the inputs, by the events of the script, and hands the system over.
fn hand_box<W: World>(
    alloc: Global,
    world: &mut W,
    names: HandWords<'_>,
    inputs: Inputs,
) -> Result<(), HandError>
    requires inputs { CanRun (script_of inputs) }
    requires room { (W.ledger world.old).given < 2 ^ 32 - 2 }
    requires apart { names.released.now ≡ names.handover.now → ⊥ }
    ensures whole { (p : Start) → W.honest p world.new → OnOk result (HasHanded
        inputs.conf.seal (setting_for inputs) (hand_outputs (hand_names_of names.entry))
        inputs.events (W.shows p world.old) (W.shows p world.new)) }
    ensures unready { (p : Start) → W.honest p world.new → (unready : UnreadyKind)
        → result ≡ Err (HandError.Unready unready) → IsNotReady
        (setting_for inputs) (hand_outputs (hand_names_of names.entry)) inputs.events
        unready (W.shows p world.old) (W.shows p world.new) }
    ensures limit { (p : Start) → W.honest p world.new → (limit : LimitKind)
        → result ≡ Err (HandError.Limit limit) → PassesLimit
        inputs (hand_outputs (hand_names_of names.entry)) limit
        (W.shows p world.old) (W.shows p world.new) }
    ensures in_order { (p : Start) → W.honest p world.new → HasBegunHand
        inputs.conf.seal (setting_for inputs) (hand_outputs (hand_names_of names.entry))
        inputs.events (W.shows p world.old) (W.shows p world.new) }
    ensures writes_files { WritesFiles W.ledger W.healthy 2 world.old world.new }
    ensures cause { IsErrOf result HandError.WriteFault
        → WritingFailed W.ledger W.healthy world.old world.new }
    ensures before { (p : Start) → W.honest p world.new → W.honest p world.old }
{
    let files = HandFiles {
        released: names.released,
        handover: names.handover,
    };
    let seal = inputs.conf.seal;
    let run = ScriptRun {
        threads: inputs.conf.threads,
        tags: inputs.conf.tags,
        seed: inputs.conf.seed,
        unit: inputs.capture.unit,
        packets: inputs.capture.packets,
        events: inputs.events,
    };
    match inputs.conf.kind {
        BoxKind::Count(count) => run_hand(alloc, world, files, seal, run, count),
        BoxKind::Monitor(monitor) => run_hand(alloc, world, files, seal, run, monitor),
        BoxKind::Nat(nat) => run_hand(alloc, world, files, seal, run, nat),
        BoxKind::Balancer(balancer) => run_hand(alloc, world, files, seal, run, balancer),
    }
}

/// The command `hand`: all input files are judged before an output is created.
pub(crate) fn hand<W: World>(alloc: Global, world: &mut W, names: HandWords<'_>) -> Status
    requires room { (W.ledger world.old).given < 2 ^ 31 }
    requires apart { names.released.now ≡ names.handover.now → ⊥ }
    ensures { AnswersAs W.honest W.shows W.ledger W.healthy
        (hand_meaning (hand_names_of names.entry)) result world.old world.new }
{
    // The text of the handover stands where a run has its schedule.
    let run = RunWords {
        box_file: names.box_file,
        capture: names.capture,
        script: names.script,
        released: names.released,
        schedule: names.handover,
    };
    match read_inputs(alloc, world, run) {
        Ok(inputs) => hand_outcome(hand_box(alloc, world, names, inputs)),
        Err(status) => status,
    }
}
