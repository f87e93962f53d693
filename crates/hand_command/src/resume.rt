ghost use Rattle.std.specs.Prelude.{◌≡◌, ◌<◌, ◌-◌, ◌^◌, OnOk, IsErrOf, Err};
ghost use Rattle.plain_text.specs.declared.limit.Limit.{Limit as LimitKind};
ghost use Rattle.world_io.specs.World.{Start, WritingFailed};
ghost use Rattle.handover_world.specs.declared.fault.ResumeError.{ResumeError};
ghost use Rattle.handover_world.specs.Faults.{HasNoFault, IsFault};
ghost use Rattle.recovery_world.specs.World.{World as SystemWorld};
ghost use Rattle.output_files.specs.Written.{WritesFiles};
ghost use Rattle.run_writes.specs.Replies.{at_world};
ghost use Rattle.run_writes.specs.Run.{CanRun, HasBegunFrom, KeepsShown, names_of, setting_of};
ghost use Rattle.hand_command.specs.Hand.{IsHandedOver};
ghost use Rattle.hand_command.specs.Resume.{HasHalted, HasResumed};

use crate::error::{GoOnError, gone_on};
use box_program::Program;
use handover::Image;
use run_command::{System, run_from};
use run_writes::{RunFiles, ScriptRun};
use std::alloc::Global;
use world_io::World;

/// Goes on from an image, by the events of a script, on the packets of the capture that it was handed over on, and
/// writes the outputs, as `run_script` does: the released capture has what these events release.
///
/// Before an output is created the image is judged. Where it has a fault, nothing is written.
pub fn run_resume<P: Program, W: World>(
    alloc: Global,
    world: &mut W,
    files: RunFiles<'_>,
    run: ScriptRun,
    program: P,
    image: &Image,
) -> Result<(), GoOnError>
    requires inputs { CanRun run }
    requires room { (W.ledger world.old).given < 2 ^ 32 - 2 }
    requires apart { files.released.now ≡ files.schedule.now → ⊥ }
    ensures writes_files { WritesFiles W.ledger W.healthy 2 world.old world.new }
    ensures cause { IsErrOf result GoOnError.WriteFault
        → WritingFailed W.ledger W.healthy world.old world.new }
    ensures fault { (fault : ResumeError) → result ≡ Err (GoOnError.Fault fault)
        → IsFault (setting_of (P.meaning program) run) image.now fault }
    ensures nothing { (p : Start) → (fault : ResumeError) → result ≡ Err (GoOnError.Fault fault)
        → KeepsShown (W.shows p world.old) (W.shows p world.new) }
    ensures no_fault { OnOk result (HasNoFault (setting_of (P.meaning program) run) image.now) }
    ensures some { OnOk result ((w : SystemWorld P.Value)
        × IsHandedOver (setting_of (P.meaning program) run) w image.now) }
    ensures whole { (p : Start) → W.honest p world.new
        → (w : SystemWorld P.Value) → IsHandedOver (setting_of (P.meaning program) run) w image.now
        → OnOk result (HasResumed (setting_of (P.meaning program) run) w
        (names_of files.entry) run.events (W.shows p world.old) (W.shows p world.new)) }
    ensures limit { (p : Start) → W.honest p world.new
        → (w : SystemWorld P.Value) → IsHandedOver (setting_of (P.meaning program) run) w image.now
        → (limit : LimitKind) → result ≡ Err (GoOnError.Limit limit)
        → HasHalted (setting_of (P.meaning program) run) w (names_of files.entry) run.events limit
        (W.shows p world.old) (W.shows p world.new) }
    ensures in_order { (p : Start) → W.honest p world.new
        → (w : SystemWorld P.Value) → IsHandedOver (setting_of (P.meaning program) run) w image.now
        → HasBegunFrom (setting_of (P.meaning program) run) (at_world w)
        (names_of files.entry) run.events (W.shows p world.old) (W.shows p world.new) }
    ensures before { (p : Start) → W.honest p world.new → W.honest p world.old }
{
    let system = System::resume(
        alloc,
        program,
        run.threads,
        run.tags,
        run.seed,
        run.unit,
        run.packets,
        image,
    )?;
    let events = run.events.as_slice();
    gone_on(run_from(alloc, world, files, run.unit, events, system))
}
