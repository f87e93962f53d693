ghost use Rattle.std.specs.Prelude.{◌≡◌, ◌<◌, ◌++◌, ◌-◌, ◌^◌, ◌⊎◌, ℕ, List, [], Option, OnOk};
ghost use Rattle.std.specs.Prelude.{IsErrOf};
ghost use Rattle.std.specs.Prelude.{Err, false};
ghost use Rattle.plain_text.specs.declared.limit.Limit.{Limit as LimitKind};
ghost use Rattle.world_io.specs.World.{Start, WritingFailed};
ghost use Rattle.handover_seal.specs.Seals.{AreSeals};
ghost use Rattle.handover_world.specs.declared.unready.Unready.{Unready as UnreadyKind};
ghost use Rattle.recovery_world.specs.World.{Setting, opening};
ghost use Rattle.output_files.specs.Written.{WritesFiles};
ghost use Rattle.run_writes.specs.Run.{CanRun, HasStopped, setting_of};
ghost use Rattle.run_command.specs.Running.{IsSomewhere, IsSystemAt};
ghost use Rattle.hand_command.specs.Hand.{HasBegunHand, HasHanded, IsNotReady, IsTooLong};
ghost use Rattle.hand_command.specs.Hand.{names_of, resting};
ghost use Rattle.hand_command.specs.Handing.{EndsHand};

use crate::error::HandError;
use crate::handing::end_hand;
use box_program::Program;
use handover_seal::Seals;
use plain_text::{Bytes, Text, Unit};
use recovery_world::Event;
use run_command::{System, write_events};
use run_writes::{RunFiles, ScriptRun};
use std::alloc::Global;
use world_io::World;

/// The names of the two outputs of a hand-over, which differ.
#[derive(Clone, Copy)]
pub struct HandFiles<'a> {
    /// The name of the capture of released packets.
    pub released: &'a Text,
    /// The name of the text of the image.
    pub handover: &'a Text,
}

/// Creates the outputs, performs the events of a script and writes what each leaves, and hands the system over.
fn hand_over<P: Program, W: World>(
    alloc: Global,
    world: &mut W,
    files: HandFiles<'_>,
    unit: Unit,
    events: &[Event],
    system: &mut System<P>,
    seals: &Seals,
) -> Result<(), HandError>
    requires room { (W.ledger world.old).given < 2 ^ 32 - 2 }
    requires apart { files.released.now ≡ files.handover.now → ⊥ }
    requires runs { system.old.stopped ≡ false }
    requires somewhere { IsSomewhere (P.meaning system.old.parts.program) system.old }
    ensures writes_files { WritesFiles W.ledger W.healthy 2 world.old world.new }
    ensures cause { IsErrOf result HandError.WriteFault
        → WritingFailed W.ledger W.healthy world.old world.new }
    ensures shows { (p : Start) → W.honest p world.new
        → (s : Setting P.Value) (seal : Option (List ℕ))
        → AreSeals seal s.fractions s.packets seals.now → s.fractions ≡ unit
        → IsSystemAt (P.meaning system.old.parts.program) s (opening P.Value) system.old
        → EndsHand result seal s (names_of files.entry) events.now
        (W.shows p world.old) (W.shows p world.new) }
    ensures before { (p : Start) → W.honest p world.new → W.honest p world.old }
{
    let mut lines = Bytes::new(alloc);
    let names = RunFiles {
        released: files.released,
        schedule: files.handover,
    };
    let outputs = write_events(alloc, world, names, unit, events, system, &mut lines)?;
    end_hand(alloc, world, outputs, system, &mut lines, seals)
}

/// Runs a program on the packets, by the events of a script, and hands the system over behind the last one.
///
/// The released capture is created first and gets its header, and then the text of the image. After each event the
/// records of what it released are written, and then its line of the report, as by `run_script`. Where the system is
/// ready behind the last event, a snapshot is made and stored, the master crashes and a new one recovers, as by events
/// of the script; then the image is written, and the last line. Where it is not, or where the text of the image would be
/// larger than a file that is read may be, or have more lines, no image is written and no last line.
/// Where the box is sealed, whose file has this digest, its seal is put in front of the image.
pub fn run_hand<P: Program, W: World>(
    alloc: Global,
    world: &mut W,
    files: HandFiles<'_>,
    seal: Option<[u8; 32]>,
    run: ScriptRun,
    program: P,
) -> Result<(), HandError>
    requires inputs { CanRun run }
    requires room { (W.ledger world.old).given < 2 ^ 32 - 2 }
    requires apart { files.released.now ≡ files.handover.now → ⊥ }
    ensures writes_files { WritesFiles W.ledger W.healthy 2 world.old world.new }
    ensures cause { IsErrOf result HandError.WriteFault
        → WritingFailed W.ledger W.healthy world.old world.new }
    ensures whole { (p : Start) → W.honest p world.new
        → OnOk result (HasHanded seal (setting_of (P.meaning program) run)
        (names_of files.entry) run.events (W.shows p world.old) (W.shows p world.new)) }
    ensures unready { (p : Start) → W.honest p world.new
        → (unready : UnreadyKind) → result ≡ Err (HandError.Unready unready)
        → IsNotReady (setting_of (P.meaning program) run) (names_of files.entry) run.events
        unready (W.shows p world.old) (W.shows p world.new) }
    ensures limit { (p : Start) → W.honest p world.new
        → (limit : LimitKind) → result ≡ Err (HandError.Limit limit)
        → HasStopped (setting_of (P.meaning program) run) (names_of files.entry)
        (run.events ++ resting) limit (W.shows p world.old) (W.shows p world.new)
        ⊎ IsTooLong seal (setting_of (P.meaning program) run) (names_of files.entry)
        run.events limit (W.shows p world.old) (W.shows p world.new) }
    ensures in_order { (p : Start) → W.honest p world.new
        → HasBegunHand seal (setting_of (P.meaning program) run)
        (names_of files.entry) run.events (W.shows p world.old) (W.shows p world.new) }
    ensures before { (p : Start) → W.honest p world.new → W.honest p world.old }
{
    let seals = Seals::of(alloc, seal, run.unit, run.packets.as_slice())?;
    let mut system = System::new(
        alloc,
        program,
        run.threads,
        run.tags,
        run.seed,
        run.unit,
        run.packets,
    )?;
    let events = run.events.as_slice();
    let ended = hand_over(alloc, world, files, run.unit, events, &mut system, &seals);
    system.discard();
    ended
}
