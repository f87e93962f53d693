//! An event is performed and told: its line goes to the script, and what it leaves to the other outputs.
ghost use Rattle.std.specs.Prelude.{◌≡◌, ◌∷◌, ◌++◌, ◌≤◌, [], List, ℕ, All, length, OnOk, IsTrue};
ghost use Rattle.std.specs.Prelude.{IsErrOf};
ghost use Rattle.std.specs.Prelude.{false};
ghost use Rattle.plain_text.specs.Packets.{IsShort};
ghost use Rattle.plain_text.specs.declared.limit.TheConstants.{MOST_EVENTS as most_events};
ghost use Rattle.plain_text.specs.declared.limit.TheConstants.{MOST_FILE_BYTES as most_bytes};
ghost use Rattle.world_io.specs.World.{Start, Shown, is_writable, WritingFailed};
ghost use Rattle.recovery_world.specs.declared.event.Event.{Event as EventKind};
ghost use Rattle.recovery_world.specs.World.{Setting, World as SystemWorld};
ghost use Rattle.std.specs.Result.{IsOk};
ghost use Rattle.plain_machine.specs.Program.{Meaning};
ghost use Rattle.run_command.specs.FromRecoveryCore.{Systemed};
ghost use Rattle.output_files.specs.Writes.{KeepsOutputs};
ghost use Rattle.output_files.specs.Written.{OnlyWrites};
ghost use Rattle.run_writes.specs.Replies.{packets_in};
ghost use Rattle.run_command.specs.Running.{ComesTo, IsSomewhere, IsSystemAt};
ghost use Rattle.live_writes.specs.Outputs.{AreApart, LiveOutputs};
ghost use Rattle.live_writes.specs.Told.{AreOpen, HasTold};
ghost use Rattle.live_command.specs.Going.{GoesOver, HasLivedTo, MovesBy};

use crate::writing::{add_line, gather, write_script};
use box_program::Program;
use event_replies::put_line;
use live_writes::{LiveNumbers, Script};
use plain_text::Bytes;
use recovery_world::Event;
use run_command::{Performed, System, perform, write_performed};
use run_writes::{RunError, written};
use std::alloc::Global;
use world_io::World;

/// Writes what an event left whose line of the script is gathered: where it released nothing its line of the report is
/// gathered too.
fn leave<P: Program, W: World>(
    alloc: Global,
    world: &mut W,
    files: LiveNumbers,
    lines: &mut Bytes,
    script: &mut Script,
    event: &Event,
    performed: &Performed,
) -> Result<(), RunError>
    requires short { All IsShort (packets_in performed.now.outputs) }
    requires released { IsTrue (is_writable (W.ledger world.old) files.released) }
    requires script { IsTrue (is_writable (W.ledger world.old) files.script) }
    ensures told { (p : Start) → W.honest p world.new → (m : Meaning P.Value) (s : Setting P.Value)
        (names : LiveOutputs) (events : List EventKind) (w : SystemWorld P.Value)
        (old new : Systemed P P.Value) (before : Shown) → AreApart names
        → AreOpen names files.released files.schedule files.script (W.shows p world.old)
        → HasTold s names events (events ++ event.now ∷ []) w lines.old script.old before
        (W.shows p world.old)
        → ComesTo m event.now performed.now.reply performed.now.outputs old new
        → IsSystemAt m s w old → s.threads ≤ 16
        → GoesOver result m s names w events (event.now ∷ []) new lines.new script.new before
        (W.shows p world.new) }
    ensures gathered { OnOk result
        ((length lines.new ≤ 65536) × (length script.new.text ≤ 65536)) }
    ensures ended { OnOk result (IsOk performed.now.reply) }
    ensures count { script.new.count ≡ script.old.count }
    ensures size { script.new.size ≡ script.old.size }
    ensures only_writes { OnlyWrites W.ledger W.healthy world.old world.new }
    ensures cause { IsErrOf result RunError.WriteFault
        → WritingFailed W.ledger W.healthy world.old world.new }
    ensures keeps { (p : Start) → W.honest p world.new
        → KeepsOutputs (W.shows p world.old) (W.shows p world.new) }
    ensures before { (p : Start) → W.honest p world.new → W.honest p world.old }
{
    match &performed.reply {
        Ok(reply) if performed.outputs.is_empty() => {
            let line = put_line(alloc, event, reply)?;
            let line = line.as_str().as_bytes();
            written(gather::<P::Value, W>(world, files.script, lines, script, line))
        }
        _ => {
            write_script::<P::Value, W>(world, files.script, script)?;
            write_performed(alloc, world, files.released, lines, event, performed)
        }
    }
}

/// Performs an event and tells of it. Where the script would pass a limit with its line, nothing of it is told.
pub(crate) fn tell<P: Program, W: World>(
    alloc: Global,
    world: &mut W,
    files: LiveNumbers,
    lines: &mut Bytes,
    script: &mut Script,
    system: &mut System<P>,
    event: &Event,
) -> Result<(), RunError>
    requires runs { system.old.stopped ≡ false }
    requires somewhere { IsSomewhere (P.meaning system.old.parts.program) system.old }
    requires released { IsTrue (is_writable (W.ledger world.old) files.released) }
    requires script { IsTrue (is_writable (W.ledger world.old) files.script) }
    requires few { script.old.count ≤ most_events }
    requires short { script.old.size ≤ most_bytes }
    ensures told { (p : Start) → W.honest p world.new → (s : Setting P.Value) (names : LiveOutputs)
        (events : List EventKind) (w : SystemWorld P.Value) (before : Shown) → AreApart names
        → AreOpen names files.released files.schedule files.script (W.shows p world.old)
        → HasLivedTo (P.meaning system.old.parts.program) s names events w system.old lines.old
        script.old before (W.shows p world.old)
        → GoesOver result (P.meaning system.old.parts.program) s names w events
        (event.now ∷ []) system.new lines.new script.new before (W.shows p world.new) }
    ensures gathered { OnOk result
        ((length lines.new ≤ 65536) × (length script.new.text ≤ 65536)) }
    ensures few { script.new.count ≤ most_events }
    ensures short { script.new.size ≤ most_bytes }
    ensures runs { OnOk result (system.new.stopped ≡ false) }
    ensures somewhere { OnOk result
        (IsSomewhere (P.meaning system.old.parts.program) system.new) }
    ensures program { OnOk result (system.new.parts.program ≡ system.old.parts.program) }
    ensures threads { OnOk result
        (system.new.parts.inputs.threads ≡ system.old.parts.inputs.threads) }
    ensures moves { OnOk result
        (MovesBy (P.meaning system.old.parts.program) (event.now ∷ []) system.old system.new) }
    ensures only_writes { OnlyWrites W.ledger W.healthy world.old world.new }
    ensures cause { IsErrOf result RunError.WriteFault
        → WritingFailed W.ledger W.healthy world.old world.new }
    ensures keeps { (p : Start) → W.honest p world.new
        → KeepsOutputs (W.shows p world.old) (W.shows p world.new) }
    ensures before { (p : Start) → W.honest p world.new → W.honest p world.old }
{
    let performed = perform(system, event);
    add_line::<P::Value, W>(world, files.script, lines, script, event)?;
    leave::<P, W>(alloc, world, files, lines, script, event, &performed)
}
