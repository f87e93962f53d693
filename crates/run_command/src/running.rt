ghost use Rattle.std.specs.Prelude.{◌≡◌, ◌∷◌, ◌++◌, [], List, IsTrue, OnOk, IsErrOf, false};
ghost use Rattle.world_io.specs.World.{Start, Shown, is_writable, WritingFailed};
ghost use Rattle.recovery_world.specs.declared.event.Event.{Event as EventKind};
ghost use Rattle.recovery_world.specs.World.{Setting};
ghost use Rattle.output_files.specs.Writes.{IsOutput, KeepsOutputs};
ghost use Rattle.output_files.specs.Written.{OnlyWrites};
ghost use Rattle.run_writes.specs.Replies.{Point};
ghost use Rattle.run_writes.specs.Run.{OutputNames};
ghost use Rattle.run_command.specs.Running.{GoesOn, HasCome, IsSomewhere};

use crate::{perform, write_performed};
use box_program::Program;
use plain_text::Bytes;
use recovery_core::System;
use recovery_world::Event;
use run_writes::RunError;
use std::alloc::Global;
use world_io::World;

/// Performs an event, and writes what it leaves: the records of what it released, and then its line, which may be
/// gathered. Where it stops at a limit, what it released before and all lines before it are written.
pub fn perform_event<P: Program, W: World>(
    alloc: Global,
    world: &mut W,
    file: u32,
    system: &mut System<P>,
    event: &Event,
    lines: &mut Bytes,
) -> Result<(), RunError>
    requires runs { system.old.stopped ≡ false }
    requires somewhere { IsSomewhere (P.meaning system.old.parts.program) system.old }
    requires writable { IsTrue (is_writable (W.ledger world.old) file) }
    ensures runs { OnOk result (system.new.stopped ≡ false) }
    ensures somewhere { OnOk result
        (IsSomewhere (P.meaning system.old.parts.program) system.new) }
    ensures program { OnOk result (system.new.parts.program ≡ system.old.parts.program) }
    ensures only_writes { OnlyWrites W.ledger W.healthy world.old world.new }
    ensures cause { IsErrOf result RunError.WriteFault
        → WritingFailed W.ledger W.healthy world.old world.new }
    ensures shows { (p : Start) → W.honest p world.new
        → (s : Setting P.Value) (from : Point P.Value) (names : OutputNames)
        (events : List EventKind) (before : Shown)
        → IsOutput file names.released (W.shows p world.old)
        → HasCome (P.meaning system.old.parts.program) s from names events system.old lines.old
        before (W.shows p world.old)
        → GoesOn result (P.meaning system.old.parts.program) s from names
        (events ++ event.now ∷ []) system.new lines.new before (W.shows p world.new) }
    ensures keeps { (p : Start) → W.honest p world.new
        → KeepsOutputs (W.shows p world.old) (W.shows p world.new) }
    ensures before { (p : Start) → W.honest p world.new → W.honest p world.old }
{
    let performed = perform(system, event);
    write_performed(alloc, world, file, lines, event, &performed)
}

/// Performs the events of a script, in order, and writes what each leaves before the next one's.
pub fn perform_events<P: Program, W: World>(
    alloc: Global,
    world: &mut W,
    file: u32,
    system: &mut System<P>,
    events: &[Event],
    lines: &mut Bytes,
) -> Result<(), RunError>
    requires runs { system.old.stopped ≡ false }
    requires somewhere { IsSomewhere (P.meaning system.old.parts.program) system.old }
    requires writable { IsTrue (is_writable (W.ledger world.old) file) }
    ensures runs { OnOk result (system.new.stopped ≡ false) }
    ensures somewhere { OnOk result
        (IsSomewhere (P.meaning system.old.parts.program) system.new) }
    ensures program { OnOk result (system.new.parts.program ≡ system.old.parts.program) }
    ensures only_writes { OnlyWrites W.ledger W.healthy world.old world.new }
    ensures cause { IsErrOf result RunError.WriteFault
        → WritingFailed W.ledger W.healthy world.old world.new }
    ensures shows { (p : Start) → W.honest p world.new
        → (s : Setting P.Value) (from : Point P.Value) (names : OutputNames) (before : Shown)
        → IsOutput file names.released (W.shows p world.old)
        → HasCome (P.meaning system.old.parts.program) s from names [] system.old lines.old before
        (W.shows p world.old)
        → GoesOn result (P.meaning system.old.parts.program) s from names events.now
        system.new lines.new before (W.shows p world.new) }
    ensures keeps { (p : Start) → W.honest p world.new
        → KeepsOutputs (W.shows p world.old) (W.shows p world.new) }
    ensures before { (p : Start) → W.honest p world.new → W.honest p world.old }
{
    for event in events {
        perform_event(alloc, world, file, system, event, lines)?;
    }
    Ok(())
}
