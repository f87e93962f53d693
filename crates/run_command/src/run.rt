ghost use Rattle.std.specs.Prelude.{◌≡◌, ◌<◌, ◌-◌, ◌^◌, [], IfOk, IsTrue, OnOk, IsErrOf, Err};
ghost use Rattle.std.specs.Prelude.{false};
ghost use Rattle.plain_text.specs.declared.limit.Limit.{Limit as LimitKind};
ghost use Rattle.world_io.specs.World.{Start, is_writable, WritingFailed};
ghost use Rattle.recovery_world.specs.World.{Setting, World as SystemWorld};
ghost use Rattle.output_files.specs.Writes.{IsOutput};
ghost use Rattle.output_files.specs.Written.{WritesFiles};
ghost use Rattle.run_writes.specs.Replies.{at_world};
ghost use Rattle.run_writes.specs.Run.{CanRun, HasBegunRun, HasRun, HasStopped, names_of};
ghost use Rattle.run_writes.specs.Run.{setting_of};
ghost use Rattle.run_command.specs.Running.{GoesOn, IsSystemAt, IsSomewhere, RunsFrom};

use crate::{close_run, perform_events};
use box_program::Program;
use plain_text::{Bytes, Unit};
use recovery_core::System;
use recovery_world::Event;
use run_writes::{OutputFiles, RunError, RunFiles, ScriptRun, open_outputs, written};
use std::alloc::Global;
use world_io::World;

/// Creates the outputs, and performs the events of a script and writes what each leaves. Gives the numbers of the
/// outputs.
pub fn write_events<P: Program, W: World>(
    alloc: Global,
    world: &mut W,
    files: RunFiles<'_>,
    unit: Unit,
    events: &[Event],
    system: &mut System<P>,
    lines: &mut Bytes,
) -> Result<OutputFiles, RunError>
    requires room { (W.ledger world.old).given < 2 ^ 32 - 2 }
    requires apart { files.released.now ≡ files.schedule.now → ⊥ }
    requires runs { system.old.stopped ≡ false }
    requires somewhere { IsSomewhere (P.meaning system.old.parts.program) system.old }
    requires none { lines.old ≡ [] }
    ensures writable { IfOk result
        (λ o. IsTrue (is_writable (W.ledger world.new) o.released)
        × IsTrue (is_writable (W.ledger world.new) o.schedule)) }
    ensures runs { OnOk result (system.new.stopped ≡ false) }
    ensures somewhere { OnOk result
        (IsSomewhere (P.meaning system.old.parts.program) system.new) }
    ensures program { OnOk result (system.new.parts.program ≡ system.old.parts.program) }
    ensures writes_files { WritesFiles W.ledger W.healthy 2 world.old world.new }
    ensures cause { IsErrOf result RunError.WriteFault
        → WritingFailed W.ledger W.healthy world.old world.new }
    ensures shows { (p : Start) → W.honest p world.new
        → (s : Setting P.Value) (from : SystemWorld P.Value) → s.fractions ≡ unit
        → IsSystemAt (P.meaning system.old.parts.program) s from system.old
        → GoesOn result (P.meaning system.old.parts.program) s (at_world from)
        (names_of files.entry) events.now
        system.new lines.new (W.shows p world.old) (W.shows p world.new) }
    ensures released { (p : Start) → W.honest p world.new
        → IfOk result
        (λ o. IsOutput o.released (names_of files.entry).released (W.shows p world.new)) }
    ensures schedule { (p : Start) → W.honest p world.new
        → IfOk result
        (λ o. IsOutput o.schedule (names_of files.entry).schedule (W.shows p world.new)) }
    ensures before { (p : Start) → W.honest p world.new → W.honest p world.old }
{
    let outputs = open_outputs(world, files, unit)?;
    perform_events(alloc, world, outputs.released, system, events, lines)?;
    Ok(outputs)
}

/// Runs the events of a script from where a system is, and writes the outputs, from their creation to the last line.
pub fn run_from<P: Program, W: World>(
    alloc: Global,
    world: &mut W,
    files: RunFiles<'_>,
    unit: Unit,
    events: &[Event],
    system: System<P>,
) -> Result<(), RunError>
    requires room { (W.ledger world.old).given < 2 ^ 32 - 2 }
    requires apart { files.released.now ≡ files.schedule.now → ⊥ }
    requires runs { system.stopped ≡ false }
    requires somewhere { IsSomewhere (P.meaning system.parts.program) system }
    ensures writes_files { WritesFiles W.ledger W.healthy 2 world.old world.new }
    ensures cause { IsErrOf result RunError.WriteFault
        → WritingFailed W.ledger W.healthy world.old world.new }
    ensures shows { (p : Start) → W.honest p world.new
        → (s : Setting P.Value) (from : SystemWorld P.Value) → s.fractions ≡ unit
        → IsSystemAt (P.meaning system.parts.program) s from system
        → RunsFrom result s (at_world from) (names_of files.entry) events.now
        (W.shows p world.old) (W.shows p world.new) }
    ensures before { (p : Start) → W.honest p world.new → W.honest p world.old }
{
    let mut system = system;
    let mut lines = Bytes::new(alloc);
    match write_events(alloc, world, files, unit, events, &mut system, &mut lines) {
        Ok(outputs) => {
            let ended = close_run(alloc, world, outputs.schedule, system, &mut lines);
            written(ended)
        }
        Err(error) => {
            system.discard();
            Err(error)
        }
    }
}

/// Runs a program on the packets, by the events of a script, and writes the outputs.
///
/// The released capture is created first and gets its header, and then the schedule. After each event the records of
/// what it released are written, and then its line of the report; lines may be gathered until an event releases
/// something. When all events were performed, the schedule and the last line are written.
pub fn run_script<P: Program, W: World>(
    alloc: Global,
    world: &mut W,
    files: RunFiles<'_>,
    run: ScriptRun,
    program: P,
) -> Result<(), RunError>
    requires inputs { CanRun run }
    requires room { (W.ledger world.old).given < 2 ^ 32 - 2 }
    requires apart { files.released.now ≡ files.schedule.now → ⊥ }
    ensures writes_files { WritesFiles W.ledger W.healthy 2 world.old world.new }
    ensures cause { IsErrOf result RunError.WriteFault
        → WritingFailed W.ledger W.healthy world.old world.new }
    ensures whole { (p : Start) → W.honest p world.new
        → OnOk result (HasRun (setting_of (P.meaning program) run)
        (names_of files.entry) run.events (W.shows p world.old) (W.shows p world.new)) }
    ensures limit { (p : Start) → W.honest p world.new
        → (limit : LimitKind) → result ≡ Err (RunError.Limit limit)
        → HasStopped (setting_of (P.meaning program) run) (names_of files.entry) run.events limit
        (W.shows p world.old) (W.shows p world.new) }
    ensures in_order { (p : Start) → W.honest p world.new
        → HasBegunRun (setting_of (P.meaning program) run)
        (names_of files.entry) run.events (W.shows p world.old) (W.shows p world.new) }
    ensures before { (p : Start) → W.honest p world.new → W.honest p world.old }
{
    let system = System::new(
        alloc,
        program,
        run.threads,
        run.tags,
        run.seed,
        run.unit,
        run.packets,
    )?;
    run_from(alloc, world, files, run.unit, run.events.as_slice(), system)
}
