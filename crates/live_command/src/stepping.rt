//! The steps of a round are told.
ghost use Rattle.std.specs.Prelude.{◌≡◌, ◌∷◌, ◌++◌, ◌≤◌, [], List, ℕ, length, IfOk, OnOk, IsTrue};
ghost use Rattle.std.specs.Prelude.{IsErrOf};
ghost use Rattle.std.specs.String.{string_bytes};
ghost use Rattle.recovery_world.specs.Files.{reply_line};
ghost use Rattle.plain_text.specs.declared.limit.TheConstants.{MOST_EVENTS as most_events};
ghost use Rattle.plain_text.specs.declared.limit.TheConstants.{MOST_FILE_BYTES as most_bytes};
ghost use Rattle.world_io.specs.World.{Start, Shown, is_writable, WritingFailed};
ghost use Rattle.recovery_world.specs.declared.event.Event.{Event as EventKind};
ghost use Rattle.recovery_world.specs.World.{Setting, World as SystemWorld};
ghost use Rattle.recovery_world.specs.Limits.{OnWithin};
ghost use Rattle.output_files.specs.Writes.{IsOutput, KeepsOutputs};
ghost use Rattle.output_files.specs.Written.{OnlyWrites};
ghost use Rattle.live_workers.specs.FromRoundJoin.{PerformsNoted, event_noted, events_noted};
ghost use Rattle.live_writes.specs.Outputs.{AreApart, LiveOutputs};
ghost use Rattle.live_writes.specs.Told.{HasTold};
ghost use Rattle.live_command.specs.Going.{NotesOver};

use crate::writing::{add_line, gather};
use live_workers::Noted;
use live_writes::Script;
use plain_text::{Bytes, NoMemory};
use recovery_world::{Event, Outcome};
use run_writes::{RunError, written};
use script_text::{write_event, write_outcome};
use std::alloc::Global;
use world_io::World;

/// The line of the report for an event that released nothing.
fn quiet_line(alloc: Global, event: Event, outcome: &Outcome) -> Result<String, NoMemory>
    ensures { IfOk result (λ line. string_bytes line ≡ reply_line event outcome.now []) }
{
    let mut line = String::new(alloc);
    write_event(&mut line, event)?;
    line.push(' ')?;
    write_outcome(&mut line, outcome)?;
    line.push('\n')?;
    Ok(line)
}

/// Tells one step.
fn tell_step<X, W: World>(
    alloc: Global,
    world: &mut W,
    file: u32,
    lines: &mut Bytes,
    script: &mut Script,
    step: &Noted,
) -> Result<(), RunError>
    requires writable { IsTrue (is_writable (W.ledger world.old) file) }
    requires few { script.old.count ≤ most_events }
    requires short { script.old.size ≤ most_bytes }
    ensures told { (p : Start) → W.honest p world.new
        → (s : Setting X) (names : LiveOutputs) (events : List EventKind)
        (w next : SystemWorld X) (before : Shown) → AreApart names
        → IsOutput file names.script (W.shows p world.old)
        → HasTold s names events events w lines.old script.old before (W.shows p world.old)
        → OnWithin s w (event_noted step.now) step.now.outcome [] next
        → NotesOver result s names events (event_noted step.now ∷ []) next lines.new script.new
        before (W.shows p world.new) }
    ensures gathered { OnOk result
        ((length lines.new ≤ 65536) × (length script.new.text ≤ 65536)) }
    ensures few { script.new.count ≤ most_events }
    ensures short { script.new.size ≤ most_bytes }
    ensures only_writes { OnlyWrites W.ledger W.healthy world.old world.new }
    ensures cause { IsErrOf result RunError.WriteFault
        → WritingFailed W.ledger W.healthy world.old world.new }
    ensures keeps { (p : Start) → W.honest p world.new
        → KeepsOutputs (W.shows p world.old) (W.shows p world.new) }
    ensures before { (p : Start) → W.honest p world.new → W.honest p world.old }
{
    let event = Event::Step {
        thread: u64::from(step.thread),
        answer: step.answer,
    };
    add_line::<X, W>(world, file, lines, script, &event)?;
    let line = quiet_line(alloc, event, &step.outcome)?;
    let line = line.as_bytes();
    written(gather::<X, W>(world, file, lines, script, line))
}

/// Tells the steps of a round, in their order.
pub(crate) fn tell_steps<X, W: World>(
    alloc: Global,
    world: &mut W,
    file: u32,
    lines: &mut Bytes,
    script: &mut Script,
    steps: &[Noted],
) -> Result<(), RunError>
    requires writable { IsTrue (is_writable (W.ledger world.old) file) }
    requires few { script.old.count ≤ most_events }
    requires short { script.old.size ≤ most_bytes }
    ensures told { (p : Start) → W.honest p world.new
        → (s : Setting X) (names : LiveOutputs) (events : List EventKind)
        (w there : SystemWorld X) (before : Shown) → AreApart names
        → IsOutput file names.script (W.shows p world.old)
        → HasTold s names events events w lines.old script.old before (W.shows p world.old)
        → PerformsNoted s w steps.now there
        → NotesOver result s names events (events_noted steps.now) there lines.new script.new
        before (W.shows p world.new) }
    ensures few { script.new.count ≤ most_events }
    ensures short { script.new.size ≤ most_bytes }
    ensures only_writes { OnlyWrites W.ledger W.healthy world.old world.new }
    ensures cause { IsErrOf result RunError.WriteFault
        → WritingFailed W.ledger W.healthy world.old world.new }
    ensures keeps { (p : Start) → W.honest p world.new
        → KeepsOutputs (W.shows p world.old) (W.shows p world.new) }
    ensures before { (p : Start) → W.honest p world.new → W.honest p world.old }
{
    for step in steps {
        tell_step::<X, W>(alloc, world, file, lines, script, step)?;
    }
    Ok(())
}
