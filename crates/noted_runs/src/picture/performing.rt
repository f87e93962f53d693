ghost use Rattle.std.specs.Prelude.{◌≡◌, ◌∷◌, ◌++◌, [], List, OnOk, IfOk, Err, false};
ghost use Rattle.plain_text.specs.declared.limit.Limit.{Limit as LimitKind};
ghost use Rattle.recovery_world.specs.declared.event.Event.{Event as EventKind};
ghost use Rattle.recovery_world.specs.World.{Setting};
ghost use Rattle.noted_runs.specs.Noting.{AreInputs, HasNoted, IsHalted};

use crate::picture::noting::note_event;
use box_program::Program;
use input_logger::InputLog;
use plain_text::Sequence;
use recovery_core::{Stop, System};
use recovery_world::Event;
use run_drawing::Note;
use std::alloc::Global;

/// What was noted, event by event.
pub type Notes = Sequence<Note>;

/// Performs an event, and notes what it did.
fn perform_next<P: Program>(
    alloc: Global,
    program: &P,
    inputs: &InputLog,
    system: &mut System<P>,
    event: &Event,
    notes: &mut Notes,
) -> Result<(), Stop>
    requires runs { system.old.stopped ≡ false }
    ensures runs { OnOk result (system.new.stopped ≡ false) }
    ensures program { OnOk result (system.new.parts.program ≡ system.old.parts.program) }
    ensures on { (s : Setting P.Value) (events : List EventKind)
        → AreInputs (P.meaning program.now) inputs.now s
        → HasNoted (P.meaning system.old.parts.program) s events notes.old system.old
        → OnOk result (HasNoted (P.meaning system.old.parts.program) s (events ++ event.now ∷ [])
        notes.new system.new) }
    ensures limit { (s : Setting P.Value) (events : List EventKind)
        → HasNoted (P.meaning system.old.parts.program) s events notes.old system.old
        → (limit : LimitKind) → result ≡ Err (Stop.Limit limit)
        → IsHalted s (events ++ event.now ∷ []) limit }
{
    let reply = system.on(event)?;
    let note = note_event(alloc, program, inputs, system, event, reply)?;
    notes.push(note)?;
    // The packets are not needed.
    system.take_released();
    Ok(())
}

/// Performs events, in order, and notes what each did.
pub fn perform_all<P: Program>(
    alloc: Global,
    program: &P,
    inputs: &InputLog,
    system: &mut System<P>,
    events: &[Event],
) -> Result<Notes, Stop>
    requires runs { system.old.stopped ≡ false }
    ensures runs { OnOk result (system.new.stopped ≡ false) }
    ensures program { OnOk result (system.new.parts.program ≡ system.old.parts.program) }
    ensures on { (s : Setting P.Value) → AreInputs (P.meaning program.now) inputs.now s
        → HasNoted (P.meaning system.old.parts.program) s [] [] system.old
        → IfOk result (λ notes. HasNoted (P.meaning system.old.parts.program) s events.now notes
        system.new) }
    ensures limit { (s : Setting P.Value) → AreInputs (P.meaning program.now) inputs.now s
        → HasNoted (P.meaning system.old.parts.program) s [] [] system.old
        → (limit : LimitKind) → result ≡ Err (Stop.Limit limit) → IsHalted s events.now limit }
{
    let mut notes = Notes::new(alloc);
    for event in events {
        perform_next(alloc, program, inputs, system, event, &mut notes)?;
    }
    Ok(notes)
}
