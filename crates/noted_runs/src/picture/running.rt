ghost use Rattle.std.specs.Prelude.{◌≡◌, IfOk, Err, false};
ghost use Rattle.plain_text.specs.declared.limit.Limit.{Limit as LimitKind};
ghost use Rattle.recovery_world.specs.World.{Setting, opening};
ghost use Rattle.recovery_core.specs.Systems.{SystemStands};
ghost use Rattle.noted_runs.specs.PictureGoing.{HasGone};
ghost use Rattle.noted_runs.specs.Noting.{AreInputs, IsHalted};

use crate::picture::performing::{Notes, perform_all};
use box_program::Program;
use input_logger::InputLog;
use recovery_core::{Stop, System};
use recovery_world::Event;
use std::alloc::Global;

/// What performing the events came to: the notes, and the counts of the last line of the report.
#[derive(Drop)]
pub struct Gone {
    pub notes: Notes,
    pub fed: u64,
    pub epoch: u32,
    pub released: u64,
}

/// Performs events with a system, and notes what they did.
fn go<P: Program>(
    alloc: Global,
    program: &P,
    inputs: &InputLog,
    system: &mut System<P>,
    events: &[Event],
) -> Result<Gone, Stop>
    requires runs { system.old.stopped ≡ false }
    ensures gone { (s : Setting P.Value) → AreInputs (P.meaning program.now) inputs.now s
        → SystemStands (P.meaning system.old.parts.program) s (opening P.Value) system.old
        → IfOk result (HasGone s events.now) }
    ensures limit { (s : Setting P.Value) → AreInputs (P.meaning program.now) inputs.now s
        → SystemStands (P.meaning system.old.parts.program) s (opening P.Value) system.old
        → (limit : LimitKind) → result ≡ Err (Stop.Limit limit) → IsHalted s events.now limit }
{
    let notes = perform_all(alloc, program, inputs, system, events)?;
    Ok(Gone {
        notes,
        fed: inputs.fed().saturating_sub(system.left()),
        epoch: system.epoch(),
        released: system.released().len() as u64,
    })
}

/// Performs events with a new system, notes what they did, and lets go of it.
pub fn run_events<P: Program>(
    alloc: Global,
    program: &P,
    inputs: &InputLog,
    system: System<P>,
    events: &[Event],
) -> Result<Gone, Stop>
    requires { system.stopped ≡ false }
    ensures gone { (s : Setting P.Value) → AreInputs (P.meaning program.now) inputs.now s
        → SystemStands (P.meaning system.parts.program) s (opening P.Value) system
        → IfOk result (HasGone s events.now) }
    ensures limit { (s : Setting P.Value) → AreInputs (P.meaning program.now) inputs.now s
        → SystemStands (P.meaning system.parts.program) s (opening P.Value) system
        → (limit : LimitKind) → result ≡ Err (Stop.Limit limit) → IsHalted s events.now limit }
{
    let mut system = system;
    let gone = go(alloc, program, inputs, &mut system, events);
    system.discard();
    gone
}
