ghost use Rattle.std.specs.Prelude.{◌≡◌, IfOk, Err, None};
ghost use Rattle.plain_text.specs.declared.limit.Limit.{Limit as LimitKind};
ghost use Rattle.recovery_world.specs.declared.event.Event.TheVariants as event_is;
ghost use Rattle.system_parts.specs.SystemStanding.{StandsForSome};
ghost use Rattle.system_parts.specs.Performing.{Appends, MovesOn, StopsAt, Releasing, WouldPass};
ghost use Rattle.held_steps.specs.Holding.{StepsHeld};

use crate::holding::note_held;
use access_log::Outputs;
use box_program::Program;
use event_replies::Stop;
use recovery_world::Outcome;
use system_parts::Core;
use thread_steps::{make_move, step};

/// The master makes the next move of a thread, told nothing. The entry that it logs arrives at once, where all of its
/// thread before it have: no frame of it is written.
pub fn step_held<P: Program>(
    core: &mut Core<P>,
    thread: u64,
    out: &mut Outputs,
) -> Result<Outcome, Stop>
    requires stands { StandsForSome (P.meaning core.old.program) core.old }
    ensures on { IfOk result (λ to. MovesOn (P.meaning core.old.program)
        (Releasing out.old out.new (StepsHeld thread to)) core.old core.new) }
    ensures limit { (limit : LimitKind) → result ≡ Err (Stop.Limit limit)
        → StopsAt (P.meaning core.old.program)
        (Releasing out.old out.new (WouldPass (event_is.Step thread None) limit))
        core.old core.new }
    ensures appends { Appends out.old out.new }
{
    if thread >= u64::from(core.inputs.threads()) || !core.up {
        return step(core, thread, None);
    }
    let thread = thread as u32;
    let (answer, stepped) = make_move(core, thread, None);
    note_held(core, thread, answer, stepped, out)
}
