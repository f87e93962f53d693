ghost use Rattle.std.specs.Prelude.{◌≡◌, ◌<◌, ◌≤◌, true, None, length};
ghost use Rattle.recovery_world.specs.declared.event.Event.TheVariants as event_is;
ghost use Rattle.recovery_world.specs.declared.event.Outcome.TheVariants as outcome_is;
ghost use Rattle.system_parts.specs.SystemStanding.{StandsForSome};
ghost use Rattle.system_parts.specs.Performing.{MovesOn, ComesTo};
ghost use Rattle.several_events.specs.declared.progress.Progress.TheVariants as progress_is;
ghost use Rattle.several_events.specs.Progressing.{to_do};
ghost use Rattle.several_events.specs.Ahead.{GoesOnAs};

use crate::progress::{Progress, next_turn};
use crate::repeats::pass_repeats;
use box_program::Program;
use held_steps::input_of;
use system_parts::Core;

/// Whether a thread of a master that is up has nothing to do: no packet in hand, and no input left. Then its step makes
/// no move.
fn is_idle<P: Program>(core: &Core<P>, thread: u32) -> bool
    requires stands { StandsForSome (P.meaning core.now.program) core.now }
    requires thread_in { thread < core.now.inputs.threads }
    ensures { result ≡ true → MovesOn (P.meaning core.now.program)
        (ComesTo (event_is.Step thread None) outcome_is.Idle) core.now core.now }
{
    match input_of(&core.inputs, &core.master, thread) {
        Some(_) => false,
        None => core.up,
    }
}

/// Passes over the turns of threads that have nothing to do: none of them changes anything.
fn pass_turns<P: Program>(core: &Core<P>, left: u64, thread: u32, moved: bool) -> Progress
    requires stands { StandsForSome (P.meaning core.now.program) core.now }
    ensures passes { GoesOnAs (P.meaning core.now.program) core.now
        (progress_is.Steps left thread moved) result }
    ensures less { to_do core.now.inputs.threads (length core.now.left) core.now.moves result
        ≤ to_do core.now.inputs.threads (length core.now.left) core.now.moves
        (progress_is.Steps left thread moved) }
{
    let threads = core.inputs.threads();
    let mut turn = thread;
    let mut has_moved = moved;
    'turns: while turn < threads && is_idle(core, turn) {
        let next = next_turn(turn, has_moved, threads);
        turn = next.0;
        has_moved = next.1;
    }
    Progress::Steps {
        left,
        thread: turn,
        moved: has_moved,
    }
}

/// How far it is when all that would change nothing is passed over: the turns of threads that have
/// nothing to do, while threads take turns, and then the messages that arrived before.
pub fn pass_idle<P: Program>(core: &Core<P>, at: Progress) -> Progress
    requires stands { StandsForSome (P.meaning core.now.program) core.now }
    ensures passes { GoesOnAs (P.meaning core.now.program) core.now at result }
    ensures less { to_do core.now.inputs.threads (length core.now.left) core.now.moves result
        ≤ to_do core.now.inputs.threads (length core.now.left) core.now.moves at }
{
    match at {
        Progress::Steps {
            left,
            thread,
            moved,
        } => pass_turns(core, left, thread, moved),
        Progress::Arrives {
            kind,
            thread,
            arrived,
        } => pass_repeats(core, kind, thread, arrived),
        other => other,
    }
}
