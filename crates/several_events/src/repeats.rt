ghost use Rattle.std.specs.Prelude.{◌<◌, ◌≤◌, ℕ, length};
ghost use Rattle.recovery_world.specs.World.{Setting, World};
ghost use Rattle.system_parts.specs.SystemStanding.{StandsFor};
ghost use Rattle.several_events.specs.declared.progress.Progress.TheVariants as progress_is;
ghost use Rattle.several_events.specs.Progressing.{count_in, to_do};
ghost use Rattle.several_events.specs.Ahead.{GoesOnAs};
ghost use Rattle.several_events.specs.Repeating.{HasCome};

use crate::messages::count_of;
use crate::progress::Progress;
use box_program::Program;
use plain_text::Kind;
use system_parts::Core;

/// Up to which number the entries of a thread are held or covered, or its outputs were released.
fn come_to<P: Program>(core: &Core<P>, kind: Kind, thread: u32) -> u64
    ensures { (n : ℕ) → 1 ≤ n → n ≤ result → HasCome kind core.now thread n }
{
    match kind {
        Kind::Log => core.logger.held().frontier(thread),
        Kind::Out => core.logger.released().floor(thread),
    }
}

/// Up to which number all that a thread made arrived before.
fn repeats_to<P: Program>(core: &Core<P>, kind: Kind, thread: u32) -> u64
    requires { thread < core.now.inputs.threads }
    ensures come { (n : ℕ) → 1 ≤ n → n ≤ result → HasCome kind core.now thread n }
    ensures made { (s : Setting P.Value) (w : World P.Value)
        → StandsFor (P.meaning core.now.program) s w core.now
        → result ≤ count_in kind w.past thread }
{
    let come = come_to(core, kind, thread);
    come.min(count_of(core, kind, thread))
}

/// Passes over the next messages of the thread that arrived before: when they arrive again, nothing changes.
pub fn pass_repeats<P: Program>(core: &Core<P>, kind: Kind, thread: u32, arrived: u64) -> Progress
    ensures passes { GoesOnAs (P.meaning core.now.program) core.now
        (progress_is.Arrives kind thread arrived) result }
    ensures less { to_do core.now.inputs.threads (length core.now.left) core.now.moves result
        ≤ to_do core.now.inputs.threads (length core.now.left) core.now.moves
        (progress_is.Arrives kind thread arrived) }
{
    if thread < core.inputs.threads() {
        let known = repeats_to(core, kind, thread);
        if arrived < known {
            return Progress::Arrives {
                kind,
                thread,
                arrived: known,
            };
        }
    }
    Progress::Arrives {
        kind,
        thread,
        arrived,
    }
}
