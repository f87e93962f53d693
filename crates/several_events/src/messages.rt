ghost use Rattle.std.specs.Prelude.{◌≡◌, ◌<◌, ◌-◌, [], IfSome, None};
ghost use Rattle.recovery_world.specs.World.{Setting, World};
ghost use Rattle.system_parts.specs.SystemStanding.{StandsFor};
ghost use Rattle.several_events.specs.Progressing.{IsMessage, IsOfKind, NoMessage, count_in};
ghost use Rattle.several_events.specs.Progressing.{of_rest};

use box_program::Program;
use plain_text::Kind;
use system_parts::Core;

/// How many entries or outputs a thread of the master had.
pub fn count_of<P: Program>(core: &Core<P>, kind: Kind, thread: u32) -> u64
    requires { thread < core.now.inputs.threads }
    ensures { (s : Setting P.Value) (w : World P.Value)
        → StandsFor (P.meaning core.now.program) s w core.now
        → result ≡ count_in kind w.past thread }
{
    let counts = core.master.counts(thread);
    match kind {
        Kind::Log => counts.entries,
        Kind::Out => counts.outputs,
    }
}

/// The thread and number of the next message of this kind, of this thread or a later one.
fn next_of_kind<P: Program>(
    core: &Core<P>,
    kind: Kind,
    thread: u32,
    arrived: u64,
) -> Option<(u32, u64)>
    ensures none { result ≡ None → (s : Setting P.Value) (w : World P.Value)
        → StandsFor (P.meaning core.now.program) s w core.now
        → of_rest kind (count_in kind w.past) thread arrived (s.threads - thread) ≡ [] }
    ensures some { IfSome result (λ next. (s : Setting P.Value) (w : World P.Value)
        → StandsFor (P.meaning core.now.program) s w core.now
        → IsOfKind s w kind thread arrived next) }
{
    let mut before = arrived;
    'threads: for turn in thread..core.inputs.threads() {
        if before < count_of(core, kind, turn) {
            return Some((turn, before + 1));
        }
        before = 0;
    }
    None
}

/// The next message: entries come first, by thread and then number, and then outputs. Of this thread this number
/// arrived.
pub fn next_message<P: Program>(
    core: &Core<P>,
    kind: Kind,
    thread: u32,
    arrived: u64,
) -> Option<(Kind, u32, u64)>
    ensures none { result ≡ None → (s : Setting P.Value) (w : World P.Value)
        → StandsFor (P.meaning core.now.program) s w core.now
        → NoMessage s w kind thread arrived }
    ensures some { IfSome result (λ next. (s : Setting P.Value) (w : World P.Value)
        → StandsFor (P.meaning core.now.program) s w core.now
        → IsMessage s w kind thread arrived next) }
{
    match next_of_kind(core, kind, thread, arrived) {
        Some((thread, number)) => Some((kind, thread, number)),
        None => match kind {
            Kind::Log => {
                let (thread, number) = next_of_kind(core, Kind::Out, 0, 0)?;
                Some((Kind::Out, thread, number))
            }
            Kind::Out => None,
        },
    }
}
