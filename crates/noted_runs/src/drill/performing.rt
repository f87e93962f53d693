ghost use Rattle.std.specs.Prelude.{◌≡◌, ◌++◌, ◌∷◌, ◌+◌, [], List, IfOk, OnOk, Err, false};
ghost use Rattle.plain_text.specs.declared.limit.Limit.{Limit as LimitKind};
ghost use Rattle.recovery_world.specs.declared.event.Event.{Event as EventKind};
ghost use Rattle.recovery_world.specs.World.{Setting};
ghost use Rattle.drill_report.specs.Report.{given_to_follow};
ghost use Rattle.noted_runs.specs.Drilling.{HasPerformed, IsHalted};

use box_program::Program;
use recovery_core::{Stop, System};
use recovery_world::{Event, Outcome};

/// How many entries a new master was given to follow, where the event was a recovery.
fn kept_by(outcome: &Outcome) -> u64
    ensures { result ≡ given_to_follow outcome.now }
{
    match outcome {
        Outcome::Recovered { keeps, .. } => *keeps,
        _ => 0,
    }
}

/// The count with these. It is told as want of memory where it would pass 2^64 - 1: no run that is within the limits
/// comes near.
fn add_kept(replayed: u64, kept: u64) -> Result<u64, Stop>
    ensures sum { IfOk result (λ sum. sum ≡ replayed + kept) }
    ensures no_limit { (limit : LimitKind) → ¬ (result ≡ Err (Stop.Limit limit)) }
{
    match replayed.checked_add(kept) {
        Some(sum) => Ok(sum),
        None => Err(Stop::NoMemory),
    }
}

/// Performs an event. Gives how many entries new masters were given to follow, with those before.
fn perform_next<P: Program>(
    system: &mut System<P>,
    event: &Event,
    replayed: u64,
) -> Result<u64, Stop>
    requires runs { system.old.stopped ≡ false }
    ensures runs { OnOk result (system.new.stopped ≡ false) }
    ensures program { OnOk result (system.new.parts.program ≡ system.old.parts.program) }
    ensures on { (s : Setting P.Value) (events : List EventKind)
        → HasPerformed (P.meaning system.old.parts.program) s events replayed system.old
        → IfOk result (λ n. HasPerformed (P.meaning system.old.parts.program) s
        (events ++ event.now ∷ []) n system.new) }
    ensures limit { (s : Setting P.Value) (events : List EventKind)
        → HasPerformed (P.meaning system.old.parts.program) s events replayed system.old
        → (limit : LimitKind) → result ≡ Err (Stop.Limit limit)
        → IsHalted s (events ++ event.now ∷ []) limit system.new }
{
    let reply = system.on(event)?;
    add_kept(replayed, kept_by(&reply.outcome))
}

/// Performs events, in order. Gives how many entries new masters were given to follow.
pub fn perform_all<P: Program>(system: &mut System<P>, events: &[Event]) -> Result<u64, Stop>
    requires runs { system.old.stopped ≡ false }
    ensures runs { OnOk result (system.new.stopped ≡ false) }
    ensures program { OnOk result (system.new.parts.program ≡ system.old.parts.program) }
    ensures on { (s : Setting P.Value)
        → HasPerformed (P.meaning system.old.parts.program) s [] 0 system.old
        → IfOk result (λ n. HasPerformed (P.meaning system.old.parts.program) s
        events.now n system.new) }
    ensures limit { (s : Setting P.Value)
        → HasPerformed (P.meaning system.old.parts.program) s [] 0 system.old
        → (limit : LimitKind) → result ≡ Err (Stop.Limit limit)
        → IsHalted s events.now limit system.new }
{
    let mut replayed = 0;
    for event in events {
        replayed = perform_next(system, event, replayed)?;
    }
    Ok(replayed)
}
