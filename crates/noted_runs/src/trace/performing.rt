ghost use Rattle.std.specs.Prelude.{◌≡◌, ◌-◌, ◌+◌, ◌∷◌, ◌++◌, [], ℕ, List, OnOk, IfOk, Err, false};
ghost use Rattle.std.specs.Prelude.{length, replicate};
ghost use Rattle.plain_text.specs.declared.limit.Limit.{Limit as LimitKind};
ghost use Rattle.recovery_world.specs.declared.event.Event.{Event as EventKind};
ghost use Rattle.recovery_world.specs.World.{Setting};
ghost use Rattle.noted_runs.specs.TraceGoing.{HasGone, IsHalted, IsSomewhere};

use crate::trace::rows::Departure;
use box_program::Program;
use plain_text::{NoMemory, Sequence};
use recovery_core::{Stop, System};
use recovery_world::Event;
use std::alloc::Global;

/// How the released outputs left, in order of release.
pub type Departures = Sequence<Departure>;

/// Appends this departure until there are so many.
fn put_departures(
    departures: &mut Departures,
    total: usize,
    departure: Departure,
) -> Result<(), NoMemory>
    ensures { OnOk result (departures.new
        ≡ departures.old ++ replicate (total - length departures.old) departure) }
{
    let more = total.saturating_sub(departures.len());
    for _ in 0..more {
        departures.push(departure)?;
    }
    Ok(())
}

/// Performs the event with this number, and notes of the outputs that it released that they left with it.
fn perform_next<P: Program>(
    system: &mut System<P>,
    event: &Event,
    number: u64,
    departures: &mut Departures,
) -> Result<(), Stop>
    requires runs { system.old.stopped ≡ false }
    ensures runs { OnOk result (system.new.stopped ≡ false) }
    ensures program { OnOk result (system.new.parts.program ≡ system.old.parts.program) }
    ensures somewhere { (threads : ℕ)
        → IsSomewhere threads (P.meaning system.old.parts.program) system.old
        → OnOk result (IsSomewhere threads (P.meaning system.old.parts.program) system.new) }
    ensures on { (s : Setting P.Value) (events : List EventKind) → length events + 1 ≡ number
        → HasGone (P.meaning system.old.parts.program) s events departures.old system.old
        → OnOk result (HasGone (P.meaning system.old.parts.program) s (events ++ event.now ∷ [])
        departures.new system.new) }
    ensures limit { (s : Setting P.Value) (events : List EventKind)
        → HasGone (P.meaning system.old.parts.program) s events departures.old system.old
        → (limit : LimitKind) → result ≡ Err (Stop.Limit limit)
        → IsHalted s (events ++ event.now ∷ []) limit }
{
    system.on(event)?;
    let departure = Departure {
        event: number,
        epoch: system.epoch(),
    };
    let total = system.released().len();
    put_departures(departures, total, departure)?;
    // The packets are not needed.
    system.take_released();
    Ok(())
}

/// Performs events, in order. Gives how the outputs left that they released.
pub fn perform_all<P: Program>(
    alloc: Global,
    system: &mut System<P>,
    events: &[Event],
) -> Result<Departures, Stop>
    requires runs { system.old.stopped ≡ false }
    ensures runs { OnOk result (system.new.stopped ≡ false) }
    ensures program { OnOk result (system.new.parts.program ≡ system.old.parts.program) }
    ensures somewhere { (threads : ℕ)
        → IsSomewhere threads (P.meaning system.old.parts.program) system.old
        → OnOk result (IsSomewhere threads (P.meaning system.old.parts.program) system.new) }
    ensures on { (s : Setting P.Value)
        → HasGone (P.meaning system.old.parts.program) s [] [] system.old
        → IfOk result (λ departures. HasGone (P.meaning system.old.parts.program) s events.now
        departures system.new) }
    ensures limit { (s : Setting P.Value)
        → HasGone (P.meaning system.old.parts.program) s [] [] system.old
        → (limit : LimitKind) → result ≡ Err (Stop.Limit limit)
        → IsHalted s events.now limit }
{
    let mut departures = Departures::new(alloc);
    for (index, event) in events.iter().enumerate() {
        perform_next(system, event, index as u64 + 1, &mut departures)?;
    }
    Ok(departures)
}
