ghost use Rattle.std.specs.Prelude.{◌≡◌, ◌++◌, ◌≤◌, IfOk, OnOk, length};
ghost use Rattle.drill_report.specs.Events.{calm_events as calm_events_of};
ghost use Rattle.drill_report.specs.Events.{drill_events as drill_events_of, repeated, rounds};

use plain_text::{NoMemory, Sequence};
use recovery_world::Event;
use std::alloc::Global;

/// Events, in the order in which they are performed.
pub type Events = Sequence<Event>;

/// How often this many packets have to come in until all of these have.
fn count_rounds(every: u64, packets: usize) -> u64
    requires { 1 ≤ every }
    ensures { result ≡ rounds every packets }
{
    (packets as u64).div_ceil(every)
}

/// Appends the events of a round.
fn put_round(events: &mut Events, round: &[Event]) -> Result<(), NoMemory>
    ensures { OnOk result (events.new ≡ events.old ++ round.now) }
{
    for event in round {
        events.push(*event)?;
    }
    Ok(())
}

/// Appends the events of a round, so many times.
fn put_rounds(events: &mut Events, round: &[Event], count: u64) -> Result<(), NoMemory>
    ensures { OnOk result (events.new ≡ events.old ++ repeated count round.now) }
{
    'rounds: for _ in 0..count {
        put_round(events, round)?;
    }
    Ok(())
}

/// The events of a drill on so many packets, where this many come in before each crash.
pub fn drill_events(alloc: Global, every: u64, packets: usize) -> Result<Events, NoMemory>
    requires { 1 ≤ every }
    ensures { IfOk result (λ events. events ≡ drill_events_of every packets) }
{
    let round = [
        Event::Flow(every),
        Event::Snap,
        Event::Store,
        Event::Crash,
        Event::Recover,
    ];
    let mut events = Events::new(alloc);
    put_rounds(&mut events, &round, count_rounds(every, packets))?;
    events.push(Event::Settle)?;
    Ok(events)
}

/// The same events without snapshots, crashes and recoveries.
pub fn calm_events(alloc: Global, every: u64, packets: usize) -> Result<Events, NoMemory>
    requires { 1 ≤ every }
    ensures { IfOk result (λ events. events ≡ calm_events_of every packets) }
{
    let mut events = Events::new(alloc);
    put_rounds(
        &mut events,
        &[Event::Flow(every)],
        count_rounds(every, packets),
    )?;
    events.push(Event::Settle)?;
    Ok(events)
}
