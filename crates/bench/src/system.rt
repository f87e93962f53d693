//! Generated packets through the recovering system.
//!
//! `settle` is one event. `single` feeds one packet after another, and lets each entry and each output arrive as soon
//! as it is made: an event for each.
ghost use Rattle.std.specs.Prelude.{◌≡◌, All, IfOk, false};
ghost use Rattle.plain_text.specs.Packets.{IsShort};

use crate::one_packet::MOST_MOVES_OF_ONE;
use crate::packets::make_packets;
use crate::words::next_number;
use anyhow::{Context, anyhow, bail};
use box_program::{CountBox, Program};
use monitor_box::MonitorBox;
use plain_text::{Packets, Unit};
use recovery_core::{Stop, System};
use recovery_world::{Event, Outcome};
use std::alloc::Global;
use std::env::Args;

/// Performs an event, and counts it.
fn perform<P: Program>(
    system: &mut System<P>,
    event: Event,
    events: &mut u64,
) -> Result<Outcome, Stop>
    requires runs { system.old.stopped ≡ false }
    ensures { IfOk result (λ _. system.new.stopped ≡ false) }
{
    let reply = system.on(&event)?;
    *events = events.saturating_add(1);
    Ok(reply.outcome)
}

/// Lets what a step made arrive; whether the thread may go on.
fn arrive<P: Program>(
    system: &mut System<P>,
    outcome: &Outcome,
    events: &mut u64,
) -> Result<bool, Stop>
    requires { system.old.stopped ≡ false }
    ensures { IfOk result (λ _. system.new.stopped ≡ false) }
{
    match outcome {
        Outcome::Touched { entry, .. }
        | Outcome::Looked { entry, .. }
        | Outcome::ClockTold { entry, .. }
        | Outcome::Drawn { entry, .. } => {
            let number = *entry;
            perform(system, Event::Log { thread: 0, number }, events)?;
            Ok(true)
        }
        Outcome::Emitted(number) => {
            let number = *number;
            perform(system, Event::Out { thread: 0, number }, events)?;
            Ok(true)
        }
        Outcome::Idle => Ok(false),
        _ => Ok(true),
    }
}

/// Feeds one packet, and performs all that it leads to.
fn perform_packet<P: Program>(system: &mut System<P>, events: &mut u64) -> Result<(), Stop>
    requires { system.old.stopped ≡ false }
    ensures { IfOk result (λ _. system.new.stopped ≡ false) }
{
    perform(system, Event::Feed(1), events)?;
    'steps: for _ in 0..MOST_MOVES_OF_ONE {
        let step = Event::Step {
            thread: 0,
            answer: None,
        };
        let outcome = perform(system, step, events)?;
        if !arrive(system, &outcome, events)? {
            break;
        }
    }
    Ok(())
}

/// Performs this number of packets so; how many events, and how many outputs were released.
fn perform_packets<P: Program>(
    system: &mut System<P>,
    count: usize,
    settles: bool,
) -> Result<(u64, usize), Stop>
    requires { system.old.stopped ≡ false }
{
    let mut events = 0u64;
    let mut released = 0usize;
    if settles {
        perform(system, Event::Settle, &mut events)?;
        released = system.take_released().len();
    } else {
        'packets: for _ in 0..count {
            perform_packet(system, &mut events)?;
            released = released.saturating_add(system.take_released().len());
        }
    }
    Ok((events, released))
}

/// Performs all packets by a system of their own.
fn perform_all<P: Program>(
    alloc: Global,
    program: P,
    packets: Packets,
    settles: bool,
) -> Result<(u64, usize), Stop>
    requires { All IsShort packets }
{
    let count = packets.len();
    let mut system = System::new(alloc, program, 1, false, 0, Unit::Micro, packets)?;
    let done = perform_packets(&mut system, count, settles);
    system.discard();
    done
}

/// Performs all packets by a box of this name.
fn perform_by(
    alloc: Global,
    which: &str,
    packets: Packets,
    settles: bool,
) -> anyhow::Result<(u64, usize)>
    requires { All IsShort packets }
{
    let done = match which {
        "count" => perform_all(alloc, CountBox::new(), packets, settles),
        "monitor" => perform_all(alloc, MonitorBox::new(16), packets, settles),
        _ => bail!("{which} is neither count nor monitor"),
    };
    done.map_err(|stop| anyhow!("{stop:?}"))
}

/// Tells how many events were performed and how many outputs released, where the words say the box, how, and how many
/// packets.
pub fn run<R: AllocGlobal + Print>(rt: &R, words: &mut Args) -> anyhow::Result<()> {
    let which = words.next().context("count or monitor?")?;
    let how = words.next().context("settle or single?")?;
    let count = next_number(words, "how many packets?")?;
    let packets = make_packets(rt.alloc(), count)?;
    let done = perform_by(
        rt.alloc(),
        which.as_str(),
        packets,
        how.as_str() == "settle",
    )?;
    let (events, released) = done;
    println!(rt; "{which}, {how}: {events} events, {released} released")?;
    Ok(())
}
