//! Threads that touch variables of a small box, with a master alone or under numbered locks.
ghost use Rattle.plain_text.specs.Packets.{IsShort};
ghost use Rattle.std.specs.Prelude.{◌<◌, ◌≤◌, IfOk};

pub mod touch_box;

use crate::done::Done;
use crate::inputs::Again;
use crate::racing::race;
use crate::stepping::step_all;
use crate::words::next_number;
use anyhow::{Context, bail, ensure};
use plain_text::{Bytes, NoMemory, Packet};
use std::alloc::Global;
use std::env::Args;
use std::sync::Wait;
use std::thread::Threads;
use touch_box::TouchBox;

/// A packet of 60 bytes, of which the first says which variable it touches.
pub fn packet_of(alloc: Global, var: u8) -> Result<Packet, NoMemory>
    ensures { IfOk result IsShort }
{
    let mut bytes = [0; 60];
    bytes[0] = var;
    Ok(Packet {
        seconds: 0,
        fraction: 0,
        original: 60,
        bytes: Bytes::of(alloc, &bytes)?,
    })
}

/// A packet for each thread: all touch variable 0, or each the variable of its own number.
fn packets_of(alloc: Global, threads: u8, own: bool) -> Result<Vec<Packet>, NoMemory> {
    let mut packets = Vec::new(alloc);
    for thread in 0..threads {
        packets.push(packet_of(alloc, if own { thread } else { 0 })?)?;
    }
    Ok(packets)
}

/// What threads do with their packets, as a master alone or under locks. The box logs nothing but touches.
fn perform<R: AllocGlobal + Threads + Wait + Sync>(
    rt: &R,
    who: &str,
    threads: u32,
    inputs: &Again,
) -> anyhow::Result<Done>
    requires some { 0 < threads }
    requires few { threads ≤ 16 }
{
    match who {
        "step" => Ok(step_all(rt.alloc(), &TouchBox::new(), threads, inputs)?),
        "locks" => Ok(race(rt, &TouchBox::new(), threads, inputs)?),
        _ => bail!("{who} is neither step nor locks"),
    }
}

/// Tells how many moves and touches were made, where the words say who makes them, how many threads there are, whether
/// each touches a variable of its own, and how many packets each takes.
pub fn run<R: AllocGlobal + Print + Threads + Wait + Sync>(
    rt: &R,
    words: &mut Args,
) -> anyhow::Result<()> {
    let who = words.next().context("step or locks?")?;
    let threads: u8 = words.next().context("how many threads?")?.parse()?;
    let whose = words.next().context("one or own?")?;
    let count = next_number(words, "how many packets?")?;
    ensure!(
        threads == 1 || threads == 2 || threads == 4,
        "{threads} threads are not 1, 2 or 4"
    );
    let own = match whose.as_str() {
        "own" => true,
        "one" => false,
        _ => bail!("{whose} is neither one nor own"),
    };
    let packets = packets_of(rt.alloc(), threads, own)?;
    let inputs = Again {
        packets: packets.as_slice(),
        count,
    };
    let done = perform(rt, who.as_str(), u32::from(threads), &inputs)?;
    println!(rt;
        "{who}: {} moves, {} touches, {} packets sent out",
        done.moves, done.entries, done.sent
    )?;
    Ok(())
}
