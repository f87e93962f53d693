//! Generated packets through the threads of a box: moved by a master alone, by threads that race, or in one round or
//! several of the recovering system.
//!
//! What each of these begins with can be done alone: `feed` has the packets of `alone` and `race` fed, and `open` makes
//! the system of `whole` and `often` and has them fed to it.
ghost use Rattle.std.specs.Prelude.{◌≤◌, All};
ghost use Rattle.plain_text.specs.Packets.{IsShort};

mod whole;

use crate::done::Done;
use crate::inputs::feed_all;
use crate::packets::make_packets;
use crate::racing::race;
use crate::stepping::step_all;
use crate::words::next_number;
use anyhow::{Context, bail, ensure};
use box_program::Program;
use monitor_box::MonitorBox;
use nat_box::{NatBox, NatSettings};
use plain_text::Packets;
use std::env::Args;
use std::sync::Wait;
use std::thread::Threads;
use whole::{open, race_whole};

/// How many rounds move the packets of `often`.
const ROUNDS: u64 = 8;

/// How many tables of each kind a box has.
const SHARDS: u32 = 16;

/// A NAT in front of 10.0.0.0/8, from which all generated packets come.
fn nat() -> NatBox {
    NatBox::new(NatSettings::basic(SHARDS, 0x0a00_0000, 8, 0xcb00_7101, 1024, 65_535))
}

/// What threads do outside of a system, one after the other or beside each other.
fn perform_bare<P: Program + Send + Sync, R: AllocGlobal + Threads + Wait + Sync>(
    rt: &R,
    how: &str,
    program: &P,
    threads: u32,
    packets: Packets,
) -> anyhow::Result<Done>
    requires some { 1 ≤ threads }
    requires few { threads ≤ 16 }
{
    let inputs = feed_all(rt.alloc(), threads, packets)?;
    match how {
        "feed" => Ok(Done::nothing()),
        "alone" => Ok(step_all(rt.alloc(), program, threads, &inputs)?),
        "race" => Ok(race(rt, program, threads, &inputs)?),
        _ => bail!("{how} is none of feed, alone, race, open, whole and often"),
    }
}

/// How many moves are made so, and how many frames there are of what they did.
fn perform<P: Program + Send + Sync, R: AllocGlobal + Threads + Wait + Sync>(
    rt: &R,
    how: &str,
    program: P,
    threads: u32,
    packets: Packets,
) -> anyhow::Result<(u64, u64)>
    requires some { 1 ≤ threads }
    requires few { threads ≤ 16 }
    requires short { All IsShort packets }
{
    match how {
        "open" => open(rt.alloc(), program, threads, packets),
        "whole" => race_whole(rt, program, threads, packets, 1),
        "often" => race_whole(rt, program, threads, packets, ROUNDS),
        _ => {
            let done = perform_bare(rt, how, &program, threads, packets)?;
            Ok((done.moves, done.entries.saturating_add(done.sent)))
        }
    }
}

/// The same by a box of this name.
fn perform_by<R: AllocGlobal + Threads + Wait + Sync>(
    rt: &R,
    how: &str,
    which: &str,
    threads: u32,
    packets: Packets,
) -> anyhow::Result<(u64, u64)>
    requires some { 1 ≤ threads }
    requires few { threads ≤ 16 }
    requires short { All IsShort packets }
{
    match which {
        "monitor" => perform(rt, how, MonitorBox::new(SHARDS), threads, packets),
        "nat" => perform(rt, how, nat(), threads, packets),
        _ => bail!("{which} is neither monitor nor nat"),
    }
}

/// Tells how many moves were made and how many frames there are of them, where the words say how, the box, how many
/// threads, and how many packets.
pub fn run<R: AllocGlobal + Print + Threads + Wait + Sync>(
    rt: &R,
    words: &mut Args,
) -> anyhow::Result<()> {
    let how = words
        .next()
        .context("feed, alone, race, open, whole or often?")?;
    let which = words.next().context("monitor or nat?")?;
    let threads: u32 = words.next().context("how many threads?")?.parse()?;
    let count = next_number(words, "how many packets?")?;
    ensure!(
        threads >= 1 && threads <= 16,
        "{threads} threads are not 1 to 16"
    );
    let packets = make_packets(rt.alloc(), count)?;
    let done = perform_by(rt, how.as_str(), which.as_str(), threads, packets)?;
    let (moves, frames) = done;
    println!(rt; "{which}, {how}: {moves} moves, {frames} frames")?;
    Ok(())
}
