//! Rounds of the recovering system.
ghost use Rattle.std.specs.Prelude.{◌≡◌, ◌≤◌, All, IfSome, false, length};
ghost use Rattle.plain_text.specs.Packets.{IsShort};
ghost use Rattle.bench.specs.Systems.{CanRace, StandsSomewhere};

use anyhow::{Context, ensure};
use box_program::Program;
use frame_intake::{FrameName, RoundOrders};
use live_workers::{Draws, RoundDone, round};
use plain_text::{Packets, Unit};
use recovery_core::System;
use recovery_world::Event;
use round_join::Noted;
use std::alloc::Global;
use std::sync::Wait;
use std::thread::Threads;
use var_locks::OpenGate;
use world_io::FixedClock;

/// The seed of a system's random words, and of those that its racing threads draw.
const SEED: u64 = 1;

/// Makes a system, and has it fed all these packets. No move is made.
pub fn open<P: Program>(
    alloc: Global,
    program: P,
    threads: u32,
    packets: Packets,
) -> anyhow::Result<(u64, u64)>
    requires some { 1 ≤ threads }
    requires few { threads ≤ 16 }
    requires short { All IsShort packets }
{
    let count = packets.len() as u64;
    let mut system = System::new(alloc, program, threads, false, SEED, Unit::Micro, packets)?;
    let fed = system.on(&Event::Feed(count)).is_ok();
    system.discard();
    ensure!(fed, "the packets were not fed");
    Ok((0, 0))
}

/// What rounds came to: how many moves they made, and how many of their frames may arrive.
type Counts = (u64, u64);

/// The threads race until each is idle.
#[tactic(auto, using(crate::proofs::Opening::is_up))]
fn race_all<P: Program + Send + Sync, R: AllocGlobal + Threads + Wait + Sync>(
    rt: &R,
    system: System<P>,
    draws: Draws,
) -> Option<RoundDone<P>>
    requires runs { system.stopped ≡ false }
    requires stands { StandsSomewhere (P.meaning system.parts.program) system }
    requires draws { length draws ≡ system.parts.inputs.threads }
    ensures runs { IfSome result (λ r. r.system.stopped ≡ false) }
    ensures of { IfSome result (λ r. CanRace P.meaning r.system r.draws) }
{
    if !system.up() {
        system.discard();
        return None;
    }
    let orders = RoundOrders::none(rt.alloc());
    let Ok(done) = round(rt, system, &FixedClock(0), &OpenGate, &orders, draws) else {
        return None;
    };
    Some(done)
}

/// The same, once this number of packets was fed.
fn race_fed<P: Program + Send + Sync, R: AllocGlobal + Threads + Wait + Sync>(
    rt: &R,
    mut system: System<P>,
    packets: u64,
    draws: Draws,
) -> Option<RoundDone<P>>
    requires runs { system.stopped ≡ false }
    requires of { CanRace P.meaning system draws }
    ensures runs { IfSome result (λ r. r.system.stopped ≡ false) }
    ensures of { IfSome result (λ r. CanRace P.meaning r.system r.draws) }
{
    match system.on(&Event::Feed(packets)) {
        Ok(_) => race_all(rt, system, draws),
        Err(_) => {
            system.discard();
            None
        }
    }
}

/// The same with those of one more round, whose steps are let go.
fn count_round(counts: Counts, steps: Vec<Noted>, arriving: Vec<FrameName>) -> Counts {
    let (moves, frames) = counts;
    (
        moves.saturating_add(steps.len() as u64),
        frames.saturating_add(arriving.len() as u64),
    )
}

/// So many rounds, before each of which this number of packets is fed.
fn race_often<P: Program + Send + Sync, R: AllocGlobal + Threads + Wait + Sync>(
    rt: &R,
    system: System<P>,
    draws: Draws,
    packets: u64,
    rounds: u64,
    counts: Counts,
) -> Option<Counts>
    requires runs { system.stopped ≡ false }
    requires of { CanRace P.meaning system draws }
{
    if rounds == 0 {
        system.discard();
        return Some(counts);
    }
    let RoundDone {
        system,
        steps,
        arriving,
        draws,
    } = race_fed(rt, system, packets, draws)?;
    let counts = count_round(counts, steps, arriving);
    race_often(rt, system, draws, packets, rounds - 1, counts)
}

/// The same by a system on these packets, all of which are fed where the rounds divide them.
pub fn race_whole<P: Program + Send + Sync, R: AllocGlobal + Threads + Wait + Sync>(
    rt: &R,
    program: P,
    threads: u32,
    packets: Packets,
    rounds: u64,
) -> anyhow::Result<Counts>
    requires some { 1 ≤ threads }
    requires few { threads ≤ 16 }
    requires short { All IsShort packets }
    requires rounds { 1 ≤ rounds }
{
    let alloc = rt.alloc();
    let each = packets.len() as u64 / rounds;
    let draws = Draws::new(alloc, SEED, threads)?;
    let system = System::new(alloc, program, threads, false, SEED, Unit::Micro, packets)?;
    race_often(rt, system, draws, each, rounds, (0, 0)).context("a round came to no end")
}
