//! A system goes on by stages: events, and rounds of racing threads.
ghost use Rattle.std.specs.Prelude.{◌≡◌, IfSome, IsTrue, false, length};
ghost use Rattle.test_rounds.specs.Standing.{HasThreads, KeepsThreads};

use crate::asked::{Asked, is_kept};
use crate::record::{Record, are_idle, arrive, perform};
use box_program::Program;
use frame_intake::FrameName;
use live_workers::{Draws, RoundDone, round};
use recovery_core::System;
use recovery_world::Event;
use round_join::Noted;
use std::alloc::Global;
use std::sync::Wait;
use std::thread::{Threads, yield_now};
use var_locks::Gate;
use world_io::FixedClock;

/// A gate at which the threads of odd numbers let others go first.
pub struct YieldingGate;

impl Gate for YieldingGate {
    fn pass(&self, thread: u32, var: u32) {
        let _ = var;
        if thread % 2 == 1 {
            yield_now();
        }
    }
}

/// What happens next with a system.
#[derive(Clone, Copy)]
pub enum Stage {
    Event(Event),
    /// The threads race, and what may arrive arrives.
    Round(Asked),
    /// Each thread is to be idle.
    Idle,
}

/// A system, and the generators of its next round.
#[derive(Drop)]
pub struct Racing<P: Program> {
    pub system: System<P>,
    pub draws: Draws,
    pub threads: u32,
}

/// Whether a round did what was asked. Its steps are appended, and what may arrive arrives.
fn keep_round<P: Program>(
    alloc: Global,
    system: &mut System<P>,
    threads: u32,
    asked: &Asked,
    steps: Vec<Noted>,
    arriving: &[FrameName],
    record: &mut Record,
) -> bool
    requires runs { system.old.stopped ≡ false }
    ensures runs { IsTrue result → system.new.stopped ≡ false }
    ensures keeps { IsTrue result → KeepsThreads P.meaning system.old system.new }
{
    let kept = is_kept(alloc, asked, threads, steps.as_slice(), arriving);
    if kept != Ok(true) || record.add_steps(alloc, steps).is_err() {
        return false;
    }
    arrive(alloc, system, arriving, record)
}

/// A round of a system whose master is up. None also where it came to no end.
#[tactic(auto, using(crate::proofs::Keeping::round_keeps, crate::proofs::Keeping::is_up))]
fn race_with<P: Program + Send + Sync, R: AllocGlobal + Threads + Wait + Sync>(
    rt: &R,
    racing: Racing<P>,
    asked: &Asked,
) -> Option<RoundDone<P>>
    requires runs { racing.system.stopped ≡ false }
    requires of { HasThreads P.meaning racing.threads racing.system }
    requires draws { length racing.draws ≡ racing.threads }
    ensures runs { IfSome result (λ r. r.system.stopped ≡ false) }
    ensures of { IfSome result (λ r. HasThreads P.meaning racing.threads r.system) }
    ensures draws { IfSome result (λ r. length r.draws ≡ racing.threads) }
{
    let Racing {
        system,
        draws,
        threads,
    } = racing;
    let (true, Ok(orders)) = (system.up(), asked.orders(rt.alloc(), threads)) else {
        system.discard();
        return None;
    };
    let clock = FixedClock(asked.time);
    let Ok(done) = round(rt, system, &clock, &YieldingGate, &orders, draws) else {
        return None;
    };
    Some(done)
}

/// Lets the threads race, and then what may arrive arrive. None where the round did not do what was asked.
fn race<P: Program + Send + Sync, R: AllocGlobal + Threads + Wait + Sync>(
    rt: &R,
    racing: Racing<P>,
    asked: &Asked,
    record: &mut Record,
) -> Option<Racing<P>>
    requires runs { racing.system.stopped ≡ false }
    requires of { HasThreads P.meaning racing.threads racing.system }
    requires draws { length racing.draws ≡ racing.threads }
    ensures runs { IfSome result (λ r. r.system.stopped ≡ false) }
    ensures of { IfSome result (λ r. HasThreads P.meaning r.threads r.system) }
    ensures draws { IfSome result (λ r. length r.draws ≡ r.threads) }
{
    let alloc = rt.alloc();
    let threads = racing.threads;
    let RoundDone {
        mut system,
        steps,
        arriving,
        draws,
    } = race_with(rt, racing, asked)?;
    let frames = arriving.as_slice();
    if !keep_round(alloc, &mut system, threads, asked, steps, frames, record) {
        system.discard();
        return None;
    }
    Some(Racing {
        system,
        draws,
        threads,
    })
}

/// Performs an event, or, where there is none, sees that each thread is idle.
fn perform_stage<P: Program>(
    alloc: Global,
    system: &mut System<P>,
    event: Option<Event>,
    threads: u32,
    record: &mut Record,
) -> bool
    requires runs { system.old.stopped ≡ false }
    ensures runs { IsTrue result → system.new.stopped ≡ false }
    ensures keeps { IsTrue result → KeepsThreads P.meaning system.old system.new }
{
    match event {
        Some(event) => perform(alloc, system, &event, false, record),
        None => are_idle(alloc, system, threads, record),
    }
}

/// Goes on by an event, or, where there is none, sees that each thread is idle.
fn go_on<P: Program>(
    alloc: Global,
    racing: Racing<P>,
    event: Option<Event>,
    record: &mut Record,
) -> Option<Racing<P>>
    requires runs { racing.system.stopped ≡ false }
    requires of { HasThreads P.meaning racing.threads racing.system }
    requires draws { length racing.draws ≡ racing.threads }
    ensures runs { IfSome result (λ r. r.system.stopped ≡ false) }
    ensures of { IfSome result (λ r. HasThreads P.meaning r.threads r.system) }
    ensures draws { IfSome result (λ r. length r.draws ≡ r.threads) }
{
    let Racing {
        mut system,
        draws,
        threads,
    } = racing;
    if !perform_stage(alloc, &mut system, event, threads, record) {
        system.discard();
        return None;
    }
    Some(Racing {
        system,
        draws,
        threads,
    })
}

/// Goes on by one stage.
fn go_on_by_one<P: Program + Send + Sync, R: AllocGlobal + Threads + Wait + Sync>(
    rt: &R,
    racing: Racing<P>,
    stage: &Stage,
    record: &mut Record,
) -> Option<Racing<P>>
    requires runs { racing.system.stopped ≡ false }
    requires of { HasThreads P.meaning racing.threads racing.system }
    requires draws { length racing.draws ≡ racing.threads }
    ensures runs { IfSome result (λ r. r.system.stopped ≡ false) }
    ensures of { IfSome result (λ r. HasThreads P.meaning r.threads r.system) }
    ensures draws { IfSome result (λ r. length r.draws ≡ r.threads) }
{
    match stage {
        Stage::Event(event) => go_on(rt.alloc(), racing, Some(*event), record),
        Stage::Idle => go_on(rt.alloc(), racing, None, record),
        Stage::Round(asked) => race(rt, racing, asked, record),
    }
}

/// Goes on by all these stages.
pub fn go_on_by<P: Program + Send + Sync, R: AllocGlobal + Threads + Wait + Sync>(
    rt: &R,
    racing: Racing<P>,
    stages: &[Stage],
    record: &mut Record,
) -> Option<Racing<P>>
    requires runs { racing.system.stopped ≡ false }
    requires of { HasThreads P.meaning racing.threads racing.system }
    requires draws { length racing.draws ≡ racing.threads }
    ensures runs { IfSome result (λ r. r.system.stopped ≡ false) }
{
    match stages {
        [] => Some(racing),
        [stage, rest @ ..] => go_on_by(rt, go_on_by_one(rt, racing, stage, record)?, rest, record),
    }
}
