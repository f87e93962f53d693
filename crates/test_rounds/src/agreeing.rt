//! A system whose threads race, and one that performs the same steps and arrivals as events, one after another.
ghost use Rattle.std.specs.Prelude.{◌≡◌, IfSome, IsTrue, false};
ghost use Rattle.test_rounds.specs.Standing.{HasThreads};

use crate::packets::{are_taken, packets_of};
use crate::racing::{Racing, Stage, go_on_by};
use crate::record::Record;
use access_log::{Output, Outputs};
use box_program::Program;
use event_replies::{Finished, put_line};
use live_workers::Draws;
use plain_machine::Schedule;
use plain_text::{NoMemory, Unit};
use recovery_core::{Memory, System};
use recovery_world::Event;
use std::alloc::Global;
use std::sync::Wait;
use std::thread::Threads;

/// The seed of the systems.
const SEED: u64 = 42;

/// The seed of the words that racing threads draw.
pub const DRAWS: u64 = 7;

/// What a run came to: what it released, and how it ended.
#[derive(Drop)]
pub struct End {
    pub released: Outputs,
    pub finished: Finished,
}

/// A system on this number of packets. None also where they are too long, or the threads too many.
#[tactic(auto, using(crate::proofs::Keeping::opens))]
fn fresh<P: Program>(alloc: Global, program: P, threads: u32, packets: u32) -> Option<System<P>>
    ensures runs { IfSome result (λ y. y.stopped ≡ false) }
    ensures of { IfSome result (λ y. HasThreads P.meaning threads y) }
{
    let Ok(packets) = packets_of(alloc, packets) else {
        return None;
    };
    if threads == 0 || threads > 16 || !are_taken(packets.as_slice()) {
        return None;
    }
    match System::new(alloc, program, threads, false, SEED, Unit::Micro, packets) {
        Ok(system) => Some(system),
        Err(NoMemory) => None,
    }
}

/// How a run ends.
fn finish<P: Program>(mut system: System<P>) -> Option<End>
    requires { system.stopped ≡ false }
{
    let released = system.take_released();
    let finished = system.finish(Memory::GivenBack).ok()?;
    Some(End { released, finished })
}

/// How a run by these stages ends.
#[tactic(auto, using(crate::proofs::Keeping::generators_count))]
pub fn race_by<P: Program + Send + Sync, R: AllocGlobal + Threads + Wait + Sync>(
    rt: &R,
    program: P,
    threads: u32,
    packets: u32,
    stages: &[Stage],
    record: &mut Record,
) -> Option<End> {
    let alloc = rt.alloc();
    let Ok(draws) = Draws::new(alloc, DRAWS, threads) else {
        return None;
    };
    let system = fresh(alloc, program, threads, packets)?;
    let racing = Racing {
        system,
        draws,
        threads,
    };
    finish(go_on_by(rt, racing, stages, record)?.system)
}

/// Performs an event, and appends its line; whether it was performed.
fn perform<P: Program>(
    alloc: Global,
    system: &mut System<P>,
    event: &Event,
    report: &mut String,
) -> bool
    requires { system.old.stopped ≡ false }
    ensures { IsTrue result → system.new.stopped ≡ false }
{
    let Ok(reply) = system.on(event) else {
        return false;
    };
    match put_line(alloc, event, &reply) {
        Ok(line) => report.push_str(line.as_str()).is_ok(),
        Err(NoMemory) => false,
    }
}

/// Performs these events, and appends their lines; whether they were performed.
fn perform_all<P: Program>(
    alloc: Global,
    system: &mut System<P>,
    events: &[Event],
    report: &mut String,
) -> bool
    requires { system.old.stopped ≡ false }
    ensures { IsTrue result → system.new.stopped ≡ false }
{
    'events: for event in events {
        if !perform(alloc, system, event, report) {
            return false;
        }
    }
    true
}

/// How a run by these events ends.
fn perform_by<P: Program>(
    alloc: Global,
    program: P,
    threads: u32,
    packets: u32,
    events: &[Event],
    report: &mut String,
) -> Option<End> {
    let mut system = fresh(alloc, program, threads, packets)?;
    if !perform_all(alloc, &mut system, events, report) {
        system.discard();
        return None;
    }
    finish(system)
}

/// Whether two outputs are the same.
fn is_same(one: &Output, other: &Output) -> bool {
    one.thread == other.thread
        && one.number == other.number
        && one.input == other.input
        && one.stamp == other.stamp
        && one.packet.seconds == other.packet.seconds
        && one.packet.fraction == other.packet.fraction
        && one.packet.original == other.packet.original
        && one.packet.bytes.as_slice() == other.packet.bytes.as_slice()
}

/// Whether these are the same outputs in the same order.
fn are_same(ones: &[Output], others: &[Output]) -> bool {
    for (one, other) in ones.iter().zip(others) {
        if !is_same(one, other) {
            return false;
        }
    }
    ones.len() == others.len()
}

/// Whether these are the same moves.
fn are_same_moves(ones: &Schedule, others: &Schedule) -> bool {
    let count = ones.len();
    if others.len() != count {
        return false;
    }
    for index in 0..count {
        if ones.at(index) != others.at(index) {
            return false;
        }
    }
    true
}

/// Whether two runs came to the same.
fn end_alike(one: &End, other: &End) -> bool {
    let (first, second) = (&one.finished, &other.finished);
    are_same_moves(&first.schedule, &second.schedule)
        && first.fed == second.fed
        && first.epoch == second.epoch
        && first.released == second.released
        && are_same(one.released.as_slice(), other.released.as_slice())
}

/// How many outputs a run by these stages releases, where it does what is asked, and a run of the same steps one after
/// another comes to the same.
pub fn released_by<P: Program + Send + Sync, R: AllocGlobal + Threads + Wait + Sync>(
    rt: &R,
    program: P,
    same: P,
    threads: u32,
    packets: u32,
    stages: &[Stage],
) -> Option<u64> {
    let alloc = rt.alloc();
    let mut record = Record::new(alloc);
    let raced = race_by(rt, program, threads, packets, stages, &mut record)?;
    let mut report = String::new(alloc);
    let events = record.events.as_slice();
    let performed = perform_by(alloc, same, threads, packets, events, &mut report)?;
    if report.as_str() != record.report.as_str() || !end_alike(&raced, &performed) {
        return None;
    }
    Some(raced.finished.released)
}
