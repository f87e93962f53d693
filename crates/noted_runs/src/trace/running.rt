ghost use Rattle.std.specs.Prelude.{◌≡◌, ◌<◌, IfOk, OnOk, Err, false};
ghost use Rattle.plain_text.specs.declared.limit.Limit.{Limit as LimitKind};
ghost use Rattle.recovery_world.specs.World.{Setting, World, opening};
ghost use Rattle.recovery_core.specs.Systems.{SystemStands};
ghost use Rattle.system_parts.specs.SystemStanding.{StandsFor};
ghost use Rattle.noted_runs.specs.TraceGoing.{HasAllGone, HasGone, HasLacks, HasSeen, IsHalted};
ghost use Rattle.noted_runs.specs.TraceGoing.{IsSomewhere, ListsLacks};

use crate::trace::performing::{Departures, perform_all};
use crate::trace::places::{Places, find_places};
use box_program::Program;
use plain_text::{NoMemory, Sequence};
use recovery_core::{Finished, Lacks, Memory, Stop, System};
use recovery_world::Event;
use std::alloc::Global;

/// What the outputs of a thread lack, by their numbers.
pub type Lacking = Sequence<Lacks>;

/// What was seen of a system behind the last event.
#[derive(Drop)]
pub struct Seen {
    /// For each thread the places of its released outputs in the order of release, by their numbers.
    pub places: Vec<Places>,
    /// For each thread what its outputs lack that the master sent out.
    pub lacks: Vec<Lacking>,
}

/// What performing events came to.
#[derive(Drop)]
pub struct Gone {
    /// How the released outputs left.
    pub departures: Departures,
    pub seen: Seen,
    pub finished: Finished,
}

/// What each output of a thread lacks that the master sent out, by its number.
fn lacks_of_thread<P: Program>(
    alloc: Global,
    system: &System<P>,
    thread: u32,
) -> Result<Lacking, NoMemory>
    requires { thread < system.now.parts.inputs.threads }
    ensures { IfOk result (λ list. (s : Setting P.Value) (w : World P.Value)
        → StandsFor (P.meaning system.now.parts.program) s w system.now.parts
        → ListsLacks w thread list) }
{
    let mut list = Lacking::new(alloc);
    let sent = system.counts(thread).outputs;
    for number in 0..sent {
        let lacks = system.lacks(thread, number)?;
        list.push(lacks)?;
    }
    let last = system.lacks(thread, sent)?;
    list.push(last)?;
    Ok(list)
}

/// What each output of each thread lacks.
fn all_lacks<P: Program>(
    alloc: Global,
    system: &System<P>,
    threads: u32,
) -> Result<Vec<Lacking>, NoMemory>
    requires { threads ≡ system.now.parts.inputs.threads }
    ensures { IfOk result (λ lists. (s : Setting P.Value) (w : World P.Value)
        → StandsFor (P.meaning system.now.parts.program) s w system.now.parts
        → HasLacks threads w lists.items) }
{
    let mut lists = Vec::new(alloc);
    for thread in 0..threads {
        let list = lacks_of_thread(alloc, system, thread)?;
        lists.push(list)?;
    }
    Ok(lists)
}

/// What is seen of a system of so many threads.
fn see<P: Program>(alloc: Global, system: &System<P>, threads: u32) -> Result<Seen, NoMemory>
    requires { IsSomewhere threads (P.meaning system.now.parts.program) system.now }
    ensures { IfOk result (λ seen. (s : Setting P.Value) (w : World P.Value)
        → SystemStands (P.meaning system.now.parts.program) s w system.now
        → HasSeen threads w seen) }
{
    let places = find_places(alloc, threads, system.released().as_slice())?;
    let lacks = all_lacks(alloc, system, threads)?;
    Ok(Seen { places, lacks })
}

/// Performs events with a system, and sees what is there behind them.
fn go<P: Program>(
    alloc: Global,
    system: &mut System<P>,
    threads: u32,
    events: &[Event],
) -> Result<(Departures, Seen), Stop>
    requires runs { system.old.stopped ≡ false }
    requires somewhere { IsSomewhere threads (P.meaning system.old.parts.program) system.old }
    ensures runs { OnOk result (system.new.stopped ≡ false) }
    ensures gone { (s : Setting P.Value)
        → SystemStands (P.meaning system.old.parts.program) s (opening P.Value) system.old
        → IfOk result (λ went. HasGone (P.meaning system.new.parts.program) s events.now went.0
        system.new) }
    ensures seen { IfOk result (λ went. (s : Setting P.Value) (w : World P.Value)
        → SystemStands (P.meaning system.new.parts.program) s w system.new
        → HasSeen threads w went.1) }
    ensures limit { (s : Setting P.Value)
        → SystemStands (P.meaning system.old.parts.program) s (opening P.Value) system.old
        → (limit : LimitKind) → result ≡ Err (Stop.Limit limit) → IsHalted s events.now limit }
{
    let departures = perform_all(alloc, system, events)?;
    let seen = see(alloc, system, threads)?;
    Ok((departures, seen))
}

/// Performs events with a new system of so many threads, and ends the run.
pub fn run_events<P: Program>(
    alloc: Global,
    system: System<P>,
    threads: u32,
    events: &[Event],
) -> Result<Gone, Stop>
    requires runs { system.stopped ≡ false }
    requires somewhere { IsSomewhere threads (P.meaning system.parts.program) system }
    ensures gone { IfOk result (λ gone. (s : Setting P.Value) → s.threads ≡ threads
        → SystemStands (P.meaning system.parts.program) s (opening P.Value) system
        → HasAllGone s events.now gone) }
    ensures limit { (limit : LimitKind) → result ≡ Err (Stop.Limit limit)
        → (s : Setting P.Value)
        → SystemStands (P.meaning system.parts.program) s (opening P.Value) system
        → IsHalted s events.now limit }
{
    let mut system = system;
    match go(alloc, &mut system, threads, events) {
        Ok((departures, seen)) => {
            let finished = system.finish(Memory::Left)?;
            Ok(Gone {
                departures,
                seen,
                finished,
            })
        }
        Err(stop) => {
            system.discard();
            Err(stop)
        }
    }
}
