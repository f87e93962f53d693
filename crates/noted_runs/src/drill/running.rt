ghost use Rattle.std.specs.Prelude.{◌≡◌, ◌≤◌, All, List, IfOk, OnOk, Err, false};
ghost use Rattle.plain_text.specs.Packets.{IsShort};
ghost use Rattle.plain_text.specs.declared.limit.Limit.{Limit as LimitKind};
ghost use Rattle.recovery_world.specs.declared.event.Event.{Event as EventKind};
ghost use Rattle.recovery_world.specs.World.{Setting, World as SystemWorld};
ghost use Rattle.recovery_world.specs.Events.{OnShow};
ghost use Rattle.recovery_core.specs.Systems.{FinishesAs, SystemStands};
ghost use Rattle.noted_runs.specs.Ends.{HasEnded, HasHalted, setting_with};
ghost use Rattle.noted_runs.specs.Drilling.{HasPerformed, IsNew};

use crate::drill::performing::perform_all;
use access_log::Outputs;
use box_program::{Lent, Program};
use plain_text::{NoMemory, Packets, Unit};
use recovery_core::{Finished, Memory, Stop, System};
use recovery_world::{Event, Outcome};
use std::alloc::Global;

/// What events came to that were all performed.
#[derive(Drop)]
pub struct Ended {
    pub finished: Finished,
    /// How many entries new masters were given to follow.
    pub replayed: u64,
    /// What showing variable 0 comes to behind them.
    pub shown: Outcome,
}

/// What performing events came to.
#[derive(Drop)]
pub struct Ran {
    /// What they released, in order of release; until a limit stopped them.
    pub outputs: Outputs,
    pub end: Result<Ended, Stop>,
}

/// On how many threads a box runs, whether one tag is looked through, with which seed, and what the fractions of the
/// packets count.
#[derive(Clone, Copy)]
pub struct Frame {
    /// 1 to 16.
    pub threads: u32,
    pub tags: bool,
    pub seed: u64,
    pub unit: Unit,
}

/// What showing variable 0 comes to.
fn show_first<P: Program>(system: &mut System<P>) -> Result<Outcome, NoMemory>
    requires runs { system.old.stopped ≡ false }
    ensures runs { OnOk result (system.new.stopped ≡ false) }
    ensures program { OnOk result (system.new.parts.program ≡ system.old.parts.program) }
    ensures shows { (s : Setting P.Value) (w : SystemWorld P.Value)
        → SystemStands (P.meaning system.old.parts.program) s w system.old
        → IfOk result (λ shown. OnShow s w 0 shown) }
    ensures stands { (s : Setting P.Value) (w : SystemWorld P.Value)
        → SystemStands (P.meaning system.old.parts.program) s w system.old
        → OnOk result (SystemStands (P.meaning system.old.parts.program) s w system.new) }
{
    match system.on(&Event::Show(0)) {
        Ok(reply) => Ok(reply.outcome),
        Err(_) => Err(NoMemory),
    }
}

/// Finishes a run whose events were all performed.
fn finish_run<P: Program>(system: System<P>, replayed: u64) -> Result<Ended, NoMemory>
    requires runs { system.stopped ≡ false }
    ensures finish { (s : Setting P.Value) (w : SystemWorld P.Value)
        → SystemStands (P.meaning system.parts.program) s w system
        → IfOk result (λ e. FinishesAs s w e.finished) }
    ensures shows { (s : Setting P.Value) (w : SystemWorld P.Value)
        → SystemStands (P.meaning system.parts.program) s w system
        → IfOk result (λ e. OnShow s w 0 e.shown) }
    ensures replayed { IfOk result (λ e. e.replayed ≡ replayed) }
{
    let mut system = system;
    match show_first(&mut system) {
        Ok(shown) => Ok(Ended {
            finished: system.finish(Memory::GivenBack)?,
            replayed,
            shown,
        }),
        Err(no_memory) => {
            system.discard();
            Err(no_memory)
        }
    }
}

/// Ends a run whose events were all performed.
fn end_run<P: Program>(system: System<P>, replayed: u64) -> Ran
    requires runs { system.stopped ≡ false }
    ensures ended { (s : Setting P.Value) (events : List EventKind)
        → HasPerformed (P.meaning system.parts.program) s events replayed system
        → All IsShort s.packets → IfOk result.end (λ e. HasEnded s events e result.outputs) }
    ensures no_limit { (limit : LimitKind) → ¬ (result.end ≡ Err (Stop.Limit limit)) }
{
    let mut system = system;
    let outputs = system.take_released();
    match finish_run(system, replayed) {
        Ok(ended) => Ran {
            outputs,
            end: Ok(ended),
        },
        Err(NoMemory) => Ran {
            outputs,
            end: Err(Stop::NoMemory),
        },
    }
}

/// Performs events with a new system, and ends the run.
fn run_events<P: Program>(system: System<P>, events: &[Event]) -> Ran
    requires runs { system.stopped ≡ false }
    ensures ended { (s : Setting P.Value) → IsNew (P.meaning system.parts.program) s system
        → All IsShort s.packets → IfOk result.end (λ e. HasEnded s events.now e result.outputs) }
    ensures halted { (s : Setting P.Value) → IsNew (P.meaning system.parts.program) s system
        → All IsShort s.packets → (limit : LimitKind) → result.end ≡ Err (Stop.Limit limit)
        → HasHalted s events.now limit result.outputs }
{
    let mut system = system;
    match perform_all(&mut system, events) {
        Ok(replayed) => end_run(system, replayed),
        Err(stop) => {
            let outputs = system.take_released();
            system.discard();
            Ran {
                outputs,
                end: Err(stop),
            }
        }
    }
}

/// Runs a box on packets by these events, from their beginning to their end.
pub fn run_box<P: Program>(
    alloc: Global,
    frame: Frame,
    packets: Packets,
    program: &P,
    events: &[Event],
) -> Result<Ran, NoMemory>
    requires some_threads { 1 ≤ frame.threads }
    requires few_threads { frame.threads ≤ 16 }
    requires short { All IsShort packets }
    ensures ended { IfOk result (λ ran. IfOk ran.end (λ e.
        HasEnded (setting_with (P.meaning program.now) frame packets) events.now e ran.outputs)) }
    ensures halted { IfOk result (λ ran. (limit : LimitKind) → ran.end ≡ Err (Stop.Limit limit)
        → HasHalted (setting_with (P.meaning program.now) frame packets) events.now limit
        ran.outputs) }
{
    let lent = Lent { program };
    let system = System::new(
        alloc,
        lent,
        frame.threads,
        frame.tags,
        frame.seed,
        frame.unit,
        packets,
    )?;
    Ok(run_events(system, events))
}
