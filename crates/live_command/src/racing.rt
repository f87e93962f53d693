//! Threads race in a round, and what they did is told.
ghost use Rattle.std.specs.Prelude.{◌≡◌, ◌∷◌, ◌++◌, ◌≤◌, [], List, ℕ, length, IfOk, OnOk, IsTrue};
ghost use Rattle.std.specs.Prelude.{IsErrOf};
ghost use Rattle.std.specs.Prelude.{false, true};
ghost use Rattle.plain_text.specs.declared.limit.TheConstants.{MOST_EVENTS as most_events};
ghost use Rattle.plain_text.specs.declared.limit.TheConstants.{MOST_FILE_BYTES as most_bytes};
ghost use Rattle.world_io.specs.World.{Start, Shown, is_writable, WritingFailed};
ghost use Rattle.recovery_world.specs.declared.event.Event.{Event as EventKind};
ghost use Rattle.recovery_world.specs.World.{Setting, World as SystemWorld};
ghost use Rattle.output_files.specs.Written.{OnlyWrites};
ghost use Rattle.output_files.specs.Writes.{IsOutput, KeepsOutputs};
ghost use Rattle.frame_intake.specs.Orders.{orders_of};
ghost use Rattle.plan_script.specs.Orders.{Orders};
ghost use Rattle.run_command.specs.Running.{IsSomewhere, IsSystemAt};
ghost use Rattle.live_writes.specs.Outputs.{AreApart, LiveOutputs};
ghost use Rattle.live_writes.specs.Told.{AreOpen, HasTold};
ghost use Rattle.plain_text.specs.declared.limit.Limit.{Limit as LimitKind};
ghost use Rattle.live_workers.specs.FromRoundJoin.{PerformsNoted, events_noted};
ghost use Rattle.live_command.specs.Going.{GoesRace, GoesRound, HasLivedTo, SameOrders};
ghost use Rattle.live_command.specs.Going.{StopsAtStep, StopsRace, standing_in};

use crate::arriving::arrive;
use crate::standing::Standing;
use crate::stepping::tell_steps;
use crate::writing::{add_line, flush};
use box_program::Program;
use frame_intake::{FrameName, RoundOrders};
use live_workers::{Noted, RoundDone, RoundStop, round};
use live_writes::{LiveNumbers, Script};
use plain_machine::PlainMove;
use plain_text::Bytes;
use recovery_world::Event;
use run_command::System;
use run_writes::{RunError, written};
use std::alloc::Global;
use std::sync::Wait;
use std::thread::Threads;
use var_locks::Gate;
use world_io::{Clock, World};

/// Tells the steps of a round that stopped at a limit, and the one that would pass it; then all that is gathered is
/// written.
fn tell_stop<X, W: World>(
    alloc: Global,
    world: &mut W,
    file: u32,
    lines: &mut Bytes,
    script: &mut Script,
    steps: &[Noted],
    next: PlainMove,
) -> Result<(), RunError>
    requires writable { IsTrue (is_writable (W.ledger world.old) file) }
    requires few { script.old.count ≤ most_events }
    requires short { script.old.size ≤ most_bytes }
    ensures told { (p : Start) → W.honest p world.new
        → (s : Setting X) (names : LiveOutputs) (events : List EventKind)
        (w : SystemWorld X) (limit : LimitKind) (before : Shown) → AreApart names
        → IsOutput file names.script (W.shows p world.old)
        → HasTold s names events events w lines.old script.old before (W.shows p world.old)
        → StopsAtStep s w limit steps.now next
        → StopsRace result s names w limit events before (W.shows p world.new) }
    ensures few { script.new.count ≤ most_events }
    ensures short { script.new.size ≤ most_bytes }
    ensures only_writes { OnlyWrites W.ledger W.healthy world.old world.new }
    ensures cause { IsErrOf result RunError.WriteFault
        → WritingFailed W.ledger W.healthy world.old world.new }
    ensures keeps { (p : Start) → W.honest p world.new
        → KeepsOutputs (W.shows p world.old) (W.shows p world.new) }
    ensures before { (p : Start) → W.honest p world.new → W.honest p world.old }
{
    tell_steps::<X, W>(alloc, world, file, lines, script, steps)?;
    let event = Event::Step {
        thread: u64::from(next.thread),
        answer: next.answer,
    };
    add_line::<X, W>(world, file, lines, script, &event)?;
    let files = flush::<X, W>(world, file, lines, script);
    written(files)
}

/// Tells the steps of a round that came to its end, and lets the frames arrive that may.
fn tell_race<P: Program, W: World>(
    alloc: Global,
    world: &mut W,
    files: LiveNumbers,
    lines: &mut Bytes,
    script: &mut Script,
    system: &mut System<P>,
    steps: &[Noted],
    arriving: &[FrameName],
) -> Result<(), RunError>
    requires runs { system.old.stopped ≡ false }
    requires somewhere { IsSomewhere (P.meaning system.old.parts.program) system.old }
    requires released { IsTrue (is_writable (W.ledger world.old) files.released) }
    requires script { IsTrue (is_writable (W.ledger world.old) files.script) }
    requires few { script.old.count ≤ most_events }
    requires short { script.old.size ≤ most_bytes }
    ensures told { (p : Start) → W.honest p world.new → (s : Setting P.Value) (names : LiveOutputs)
        (events : List EventKind) (w there : SystemWorld P.Value) (before : Shown)
        → AreApart names
        → AreOpen names files.released files.schedule files.script (W.shows p world.old)
        → HasTold s names events events w lines.old script.old before (W.shows p world.old)
        → PerformsNoted s w steps.now there
        → IsSystemAt (P.meaning system.old.parts.program) s there system.old
        → s.threads ≤ 16
        → GoesRace result (P.meaning system.old.parts.program) s names there events
        (events_noted steps.now) arriving.now system.new lines.new script.new before
        (W.shows p world.new) }
    ensures few { script.new.count ≤ most_events }
    ensures short { script.new.size ≤ most_bytes }
    ensures runs { OnOk result (system.new.stopped ≡ false) }
    ensures somewhere { OnOk result
        (IsSomewhere (P.meaning system.old.parts.program) system.new) }
    ensures program { OnOk result (system.new.parts.program ≡ system.old.parts.program) }
    ensures threads { OnOk result
        (system.new.parts.inputs.threads ≡ system.old.parts.inputs.threads) }
    ensures only_writes { OnlyWrites W.ledger W.healthy world.old world.new }
    ensures cause { IsErrOf result RunError.WriteFault
        → WritingFailed W.ledger W.healthy world.old world.new }
    ensures keeps { (p : Start) → W.honest p world.new
        → KeepsOutputs (W.shows p world.old) (W.shows p world.new) }
    ensures before { (p : Start) → W.honest p world.new → W.honest p world.old }
{
    tell_steps::<P::Value, W>(alloc, world, files.script, lines, script, steps)?;
    arrive(alloc, world, files, lines, script, system, arriving)
}

/// The same of a round whose system is given on.
fn tell_round<P: Program, W: World>(
    alloc: Global,
    world: &mut W,
    files: LiveNumbers,
    lines: &mut Bytes,
    script: &mut Script,
    done: RoundDone<P>,
) -> Result<Standing<P>, RunError>
    requires runs { done.system.stopped ≡ false }
    requires somewhere { IsSomewhere (P.meaning done.system.parts.program) done.system }
    requires draws { length done.draws ≡ done.system.parts.inputs.threads }
    requires released { IsTrue (is_writable (W.ledger world.old) files.released) }
    requires script { IsTrue (is_writable (W.ledger world.old) files.script) }
    requires few { script.old.count ≤ most_events }
    requires short { script.old.size ≤ most_bytes }
    ensures told { (p : Start) → W.honest p world.new → (s : Setting P.Value) (names : LiveOutputs)
        (events : List EventKind) (w there : SystemWorld P.Value) (before : Shown)
        → AreApart names
        → AreOpen names files.released files.schedule files.script (W.shows p world.old)
        → HasTold s names events events w lines.old script.old before (W.shows p world.old)
        → PerformsNoted s w done.steps.items there
        → IsSystemAt (P.meaning done.system.parts.program) s there done.system
        → s.threads ≤ 16
        → GoesRace result (P.meaning done.system.parts.program) s names there events
        (events_noted done.steps.items) done.arriving.items (standing_in result done.system)
        lines.new script.new before (W.shows p world.new) }
    ensures few { script.new.count ≤ most_events }
    ensures short { script.new.size ≤ most_bytes }
    ensures runs { IfOk result (λ y. y.system.stopped ≡ false) }
    ensures somewhere { IfOk result (λ y.
        IsSomewhere (P.meaning done.system.parts.program) y.system) }
    ensures program { IfOk result (λ y.
        y.system.parts.program ≡ done.system.parts.program) }
    ensures threads { IfOk result (λ y.
        y.system.parts.inputs.threads ≡ done.system.parts.inputs.threads) }
    ensures draws { IfOk result (λ y. length y.draws ≡ y.system.parts.inputs.threads) }
    ensures given { IfOk result (λ y. y.draws ≡ done.draws) }
    ensures only_writes { OnlyWrites W.ledger W.healthy world.old world.new }
    ensures cause { IsErrOf result RunError.WriteFault
        → WritingFailed W.ledger W.healthy world.old world.new }
    ensures keeps { (p : Start) → W.honest p world.new
        → KeepsOutputs (W.shows p world.old) (W.shows p world.new) }
    ensures before { (p : Start) → W.honest p world.new → W.honest p world.old }
{
    let RoundDone {
        mut system,
        steps,
        arriving,
        draws,
    } = done;
    let steps = steps.as_slice();
    let arriving = arriving.as_slice();
    match tell_race(
        alloc,
        world,
        files,
        lines,
        script,
        &mut system,
        steps,
        arriving,
    ) {
        Ok(()) => Ok(Standing { system, draws }),
        Err(error) => {
            system.discard();
            Err(error)
        }
    }
}

/// The threads race until each made as many moves as it is ordered, is idle, or waits; then the frames that may arrive
/// do. All of it is told.
pub(crate) fn race<
    P: Program + Send + Sync,
    W: World,
    C: Clock + Sync,
    G: Gate + Sync,
    R: AllocGlobal + Threads + Wait + Sync,
>(
    rt: &R,
    world: &mut W,
    files: LiveNumbers,
    lines: &mut Bytes,
    script: &mut Script,
    standing: Standing<P>,
    orders: &RoundOrders,
    clock: &C,
    gate: &G,
) -> Result<Standing<P>, RunError>
    requires runs { standing.system.stopped ≡ false }
    requires somewhere { IsSomewhere (P.meaning standing.system.parts.program) standing.system }
    requires draws { length standing.draws ≡ standing.system.parts.inputs.threads }
    requires up { standing.system.parts.up ≡ true }
    requires released { IsTrue (is_writable (W.ledger world.old) files.released) }
    requires script { IsTrue (is_writable (W.ledger world.old) files.script) }
    requires few { script.old.count ≤ most_events }
    requires short { script.old.size ≤ most_bytes }
    ensures told { (p : Start) → W.honest p world.new → (s : Setting P.Value) (names : LiveOutputs)
        (events : List EventKind) (w : SystemWorld P.Value) (asked : Orders) (before : Shown)
        → SameOrders asked (orders_of orders.now) → AreApart names
        → AreOpen names files.released files.schedule files.script (W.shows p world.old)
        → HasLivedTo (P.meaning standing.system.parts.program) s names events w standing.system
        lines.old script.old before (W.shows p world.old)
        → GoesRound result (P.meaning standing.system.parts.program) s names (C.may clock.now) w
        asked standing.draws events lines.new script.new before (W.shows p world.new) }
    ensures few { script.new.count ≤ most_events }
    ensures short { script.new.size ≤ most_bytes }
    ensures runs { IfOk result (λ y. y.system.stopped ≡ false) }
    ensures somewhere { IfOk result (λ y.
        IsSomewhere (P.meaning standing.system.parts.program) y.system) }
    ensures program { IfOk result (λ y.
        y.system.parts.program ≡ standing.system.parts.program) }
    ensures threads { IfOk result (λ y.
        y.system.parts.inputs.threads ≡ standing.system.parts.inputs.threads) }
    ensures draws { IfOk result (λ y. length y.draws ≡ y.system.parts.inputs.threads) }
    ensures only_writes { OnlyWrites W.ledger W.healthy world.old world.new }
    ensures cause { IsErrOf result RunError.WriteFault
        → WritingFailed W.ledger W.healthy world.old world.new }
    ensures keeps { (p : Start) → W.honest p world.new
        → KeepsOutputs (W.shows p world.old) (W.shows p world.new) }
    ensures before { (p : Start) → W.honest p world.new → W.honest p world.old }
{
    let alloc = rt.alloc();
    let Standing { system, draws } = standing;
    match round(rt, system, clock, gate, orders, draws) {
        Ok(done) => tell_round(alloc, world, files, lines, script, done),
        Err(RoundStop::Limit { limit, steps, next }) => {
            let steps = steps.as_slice();
            tell_stop::<P::Value, W>(alloc, world, files.script, lines, script, steps, next)?;
            Err(RunError::Limit(limit))
        }
        Err(RoundStop::NoMemory) => Err(RunError::NoMemory),
    }
}
