//! The lines of a plan.
ghost use Rattle.std.specs.Prelude.{◌≡◌, ◌∷◌, ◌++◌, ◌≤◌, [], List, ℕ, length, IfOk, OnOk, IsTrue};
ghost use Rattle.std.specs.Prelude.{IsErrOf};
ghost use Rattle.std.specs.Prelude.{false, true, IfErr};
ghost use Rattle.plain_text.specs.declared.limit.TheConstants.{MOST_EVENTS as most_events};
ghost use Rattle.plain_text.specs.declared.limit.TheConstants.{MOST_FILE_BYTES as most_bytes};
ghost use Rattle.world_io.specs.World.{Start, Shown, is_writable, WritingFailed};
ghost use Rattle.recovery_world.specs.declared.event.Event.{Event as EventKind};
ghost use Rattle.recovery_world.specs.World.{Setting, World as SystemWorld};
ghost use Rattle.output_files.specs.Writes.{KeepsOutputs};
ghost use Rattle.output_files.specs.Written.{OnlyWrites};
ghost use Rattle.frame_intake.specs.Orders.{orders_of};
ghost use Rattle.plan_script.specs.Orders.{Orders};
ghost use Rattle.run_command.specs.Running.{IsSomewhere};
ghost use Rattle.live_workers.specs.Draws.{generators_of};
ghost use Rattle.live_writes.specs.Outputs.{AreApart, LiveOutputs};
ghost use Rattle.live_writes.specs.Told.{AreOpen};
ghost use Rattle.live_command.specs.Going.{GoesLine, GoesOver, GoesToldRound, HasLivedTo};
ghost use Rattle.live_command.specs.Going.{SameOrders, event_of_line, standing_in};
ghost use Rattle.live_command.specs.Plans.{GoesPlan};
ghost use Rattle.recovery_world.specs.World.{opening};

use crate::performing::tell;
use crate::racing::race;
use crate::settling::settle;
use crate::standing::Standing;
use box_program::Program;
use frame_intake::{FrameName, RoundOrders};
use live_writes::{LiveNumbers, Script};
use plain_text::Bytes;
use plan_script::PlanLine;
use recovery_world::Event;
use run_writes::RunError;
use std::alloc::Global;
use std::mem;
use std::sync::Wait;
use std::thread::Threads;
use var_locks::Gate;
use world_io::{Clock, World};

/// Performs one event, and gives the system on.
fn tell_one<P: Program, W: World>(
    alloc: Global,
    world: &mut W,
    files: LiveNumbers,
    lines: &mut Bytes,
    script: &mut Script,
    standing: Standing<P>,
    event: &Event,
) -> Result<Standing<P>, RunError>
    requires runs { standing.system.stopped ≡ false }
    requires somewhere { IsSomewhere (P.meaning standing.system.parts.program) standing.system }
    requires draws { length standing.draws ≡ standing.system.parts.inputs.threads }
    requires released { IsTrue (is_writable (W.ledger world.old) files.released) }
    requires script { IsTrue (is_writable (W.ledger world.old) files.script) }
    requires few { script.old.count ≤ most_events }
    requires short { script.old.size ≤ most_bytes }
    ensures told { (p : Start) → W.honest p world.new → (s : Setting P.Value) (names : LiveOutputs)
        (events : List EventKind) (w : SystemWorld P.Value) (before : Shown) → AreApart names
        → AreOpen names files.released files.schedule files.script (W.shows p world.old)
        → HasLivedTo (P.meaning standing.system.parts.program) s names events w standing.system
        lines.old script.old before (W.shows p world.old)
        → GoesOver result (P.meaning standing.system.parts.program) s names w events
        (event.now ∷ []) (standing_in result standing.system) lines.new script.new before
        (W.shows p world.new) }
    ensures few { script.new.count ≤ most_events }
    ensures short { script.new.size ≤ most_bytes }
    ensures runs { IfOk result (λ y. y.system.stopped ≡ false) }
    ensures somewhere { IfOk result (λ y.
        IsSomewhere (P.meaning standing.system.parts.program) y.system) }
    ensures program { IfOk result (λ y.
        y.system.parts.program ≡ standing.system.parts.program) }
    ensures threads { IfOk result (λ y.
        y.system.parts.inputs.threads ≡ standing.system.parts.inputs.threads) }
    ensures draws { IfOk result (λ y. length y.draws ≡ y.system.parts.inputs.threads) }
    ensures given { IfOk result (λ y. y.draws ≡ standing.draws) }
    ensures only_writes { OnlyWrites W.ledger W.healthy world.old world.new }
    ensures cause { IsErrOf result RunError.WriteFault
        → WritingFailed W.ledger W.healthy world.old world.new }
    ensures keeps { (p : Start) → W.honest p world.new
        → KeepsOutputs (W.shows p world.old) (W.shows p world.new) }
    ensures before { (p : Start) → W.honest p world.new → W.honest p world.old }
{
    let Standing { mut system, draws } = standing;
    match tell(alloc, world, files, lines, script, &mut system, event) {
        Ok(()) => Ok(Standing { system, draws }),
        Err(error) => {
            system.discard();
            Err(error)
        }
    }
}

/// A round with these orders, which does nothing while the master is down.
fn race_if_up<
    P: Program + Send + Sync,
    W: World,
    C: Clock + Sync,
    G: Gate + Sync,
    R: AllocGlobal + Threads + Wait + Sync,
>(
    rt: &R,
    world: &mut W,
    files: LiveNumbers,
    lines: &mut Bytes,
    script: &mut Script,
    standing: Standing<P>,
    orders: &RoundOrders,
    clock: &C,
    gate: &G,
) -> Result<Standing<P>, RunError>
    requires runs { standing.system.stopped ≡ false }
    requires somewhere { IsSomewhere (P.meaning standing.system.parts.program) standing.system }
    requires draws { length standing.draws ≡ standing.system.parts.inputs.threads }
    requires released { IsTrue (is_writable (W.ledger world.old) files.released) }
    requires script { IsTrue (is_writable (W.ledger world.old) files.script) }
    requires few { script.old.count ≤ most_events }
    requires short { script.old.size ≤ most_bytes }
    ensures told { (p : Start) → W.honest p world.new → (s : Setting P.Value) (names : LiveOutputs)
        (events : List EventKind) (w : SystemWorld P.Value) (asked : Orders) (before : Shown)
        → SameOrders asked (orders_of orders.now) → AreApart names
        → AreOpen names files.released files.schedule files.script (W.shows p world.old)
        → HasLivedTo (P.meaning standing.system.parts.program) s names events w standing.system
        lines.old script.old before (W.shows p world.old)
        → GoesToldRound result (P.meaning standing.system.parts.program) s names
        (C.may clock.now) w asked standing.draws events lines.new script.new before
        (W.shows p world.new) }
    ensures few { script.new.count ≤ most_events }
    ensures short { script.new.size ≤ most_bytes }
    ensures runs { IfOk result (λ y. y.system.stopped ≡ false) }
    ensures somewhere { IfOk result (λ y.
        IsSomewhere (P.meaning standing.system.parts.program) y.system) }
    ensures program { IfOk result (λ y.
        y.system.parts.program ≡ standing.system.parts.program) }
    ensures threads { IfOk result (λ y.
        y.system.parts.inputs.threads ≡ standing.system.parts.inputs.threads) }
    ensures draws { IfOk result (λ y. length y.draws ≡ y.system.parts.inputs.threads) }
    ensures only_writes { OnlyWrites W.ledger W.healthy world.old world.new }
    ensures cause { IsErrOf result RunError.WriteFault
        → WritingFailed W.ledger W.healthy world.old world.new }
    ensures keeps { (p : Start) → W.honest p world.new
        → KeepsOutputs (W.shows p world.old) (W.shows p world.new) }
    ensures before { (p : Start) → W.honest p world.new → W.honest p world.old }
{
    if !standing.system.up() {
        return Ok(standing);
    }
    race(
        rt, world, files, lines, script, standing, orders, clock, gate,
    )
}

/// Performs a line of a plan, of which these orders are given so far.
fn perform_line<
    P: Program + Send + Sync,
    W: World,
    C: Clock + Sync,
    G: Gate + Sync,
    R: AllocGlobal + Threads + Wait + Sync,
>(
    rt: &R,
    world: &mut W,
    files: LiveNumbers,
    lines: &mut Bytes,
    script: &mut Script,
    standing: Standing<P>,
    threads: u32,
    orders: &mut RoundOrders,
    line: PlanLine,
    clock: &C,
    gate: &G,
) -> Result<Standing<P>, RunError>
    requires runs { standing.system.stopped ≡ false }
    requires somewhere { IsSomewhere (P.meaning standing.system.parts.program) standing.system }
    requires draws { length standing.draws ≡ standing.system.parts.inputs.threads }
    requires threads { threads ≡ standing.system.parts.inputs.threads }
    requires released { IsTrue (is_writable (W.ledger world.old) files.released) }
    requires script { IsTrue (is_writable (W.ledger world.old) files.script) }
    requires few { script.old.count ≤ most_events }
    requires short { script.old.size ≤ most_bytes }
    ensures told { (p : Start) → W.honest p world.new → (s : Setting P.Value) (names : LiveOutputs)
        (events : List EventKind) (w : SystemWorld P.Value) (asked : Orders) (before : Shown)
        → SameOrders asked (orders_of orders.old) → AreApart names
        → AreOpen names files.released files.schedule files.script (W.shows p world.old)
        → HasLivedTo (P.meaning standing.system.parts.program) s names events w standing.system
        lines.old script.old before (W.shows p world.old)
        → GoesLine result (P.meaning standing.system.parts.program) s names (C.may clock.now) w
        asked line standing.draws events (orders_of orders.new) lines.new script.new before
        (W.shows p world.new) }
    ensures few { script.new.count ≤ most_events }
    ensures short { script.new.size ≤ most_bytes }
    ensures runs { IfOk result (λ y. y.system.stopped ≡ false) }
    ensures somewhere { IfOk result (λ y.
        IsSomewhere (P.meaning standing.system.parts.program) y.system) }
    ensures program { IfOk result (λ y.
        y.system.parts.program ≡ standing.system.parts.program) }
    ensures threads { IfOk result (λ y.
        y.system.parts.inputs.threads ≡ standing.system.parts.inputs.threads) }
    ensures draws { IfOk result (λ y. length y.draws ≡ y.system.parts.inputs.threads) }
    ensures only_writes { OnlyWrites W.ledger W.healthy world.old world.new }
    ensures cause { IsErrOf result RunError.WriteFault
        → WritingFailed W.ledger W.healthy world.old world.new }
    ensures keeps { (p : Start) → W.honest p world.new
        → KeepsOutputs (W.shows p world.old) (W.shows p world.new) }
    ensures before { (p : Start) → W.honest p world.new → W.honest p world.old }
{
    let alloc = rt.alloc();
    if let Some(event) = event_of(&line) {
        return tell_one(alloc, world, files, lines, script, standing, &event);
    }
    match line {
        PlanLine::Limit { thread, moves } => {
            orders.limit(thread, moves);
            Ok(standing)
        }
        PlanLine::Take { thread, frames } => {
            orders.take(thread, frames);
            Ok(standing)
        }
        PlanLine::Lose {
            kind,
            thread,
            number,
        } => lose(
            orders,
            standing,
            FrameName {
                kind,
                thread,
                number,
            },
        ),
        PlanLine::Round => {
            let asked = mem::replace(orders, RoundOrders::none(alloc));
            race_if_up(
                rt, world, files, lines, script, standing, &asked, clock, gate,
            )
        }
        PlanLine::Settle => {
            *orders = RoundOrders::none(alloc);
            settle(
                rt, world, files, lines, script, standing, threads, clock, gate,
            )
        }
        _ => unreachable!(),
    }
}

/// The event that a line is, where it is one event whatever the orders and the world.
fn event_of(line: &PlanLine) -> Option<Event>
    ensures { result ≡ event_of_line line.now }
{
    match *line {
        PlanLine::Feed(count) => Some(Event::Feed(count)),
        PlanLine::Snap => Some(Event::Snap),
        PlanLine::Store => Some(Event::Store),
        PlanLine::Crash => Some(Event::Crash),
        PlanLine::Recover => Some(Event::Recover),
        PlanLine::Show(var) => Some(Event::Show(var)),
        _ => None,
    }
}

/// One more frame is to be lost in the next round.
fn lose<P: Program>(
    orders: &mut RoundOrders,
    standing: Standing<P>,
    frame: FrameName,
) -> Result<Standing<P>, RunError>
    ensures lost { OnOk result ((orders_of orders.new).lost
        ≡ frame ∷ (orders_of orders.old).lost) }
    ensures moves { (t : ℕ) → (orders_of orders.new).moves t ≡ (orders_of orders.old).moves t }
    ensures frames { (t : ℕ) → (orders_of orders.new).frames t ≡ (orders_of orders.old).frames t }
    ensures same { IfOk result (λ y. y ≡ standing) }
    ensures no_memory { IfErr result (λ error. error ≡ RunError.NoMemory) }
{
    match orders.lose(frame) {
        Ok(()) => Ok(standing),
        Err(no_memory) => {
            standing.system.discard();
            Err(RunError::from(no_memory))
        }
    }
}

/// Performs the lines of a plan, in their order.
pub(crate) fn perform_plan<
    P: Program + Send + Sync,
    W: World,
    C: Clock + Sync,
    G: Gate + Sync,
    R: AllocGlobal + Threads + Wait + Sync,
>(
    rt: &R,
    world: &mut W,
    files: LiveNumbers,
    lines: &mut Bytes,
    script: &mut Script,
    standing: Standing<P>,
    threads: u32,
    plan: &[PlanLine],
    clock: &C,
    gate: &G,
) -> Result<Standing<P>, RunError>
    requires runs { standing.system.stopped ≡ false }
    requires somewhere { IsSomewhere (P.meaning standing.system.parts.program) standing.system }
    requires draws { length standing.draws ≡ standing.system.parts.inputs.threads }
    requires threads { threads ≡ standing.system.parts.inputs.threads }
    requires released { IsTrue (is_writable (W.ledger world.old) files.released) }
    requires script { IsTrue (is_writable (W.ledger world.old) files.script) }
    requires few { script.old.count ≤ most_events }
    requires short { script.old.size ≤ most_bytes }
    ensures told { (p : Start) → W.honest p world.new
        → (s : Setting P.Value) (names : LiveOutputs) (before : Shown)
        → standing.draws ≡ generators_of s.seed 0 s.threads → AreApart names
        → AreOpen names files.released files.schedule files.script (W.shows p world.old)
        → HasLivedTo (P.meaning standing.system.parts.program) s names [] (opening P.Value)
        standing.system lines.old script.old before (W.shows p world.old)
        → GoesPlan result (P.meaning standing.system.parts.program) s names (C.may clock.now)
        plan.now lines.new script.new before (W.shows p world.new) }
    ensures few { script.new.count ≤ most_events }
    ensures short { script.new.size ≤ most_bytes }
    ensures runs { IfOk result (λ y. y.system.stopped ≡ false) }
    ensures somewhere { IfOk result (λ y.
        IsSomewhere (P.meaning standing.system.parts.program) y.system) }
    ensures program { IfOk result (λ y.
        y.system.parts.program ≡ standing.system.parts.program) }
    ensures threads { IfOk result (λ y.
        y.system.parts.inputs.threads ≡ standing.system.parts.inputs.threads) }
    ensures draws { IfOk result (λ y. length y.draws ≡ y.system.parts.inputs.threads) }
    ensures only_writes { OnlyWrites W.ledger W.healthy world.old world.new }
    ensures cause { IsErrOf result RunError.WriteFault
        → WritingFailed W.ledger W.healthy world.old world.new }
    ensures keeps { (p : Start) → W.honest p world.new
        → KeepsOutputs (W.shows p world.old) (W.shows p world.new) }
    ensures before { (p : Start) → W.honest p world.new → W.honest p world.old }
{
    let mut orders = RoundOrders::none(rt.alloc());
    let mut reached = standing;
    for line in plan {
        reached = perform_line(
            rt,
            world,
            files,
            lines,
            script,
            reached,
            threads,
            &mut orders,
            *line,
            clock,
            gate,
        )?;
    }
    Ok(reached)
}
