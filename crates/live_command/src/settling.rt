//! A settling: the master recovers if it is down, the rest of the capture is fed, a round without orders is run, and
//! then all that was made arrives.
ghost use Rattle.std.specs.Prelude.{◌≡◌, ◌∷◌, ◌++◌, ◌≤◌, ◌<◌, [], List, ℕ, length, IfOk, OnOk};
ghost use Rattle.std.specs.Prelude.{IsTrue, IsErrOf};
ghost use Rattle.std.specs.Prelude.{false, true};
ghost use Rattle.plain_text.specs.declared.limit.TheConstants.{MOST_EVENTS as most_events};
ghost use Rattle.plain_text.specs.declared.limit.TheConstants.{MOST_FILE_BYTES as most_bytes};
ghost use Rattle.world_io.specs.World.{Start, Shown, is_writable, WritingFailed};
ghost use Rattle.recovery_world.specs.declared.event.Event.{Event as EventKind};
ghost use Rattle.recovery_world.specs.World.{Setting, World as SystemWorld};
ghost use Rattle.output_files.specs.Writes.{KeepsOutputs};
ghost use Rattle.output_files.specs.Written.{OnlyWrites};
ghost use Rattle.recovery_world.specs.Events.{count_of, ended_now};
ghost use Rattle.recovery_world.specs.Many.{all_messages, numbered, of_threads};
ghost use Rattle.system_parts.specs.SystemStanding.{StandsFor};
ghost use Rattle.plan_script.specs.Rounds.{arrival_events};
ghost use Rattle.run_command.specs.Running.{IsSomewhere};
ghost use Rattle.live_writes.specs.Outputs.{AreApart, LiveOutputs};
ghost use Rattle.live_writes.specs.Told.{AreOpen};
ghost use Rattle.live_command.specs.Going.{GoesFed, GoesOver, GoesSettle, HasLivedTo};
ghost use Rattle.live_command.specs.Going.{standing_in};

use crate::arriving::arrive;
use crate::performing::tell;
use crate::racing::race;
use crate::standing::Standing;
use box_program::Program;
use frame_intake::{FrameName, RoundOrders};
use live_writes::{LiveNumbers, Script};
use plain_text::{Bytes, Kind, NoMemory};
use recovery_world::Event;
use run_command::System;
use run_writes::RunError;
use std::alloc::Global;
use std::sync::Wait;
use std::thread::Threads;
use var_locks::Gate;
use world_io::{Clock, World};

/// The names of a thread's frames of a kind, from number 1 up to this count, are put behind the others.
fn add_numbered(
    frames: &mut Vec<FrameName>,
    kind: Kind,
    thread: u64,
    count: u64,
) -> Result<(), NoMemory>
    ensures { OnOk result (frames.new.items ≡ frames.old.items ++ numbered kind thread 1 count) }
{
    for earlier in 0..count {
        frames.push(FrameName {
            kind,
            thread,
            number: earlier + 1,
        })?;
    }
    Ok(())
}

/// How many frames of a kind a thread has in the past.
fn count<P: Program>(system: &System<P>, kind: Kind, thread: u32) -> u64
    requires { thread < system.now.parts.inputs.threads }
    ensures { (s : Setting P.Value) (w : SystemWorld P.Value)
        → StandsFor (P.meaning system.now.parts.program) s w system.now.parts
        → result ≡ count_of kind (ended_now w) thread }
{
    let counts = system.counts(thread);
    match kind {
        Kind::Log => counts.entries,
        Kind::Out => counts.outputs,
    }
}

/// The names of all frames of a kind, by thread, then number, are put behind the others.
fn add_kind<P: Program>(
    frames: &mut Vec<FrameName>,
    system: &System<P>,
    kind: Kind,
    threads: u32,
) -> Result<(), NoMemory>
    requires { threads ≡ system.now.parts.inputs.threads }
    ensures { OnOk result ((s : Setting P.Value) (w : SystemWorld P.Value)
        → StandsFor (P.meaning system.now.parts.program) s w system.now.parts
        → frames.new.items
        ≡ frames.old.items ++ of_threads kind (count_of kind (ended_now w)) 0 threads) }
{
    for thread in 0..threads {
        let count = count(system, kind, thread);
        add_numbered(frames, kind, u64::from(thread), count)?;
    }
    Ok(())
}

/// The names of all frames of the past: each entry and then each output, by thread, then number.
fn all_frames<P: Program>(
    alloc: Global,
    system: &System<P>,
    threads: u32,
) -> Result<Vec<FrameName>, NoMemory>
    requires { threads ≡ system.now.parts.inputs.threads }
    ensures { IfOk result (λ frames. (s : Setting P.Value) (w : SystemWorld P.Value)
        → StandsFor (P.meaning system.now.parts.program) s w system.now.parts
        → frames.items ≡ all_messages s w) }
{
    let mut frames = Vec::new(alloc);
    add_kind(&mut frames, system, Kind::Log, threads)?;
    add_kind(&mut frames, system, Kind::Out, threads)?;
    Ok(frames)
}

/// The master recovers if it is down, and the rest of the capture is fed.
fn feed_rest<P: Program, W: World>(
    alloc: Global,
    world: &mut W,
    files: LiveNumbers,
    lines: &mut Bytes,
    script: &mut Script,
    system: &mut System<P>,
) -> Result<(), RunError>
    requires runs { system.old.stopped ≡ false }
    requires somewhere { IsSomewhere (P.meaning system.old.parts.program) system.old }
    requires released { IsTrue (is_writable (W.ledger world.old) files.released) }
    requires script { IsTrue (is_writable (W.ledger world.old) files.script) }
    requires few { script.old.count ≤ most_events }
    requires short { script.old.size ≤ most_bytes }
    ensures told { (p : Start) → W.honest p world.new → (s : Setting P.Value) (names : LiveOutputs)
        (events : List EventKind) (w : SystemWorld P.Value) (before : Shown) → AreApart names
        → AreOpen names files.released files.schedule files.script (W.shows p world.old)
        → HasLivedTo (P.meaning system.old.parts.program) s names events w system.old lines.old
        script.old before (W.shows p world.old)
        → GoesFed result (P.meaning system.old.parts.program) s names w events system.new
        lines.new script.new before (W.shows p world.new) }
    ensures few { script.new.count ≤ most_events }
    ensures short { script.new.size ≤ most_bytes }
    ensures runs { OnOk result (system.new.stopped ≡ false) }
    ensures somewhere { OnOk result
        (IsSomewhere (P.meaning system.old.parts.program) system.new) }
    ensures program { OnOk result (system.new.parts.program ≡ system.old.parts.program) }
    ensures threads { OnOk result
        (system.new.parts.inputs.threads ≡ system.old.parts.inputs.threads) }
    ensures up { OnOk result (system.new.parts.up ≡ true) }
    ensures only_writes { OnlyWrites W.ledger W.healthy world.old world.new }
    ensures cause { IsErrOf result RunError.WriteFault
        → WritingFailed W.ledger W.healthy world.old world.new }
    ensures keeps { (p : Start) → W.honest p world.new
        → KeepsOutputs (W.shows p world.old) (W.shows p world.new) }
    ensures before { (p : Start) → W.honest p world.new → W.honest p world.old }
{
    let left = system.left();
    if system.up() {
        return tell(
            alloc,
            world,
            files,
            lines,
            script,
            system,
            &Event::Feed(left),
        );
    }
    tell(alloc, world, files, lines, script, system, &Event::Recover)?;
    tell(
        alloc,
        world,
        files,
        lines,
        script,
        system,
        &Event::Feed(left),
    )
}

/// Each entry and each output of the past arrives.
fn arrive_all<P: Program, W: World>(
    alloc: Global,
    world: &mut W,
    files: LiveNumbers,
    lines: &mut Bytes,
    script: &mut Script,
    system: &mut System<P>,
    threads: u32,
) -> Result<(), RunError>
    requires runs { system.old.stopped ≡ false }
    requires somewhere { IsSomewhere (P.meaning system.old.parts.program) system.old }
    requires threads { threads ≡ system.old.parts.inputs.threads }
    requires released { IsTrue (is_writable (W.ledger world.old) files.released) }
    requires script { IsTrue (is_writable (W.ledger world.old) files.script) }
    requires few { script.old.count ≤ most_events }
    requires short { script.old.size ≤ most_bytes }
    ensures told { (p : Start) → W.honest p world.new → (s : Setting P.Value) (names : LiveOutputs)
        (events : List EventKind) (w : SystemWorld P.Value) (before : Shown) → AreApart names
        → AreOpen names files.released files.schedule files.script (W.shows p world.old)
        → HasLivedTo (P.meaning system.old.parts.program) s names events w system.old lines.old
        script.old before (W.shows p world.old)
        → GoesOver result (P.meaning system.old.parts.program) s names w events
        (arrival_events (all_messages s w)) system.new lines.new script.new before
        (W.shows p world.new) }
    ensures few { script.new.count ≤ most_events }
    ensures short { script.new.size ≤ most_bytes }
    ensures runs { OnOk result (system.new.stopped ≡ false) }
    ensures somewhere { OnOk result
        (IsSomewhere (P.meaning system.old.parts.program) system.new) }
    ensures program { OnOk result (system.new.parts.program ≡ system.old.parts.program) }
    ensures threads { OnOk result
        (system.new.parts.inputs.threads ≡ system.old.parts.inputs.threads) }
    ensures only_writes { OnlyWrites W.ledger W.healthy world.old world.new }
    ensures cause { IsErrOf result RunError.WriteFault
        → WritingFailed W.ledger W.healthy world.old world.new }
    ensures keeps { (p : Start) → W.honest p world.new
        → KeepsOutputs (W.shows p world.old) (W.shows p world.new) }
    ensures before { (p : Start) → W.honest p world.new → W.honest p world.old }
{
    let frames = all_frames(alloc, system, threads)?;
    arrive(
        alloc,
        world,
        files,
        lines,
        script,
        system,
        frames.as_slice(),
    )
}

/// The same of a system that is given on.
fn arrive_last<P: Program, W: World>(
    alloc: Global,
    world: &mut W,
    files: LiveNumbers,
    lines: &mut Bytes,
    script: &mut Script,
    standing: Standing<P>,
    threads: u32,
) -> Result<Standing<P>, RunError>
    requires runs { standing.system.stopped ≡ false }
    requires somewhere { IsSomewhere (P.meaning standing.system.parts.program) standing.system }
    requires draws { length standing.draws ≡ standing.system.parts.inputs.threads }
    requires threads { threads ≡ standing.system.parts.inputs.threads }
    requires released { IsTrue (is_writable (W.ledger world.old) files.released) }
    requires script { IsTrue (is_writable (W.ledger world.old) files.script) }
    requires few { script.old.count ≤ most_events }
    requires short { script.old.size ≤ most_bytes }
    ensures told { (p : Start) → W.honest p world.new → (s : Setting P.Value) (names : LiveOutputs)
        (events : List EventKind) (w : SystemWorld P.Value) (before : Shown) → AreApart names
        → AreOpen names files.released files.schedule files.script (W.shows p world.old)
        → HasLivedTo (P.meaning standing.system.parts.program) s names events w standing.system
        lines.old script.old before (W.shows p world.old)
        → GoesOver result (P.meaning standing.system.parts.program) s names w events
        (arrival_events (all_messages s w)) (standing_in result standing.system) lines.new
        script.new before (W.shows p world.new) }
    ensures few { script.new.count ≤ most_events }
    ensures short { script.new.size ≤ most_bytes }
    ensures runs { IfOk result (λ y. y.system.stopped ≡ false) }
    ensures somewhere { IfOk result (λ y.
        IsSomewhere (P.meaning standing.system.parts.program) y.system) }
    ensures program { IfOk result (λ y.
        y.system.parts.program ≡ standing.system.parts.program) }
    ensures threads { IfOk result (λ y.
        y.system.parts.inputs.threads ≡ standing.system.parts.inputs.threads) }
    ensures draws { IfOk result (λ y. length y.draws ≡ y.system.parts.inputs.threads) }
    ensures given { IfOk result (λ y. y.draws ≡ standing.draws) }
    ensures only_writes { OnlyWrites W.ledger W.healthy world.old world.new }
    ensures cause { IsErrOf result RunError.WriteFault
        → WritingFailed W.ledger W.healthy world.old world.new }
    ensures keeps { (p : Start) → W.honest p world.new
        → KeepsOutputs (W.shows p world.old) (W.shows p world.new) }
    ensures before { (p : Start) → W.honest p world.new → W.honest p world.old }
{
    let Standing { mut system, draws } = standing;
    match arrive_all(alloc, world, files, lines, script, &mut system, threads) {
        Ok(()) => Ok(Standing { system, draws }),
        Err(error) => {
            system.discard();
            Err(error)
        }
    }
}

/// Settles.
pub(crate) fn settle<
    P: Program + Send + Sync,
    W: World,
    C: Clock + Sync,
    G: Gate + Sync,
    R: AllocGlobal + Threads + Wait + Sync,
>(
    rt: &R,
    world: &mut W,
    files: LiveNumbers,
    lines: &mut Bytes,
    script: &mut Script,
    standing: Standing<P>,
    threads: u32,
    clock: &C,
    gate: &G,
) -> Result<Standing<P>, RunError>
    requires runs { standing.system.stopped ≡ false }
    requires somewhere { IsSomewhere (P.meaning standing.system.parts.program) standing.system }
    requires draws { length standing.draws ≡ standing.system.parts.inputs.threads }
    requires threads { threads ≡ standing.system.parts.inputs.threads }
    requires released { IsTrue (is_writable (W.ledger world.old) files.released) }
    requires script { IsTrue (is_writable (W.ledger world.old) files.script) }
    requires few { script.old.count ≤ most_events }
    requires short { script.old.size ≤ most_bytes }
    ensures told { (p : Start) → W.honest p world.new → (s : Setting P.Value) (names : LiveOutputs)
        (events : List EventKind) (w : SystemWorld P.Value) (before : Shown) → AreApart names
        → AreOpen names files.released files.schedule files.script (W.shows p world.old)
        → HasLivedTo (P.meaning standing.system.parts.program) s names events w standing.system
        lines.old script.old before (W.shows p world.old)
        → GoesSettle result (P.meaning standing.system.parts.program) s names (C.may clock.now) w
        standing.draws events lines.new script.new before (W.shows p world.new) }
    ensures few { script.new.count ≤ most_events }
    ensures short { script.new.size ≤ most_bytes }
    ensures runs { IfOk result (λ y. y.system.stopped ≡ false) }
    ensures somewhere { IfOk result (λ y.
        IsSomewhere (P.meaning standing.system.parts.program) y.system) }
    ensures program { IfOk result (λ y.
        y.system.parts.program ≡ standing.system.parts.program) }
    ensures threads { IfOk result (λ y.
        y.system.parts.inputs.threads ≡ standing.system.parts.inputs.threads) }
    ensures draws { IfOk result (λ y. length y.draws ≡ y.system.parts.inputs.threads) }
    ensures only_writes { OnlyWrites W.ledger W.healthy world.old world.new }
    ensures cause { IsErrOf result RunError.WriteFault
        → WritingFailed W.ledger W.healthy world.old world.new }
    ensures keeps { (p : Start) → W.honest p world.new
        → KeepsOutputs (W.shows p world.old) (W.shows p world.new) }
    ensures before { (p : Start) → W.honest p world.new → W.honest p world.old }
{
    let alloc = rt.alloc();
    let Standing { mut system, draws } = standing;
    if let Err(error) = feed_rest(alloc, world, files, lines, script, &mut system) {
        system.discard();
        return Err(error);
    }
    let orders = RoundOrders::none(alloc);
    let fed = Standing { system, draws };
    let ran = race(rt, world, files, lines, script, fed, &orders, clock, gate)?;
    arrive_last(alloc, world, files, lines, script, ran, threads)
}
