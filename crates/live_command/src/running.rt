//! A whole run by a plan.
ghost use Rattle.std.specs.Prelude.{◌≡◌, ◌∷◌, ◌++◌, ◌≤◌, [], List, ℕ, length, IfOk, OnOk, IsTrue};
ghost use Rattle.std.specs.Prelude.{IsErrOf};
ghost use Rattle.std.specs.Prelude.{false, true};
ghost use Rattle.plain_text.specs.declared.limit.TheConstants.{MOST_EVENTS as most_events};
ghost use Rattle.plain_text.specs.declared.limit.TheConstants.{MOST_FILE_BYTES as most_bytes};
ghost use Rattle.world_io.specs.World.{Start, Shown, is_writable, WritingFailed};
ghost use Rattle.recovery_world.specs.declared.event.Event.{Event as EventKind};
ghost use Rattle.recovery_world.specs.World.{Setting, World as SystemWorld};
ghost use Rattle.output_files.specs.Written.{OnlyWrites};
ghost use Rattle.std.specs.Prelude.{◌<◌, ◌-◌, ◌^◌, Err};
ghost use Rattle.plain_text.specs.declared.limit.Limit.{Limit as LimitKind};
ghost use Rattle.recovery_world.specs.World.{opening};
ghost use Rattle.output_files.specs.Written.{WritesFiles};
ghost use Rattle.live_workers.specs.Draws.{generators_of};
ghost use Rattle.plan_script.specs.declared.plan.PlanLine.{PlanLine as PlanLineKind};
ghost use Rattle.run_command.specs.Running.{IsSomewhere, IsSystemAt};
ghost use Rattle.live_writes.specs.Outputs.{AreApart, CanLive, LiveOutputs, names_of, setting_of};
ghost use Rattle.live_writes.specs.Told.{AreOpen};
ghost use Rattle.live_command.specs.Going.{HasLivedTo};
ghost use Rattle.output_files.specs.Writes.{HasWritten};
ghost use Rattle.live_writes.specs.Whole.{live_opening};
ghost use Rattle.live_command.specs.Plans.{EndsPlan, LivesInOrder, LivesToLimit, LivesWhole};
ghost use Rattle.live_command.specs.Plans.{RunsPlan};

use crate::lines::perform_plan;
use crate::standing::Standing;
use crate::writing::write_script;
use box_program::Program;
use live_workers::Draws;
use live_writes::{LiveFiles, LiveNumbers, PlanRun, Script, open_live};
use plain_text::Bytes;
use plan_script::PlanLine;
use run_command::{System, close_run};
use run_writes::{RunError, written};
use std::alloc::Global;
use std::sync::Wait;
use std::thread::Threads;
use var_locks::Gate;
use world_io::{Clock, World};

/// Ends a run whose plan was performed: writes the lines of the script that are gathered, then those of the report, the
/// schedule, and the last line.
fn close<P: Program, W: World>(
    alloc: Global,
    world: &mut W,
    files: LiveNumbers,
    lines: &mut Bytes,
    script: &mut Script,
    system: System<P>,
) -> Result<(), RunError>
    requires runs { system.stopped ≡ false }
    requires schedule { IsTrue (is_writable (W.ledger world.old) files.schedule) }
    requires script { IsTrue (is_writable (W.ledger world.old) files.script) }
    requires few { script.old.count ≤ most_events }
    requires short { script.old.size ≤ most_bytes }
    ensures told { (p : Start) → W.honest p world.new → (s : Setting P.Value) (names : LiveOutputs)
        (events : List EventKind) (w : SystemWorld P.Value) (before : Shown) → AreApart names
        → AreOpen names files.released files.schedule files.script (W.shows p world.old)
        → HasLivedTo (P.meaning system.parts.program) s names events w system lines.old
        script.old before (W.shows p world.old)
        → EndsPlan result s names events before (W.shows p world.new) }
    ensures no_limit { (limit : LimitKind) → result ≡ Err (RunError.Limit limit) → ⊥ }
    ensures only_writes { OnlyWrites W.ledger W.healthy world.old world.new }
    ensures cause { IsErrOf result RunError.WriteFault
        → WritingFailed W.ledger W.healthy world.old world.new }
    ensures before { (p : Start) → W.honest p world.new → W.honest p world.old }
{
    if let Err(error) = write_script::<P::Value, W>(world, files.script, script) {
        system.discard();
        return Err(RunError::from(error));
    }
    let ended = close_run(alloc, world, files.schedule, system, lines);
    written(ended)
}

/// Performs the plan with a system that is new, and ends the run.
fn run_standing<
    P: Program + Send + Sync,
    W: World,
    C: Clock + Sync,
    G: Gate + Sync,
    R: AllocGlobal + Threads + Wait + Sync,
>(
    rt: &R,
    world: &mut W,
    files: LiveNumbers,
    standing: Standing<P>,
    threads: u32,
    plan: &[PlanLine],
    clock: &C,
    gate: &G,
) -> Result<(), RunError>
    requires runs { standing.system.stopped ≡ false }
    requires somewhere { IsSomewhere (P.meaning standing.system.parts.program) standing.system }
    requires draws { length standing.draws ≡ standing.system.parts.inputs.threads }
    requires threads { threads ≡ standing.system.parts.inputs.threads }
    requires released { IsTrue (is_writable (W.ledger world.old) files.released) }
    requires schedule { IsTrue (is_writable (W.ledger world.old) files.schedule) }
    requires script { IsTrue (is_writable (W.ledger world.old) files.script) }
    ensures told { (p : Start) → W.honest p world.new
        → (s : Setting P.Value) (names : LiveOutputs) (before : Shown)
        → standing.draws ≡ generators_of s.seed 0 s.threads → AreApart names
        → AreOpen names files.released files.schedule files.script (W.shows p world.old)
        → IsSystemAt (P.meaning standing.system.parts.program) s (opening P.Value) standing.system
        → s.threads ≤ 16 → HasWritten (live_opening names s.fractions) before (W.shows p world.old)
        → RunsPlan result s (C.may clock.now) plan.now names before (W.shows p world.new) }
    ensures only_writes { OnlyWrites W.ledger W.healthy world.old world.new }
    ensures cause { IsErrOf result RunError.WriteFault
        → WritingFailed W.ledger W.healthy world.old world.new }
    ensures before { (p : Start) → W.honest p world.new → W.honest p world.old }
{
    let mut lines = Bytes::new(rt.alloc());
    let mut script = Script::new(rt.alloc());
    let Standing { system, .. } = perform_plan(
        rt,
        world,
        files,
        &mut lines,
        &mut script,
        standing,
        threads,
        plan,
        clock,
        gate,
    )?;
    close(rt.alloc(), world, files, &mut lines, &mut script, system)
}

/// Runs a program on the packets, by the lines of a plan, and writes the outputs.
///
/// The released capture is created first and gets its header, then the schedule, and then the script. Each event that
/// happens has its line in the script before the records of what it released are written, and then its line of the
/// report; lines may be gathered until an event releases something. When all lines of the plan were performed, the
/// schedule and the last line are written.
///
/// The clock is asked for the free times of rounds. Free words of thread t are those of the seed's generator on stream
/// 55 + t, over all rounds.
pub fn run_plan<
    P: Program + Send + Sync,
    W: World,
    C: Clock + Sync,
    G: Gate + Sync,
    R: AllocGlobal + Threads + Wait + Sync,
>(
    rt: &R,
    world: &mut W,
    files: LiveFiles<'_>,
    run: PlanRun,
    program: P,
    clock: &C,
    gate: &G,
) -> Result<(), RunError>
    requires inputs { CanLive run }
    requires room { (W.ledger world.old).given < 2 ^ 32 - 3 }
    requires apart { AreApart (names_of files) }
    ensures whole { (p : Start) → W.honest p world.new
        → OnOk result (LivesWhole (setting_of (P.meaning program) run)
        (C.may clock.now) run.plan (names_of files.entry)
        (W.shows p world.old) (W.shows p world.new)) }
    ensures limit { (p : Start) → W.honest p world.new → (limit : LimitKind)
        → result ≡ Err (RunError.Limit limit)
        → LivesToLimit (setting_of (P.meaning program) run) run.plan (names_of files.entry) limit
        (W.shows p world.old) (W.shows p world.new) }
    ensures in_order { (p : Start) → W.honest p world.new
        → LivesInOrder (setting_of (P.meaning program) run)
        run.plan (names_of files.entry) (W.shows p world.old) (W.shows p world.new) }
    ensures writes_files { WritesFiles W.ledger W.healthy 3 world.old world.new }
    ensures cause { IsErrOf result RunError.WriteFault
        → WritingFailed W.ledger W.healthy world.old world.new }
    ensures before { (p : Start) → W.honest p world.new → W.honest p world.old }
{
    let alloc = rt.alloc();
    let draws = Draws::new(alloc, run.seed, run.threads)?;
    let threads = run.threads;
    let system = System::new(
        alloc,
        program,
        threads,
        run.tags,
        run.seed,
        run.unit,
        run.packets,
    )?;
    let files = match open_live(world, files, run.unit) {
        Ok(files) => files,
        Err(error) => {
            system.discard();
            return Err(RunError::from(error));
        }
    };
    let standing = Standing { system, draws };
    run_standing(
        rt,
        world,
        files,
        standing,
        threads,
        run.plan.as_slice(),
        clock,
        gate,
    )
}
