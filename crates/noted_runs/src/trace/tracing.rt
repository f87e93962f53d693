ghost use Rattle.std.specs.Prelude.{◌≡◌, ◌<◌, ◌-◌, ◌^◌, List, IfOk, OnOk, IsErrOf, Err};
ghost use Rattle.plain_text.specs.declared.limit.Limit.{Limit as LimitKind};
ghost use Rattle.world_io.specs.World.{Start, WritingFailed};
ghost use Rattle.recovery_world.specs.declared.event.Event.{Event as EventKind};
ghost use Rattle.recovery_world.specs.World.{Setting};
ghost use Rattle.output_files.specs.Written.{Writes, WritesFiles};
ghost use Rattle.run_writes.specs.Run.{CanRun, setting_of};
ghost use Rattle.noted_runs.specs.TraceGoing.{HasAllGone};
ghost use Rattle.noted_runs.specs.Trace.{HasBegunTrace, HasStopped, HasTraced, trace_writes};
ghost use Rattle.noted_runs.specs.Trace.{traced_events};
ghost use Rattle.noted_runs.specs.Tracing.{ComesTo, IsHalt, IsSteered, IsTold};
ghost use Rattle.noted_runs.specs.Tracing.{WritesTraced};

use crate::trace::filling::fill_rows;
use crate::trace::following::follow_schedule;
use crate::trace::running::{Gone, run_events};
use crate::trace::steering::{Steered, steer_all};
use crate::trace::table::put_table;
use box_program::{Lent, Program};
use drill_report::copy_packets;
use output_files::{OutputError, append, create, report};
use plain_text::{Bytes, Limit, NoMemory, Text};
use recovery_core::{Stop, System};
use recovery_world::Event;
use run_writes::{RunError, ScriptRun, put_done, written};
use std::alloc::Global;
use world_io::World;

/// The texts that a trace leaves.
#[derive(Drop)]
pub struct Texts {
    pub table: Bytes,
    pub report: Bytes,
}

/// The texts of a trace whose events were all performed.
fn put_texts<P: Program>(
    alloc: Global,
    program: &P,
    steered: Steered,
    gone: &Gone,
    register: Option<usize>,
) -> Result<Texts, NoMemory>
    ensures { IfOk result (λ texts. (s : Setting P.Value) (events : List EventKind)
        → s.meaning ≡ P.meaning program.now
        → IsSteered s steered → HasAllGone s (traced_events events) gone.now
        → IsTold register s events texts) }
{
    let Steered { inputs, mut turns } = steered;
    let finished = &gone.finished;
    let became = follow_schedule(alloc, program, &inputs, &finished.schedule, register)?;
    turns.truncate(finished.fed as usize);
    let rows = fill_rows(alloc, gone, &became, turns.as_slice())?;
    let table = put_table(alloc, rows.as_slice())?;
    let report = put_done(alloc, finished.fed, finished.epoch, finished.released)?;
    Ok(Texts { table, report })
}

/// What a trace comes to whose events stopped so.
fn halt(stop: Stop) -> Result<Result<Texts, Limit>, NoMemory>
    ensures { IfOk result (IsHalt stop) }
{
    match stop {
        Stop::Limit(limit) => Ok(Err(limit)),
        Stop::NoMemory => Err(NoMemory),
    }
}

/// Performs the events of a trace, and tells what became of each packet; or at which limit an event stopped.
fn trace_run<P: Program>(
    alloc: Global,
    run: ScriptRun,
    register: Option<usize>,
    program: &P,
) -> Result<Result<Texts, Limit>, NoMemory>
    requires { CanRun run }
    ensures { IfOk result (ComesTo register (setting_of (P.meaning program.now) run) run.events) }
{
    let packets = copy_packets(alloc, run.packets.as_slice())?;
    let steered = steer_all(alloc, run.threads, run.tags, packets)?;
    let mut events = run.events;
    events.push(Event::Recover)?;
    let lent = Lent { program };
    let system = System::new(
        alloc,
        lent,
        run.threads,
        run.tags,
        run.seed,
        run.unit,
        run.packets,
    )?;
    match run_events(alloc, system, run.threads, events.as_slice()) {
        Ok(gone) => {
            let texts = put_texts(alloc, program, steered, &gone, register)?;
            Ok(Ok(texts))
        }
        Err(stop) => halt(stop),
    }
}

/// Writes the table, and then the report.
fn write_texts<W: World>(world: &mut W, table: &Text, texts: &Texts) -> Result<(), OutputError>
    requires room { (W.ledger world.old).given < 2 ^ 32 - 1 }
    ensures writes_files { WritesFiles W.ledger W.healthy 1 world.old world.new }
    ensures cause { IsErrOf result OutputError.WriteFault
        → WritingFailed W.ledger W.healthy world.old world.new }
    ensures shows { (p : Start) → W.honest p world.new
        → Writes result (trace_writes table.now texts.now.table texts.now.report)
        (W.shows p world.old) (W.shows p world.new) }
    ensures before { (p : Start) → W.honest p world.new → W.honest p world.old }
{
    let file = create(world, table)?;
    append(world, file, texts.table.as_slice())?;
    report(world, texts.report.as_slice())
}

/// Writes what a trace came to; nothing, where an event stopped at a limit.
fn write_traced<W: World>(
    world: &mut W,
    table: &Text,
    traced: &Result<Texts, Limit>,
) -> Result<(), RunError>
    requires room { (W.ledger world.old).given < 2 ^ 32 - 1 }
    ensures writes_files { WritesFiles W.ledger W.healthy 1 world.old world.new }
    ensures cause { IsErrOf result RunError.WriteFault
        → WritingFailed W.ledger W.healthy world.old world.new }
    ensures shows { (p : Start) → W.honest p world.new
        → WritesTraced result traced.now table.now (W.shows p world.old) (W.shows p world.new) }
    ensures before { (p : Start) → W.honest p world.new → W.honest p world.old }
{
    match traced {
        Ok(texts) => written(write_texts(world, table, texts)),
        Err(limit) => Err(RunError::Limit(*limit)),
    }
}

/// Traces the packets of a capture through a run: the events of the script are performed, and one recovery more, which
/// changes nothing where the master is up. Then a table is created under this name, with a line for each packet that
/// was fed, and the last line of the report of `run` is reported.
///
/// `register` is the register in which the box has the reason for which it drops a packet, when it ends it; none where
/// the box drops nothing for a reason. Where an event would pass a limit, nothing is created or written.
pub fn run_trace<P: Program, W: World>(
    alloc: Global,
    world: &mut W,
    table: &Text,
    run: ScriptRun,
    register: Option<usize>,
    program: P,
) -> Result<(), RunError>
    requires inputs { CanRun run }
    requires room { (W.ledger world.old).given < 2 ^ 32 - 1 }
    ensures writes_files { WritesFiles W.ledger W.healthy 1 world.old world.new }
    ensures cause { IsErrOf result RunError.WriteFault
        → WritingFailed W.ledger W.healthy world.old world.new }
    ensures whole { (p : Start) → W.honest p world.new → OnOk result
        (HasTraced register (setting_of (P.meaning program) run) run.events table.now
        (W.shows p world.old) (W.shows p world.new)) }
    ensures limit { (p : Start) → W.honest p world.new
        → (limit : LimitKind) → result ≡ Err (RunError.Limit limit)
        → HasStopped (setting_of (P.meaning program) run) run.events limit
        (W.shows p world.old) (W.shows p world.new) }
    ensures in_order { (p : Start) → W.honest p world.new
        → HasBegunTrace register (setting_of (P.meaning program) run) run.events table.now
        (W.shows p world.old) (W.shows p world.new) }
    ensures before { (p : Start) → W.honest p world.new → W.honest p world.old }
{
    let traced = trace_run(alloc, run, register, &program)?;
    write_traced(world, table, &traced)
}
