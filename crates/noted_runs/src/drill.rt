//! A run in which the master crashes again and again, the same run without crashes, and a report of
//! what became of the packets and of what the crashes changed.
ghost use Rattle.std.specs.Prelude.{◌≡◌, ◌<◌, ◌-◌, ◌^◌, IfOk, OnOk, IsErrOf, Err, length};
ghost use Rattle.plain_text.specs.declared.limit.Limit.{Limit as LimitKind};
ghost use Rattle.plain_player.specs.ScheduleText.{schedule_text};
ghost use Rattle.plain_player.specs.Schedules.{FitLines};
ghost use Rattle.recovery_world.specs.World.{Setting};
ghost use Rattle.world_io.specs.World.{Start, WritingFailed};
ghost use Rattle.output_files.specs.Written.{WritesFiles};
ghost use Rattle.run_writes.specs.Run.{names_of};
ghost use Rattle.noted_runs.specs.Drill.{CanDrill, HasBegunDrill, HasDrilled, HasStopped};
ghost use Rattle.noted_runs.specs.Drill.{setting_of};
ghost use Rattle.noted_runs.specs.Drilled.{EndsSo, IsDrilled};
ghost use Rattle.noted_runs.specs.Ends.{HasEnded};
ghost use Rattle.drill_report.specs.Events.{calm_events as calm_events_of};
ghost use Rattle.drill_report.specs.Events.{drill_events as drill_events_of};
ghost use Rattle.drill_report.specs.Report.{drops_of, report_text};

mod performing;
mod running;
mod writing;

use crate::drill::running::{Ended, Frame, Ran, run_box};
use crate::drill::writing::write_drilled;
use access_log::Outputs;
use box_program::Program;
use drill_report::{
    Facts, calm_events, copy_packets, drill_events, first_difference, put_report,
    what_was_all_released_waits_for_nothing,
};
use plain_player::put_schedule;
use plain_text::{Bytes, Limit, NoMemory, Packets, Unit};
use recovery_core::Stop;
use recovery_laws::settlings_release_all;
use run_writes::{RunError, RunFiles};
use std::alloc::Global;
use world_io::World;

/// What is drilled: the packets of a capture, on 1 to 16 threads. Random words come from the generator of the seed.
#[derive(Drop)]
pub struct DrillRun {
    /// The number of threads, 1 to 16.
    pub threads: u32,
    /// Whether one tag is looked through.
    pub tags: bool,
    /// The seed of the generator of random words.
    pub seed: u64,
    /// What the fractions of the packets count.
    pub unit: Unit,
    /// The packets of the capture, in its order, at most 65,536.
    pub packets: Packets,
    /// How many packets come in before each crash, at least 1.
    pub every: u64,
    /// Whether variable 0 of the box is a table of its drops.
    pub table: bool,
}

/// The texts that a drill leaves.
#[derive(Drop)]
pub struct Texts {
    pub schedule: Bytes,
    pub report: Bytes,
}

/// What a drill came to: the outputs that it released, and its texts, or the limit at which it stopped.
#[derive(Drop)]
pub struct Drilled {
    pub outputs: Outputs,
    pub texts: Result<Texts, Limit>,
}

/// The texts of a drill that ended so.
fn put_texts(
    alloc: Global,
    table: bool,
    ended: &Ended,
    differs: Option<u64>,
) -> Result<Texts, NoMemory>
    ensures report { IfOk result (λ texts. texts.report ≡ report_text (record {
      fed = ended.now.finished.fed;
      released = ended.now.finished.released;
      drops = drops_of table ended.now.shown;
      waiting = 0;
      crashes = ended.now.finished.epoch - 1;
      replayed = ended.now.replayed;
      differs = differs;
    })) }
    ensures schedule { IfOk result
        (λ texts. texts.schedule ≡ schedule_text ended.now.finished.schedule) }
    ensures fit_lines { OnOk result (FitLines ended.now.finished.schedule) }
{
    let facts = Facts {
        fed: ended.finished.fed,
        released: ended.finished.released,
        table,
        shown: &ended.shown,
        // A settling leaves nothing that waits, and nothing under way.
        waiting: 0,
        crashes: u64::from(ended.finished.epoch.saturating_sub(1)),
        replayed: ended.replayed,
        differs,
    };
    let report = put_report(alloc, &facts)?;
    let schedule = put_schedule(alloc, &ended.finished.schedule)?;
    Ok(Texts { schedule, report })
}

/// What a drill comes to that ended so, where the run beside it comes to this.
fn compare_runs<X>(
    alloc: Global,
    every: u64,
    table: bool,
    outputs: Outputs,
    ended: Ended,
    calm: Ran,
) -> Result<Drilled, NoMemory>
    ensures { IfOk result (λ drilled. (s : Setting X)
        → HasEnded s (drill_events_of every (length s.packets)) ended outputs
        → EndsSo s (calm_events_of every (length s.packets)) calm.outputs calm.end
        → IsDrilled s every table drilled) }
{
    settlings_release_all::<X>();
    what_was_all_released_waits_for_nothing::<X>();
    let Ran {
        outputs: others,
        end,
    } = calm;
    match end {
        Ok(_) => {
            let released = outputs.as_slice();
            let beside = others.as_slice();
            let differs = first_difference(released, beside);
            let texts = put_texts(alloc, table, &ended, differs)?;
            Ok(Drilled {
                outputs,
                texts: Ok(texts),
            })
        }
        Err(Stop::Limit(limit)) => Ok(Drilled {
            outputs,
            texts: Err(limit),
        }),
        Err(Stop::NoMemory) => Err(NoMemory),
    }
}

/// Performs a drill, and then the run beside it, where the drill comes to its end.
fn perform_drill<P: Program>(alloc: Global, run: DrillRun, program: &P) -> Result<Drilled, NoMemory>
    requires { CanDrill run }
    ensures { IfOk result (λ drilled.
        IsDrilled (setting_of (P.meaning program.now) run) run.every run.table drilled) }
{
    let frame = Frame {
        threads: run.threads,
        tags: run.tags,
        seed: run.seed,
        unit: run.unit,
    };
    let count = run.packets.len();
    let events = drill_events(alloc, run.every, count)?;
    let calm = calm_events(alloc, run.every, count)?;
    let packets = run.packets.as_slice();
    let again = copy_packets(alloc, packets)?;
    let drill = events.as_slice();
    let ran = run_box(alloc, frame, run.packets, program, drill)?;
    let Ran { outputs, end } = ran;
    match end {
        Ok(ended) => {
            let others = calm.as_slice();
            let beside = run_box(alloc, frame, again, program, others)?;
            compare_runs::<P::Value>(alloc, run.every, run.table, outputs, ended, beside)
        }
        Err(Stop::Limit(limit)) => Ok(Drilled {
            outputs,
            texts: Err(limit),
        }),
        Err(Stop::NoMemory) => Err(NoMemory),
    }
}

/// Drills a box on the packets of a capture: as often as there are packets for, `every` packets come in, a snapshot is
/// stored, and the master crashes and recovers; then all is settled. The same run without crashes is performed beside
/// it.
///
/// The outputs are created when both are done: the captured outputs, the schedule, and then the report. Where the drill
/// would pass a limit it stops, and the released capture has what was released until then; or all, where only the run
/// beside it would.
pub fn run_drill<P: Program, W: World>(
    alloc: Global,
    world: &mut W,
    files: RunFiles<'_>,
    run: DrillRun,
    program: P,
) -> Result<(), RunError>
    requires inputs { CanDrill run }
    requires room { (W.ledger world.old).given < 2 ^ 32 - 2 }
    requires apart { files.released.now ≡ files.schedule.now → ⊥ }
    ensures writes_files { WritesFiles W.ledger W.healthy 2 world.old world.new }
    ensures cause { IsErrOf result RunError.WriteFault
        → WritingFailed W.ledger W.healthy world.old world.new }
    ensures whole { (p : Start) → W.honest p world.new
        → OnOk result (HasDrilled (setting_of (P.meaning program) run) run.every run.table
        (names_of files.entry) (W.shows p world.old) (W.shows p world.new)) }
    ensures limit { (p : Start) → W.honest p world.new
        → (limit : LimitKind) → result ≡ Err (RunError.Limit limit)
        → HasStopped (setting_of (P.meaning program) run) run.every (names_of files.entry) limit
        (W.shows p world.old) (W.shows p world.new) }
    ensures in_order { (p : Start) → W.honest p world.new
        → HasBegunDrill (setting_of (P.meaning program) run) run.every run.table
        (names_of files.entry) (W.shows p world.old) (W.shows p world.new) }
    ensures before { (p : Start) → W.honest p world.new → W.honest p world.old }
{
    let unit = run.unit;
    let drilled = perform_drill(alloc, run, &program)?;
    write_drilled(alloc, world, files, unit, &drilled)
}
