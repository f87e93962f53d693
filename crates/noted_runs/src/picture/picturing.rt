ghost use Rattle.std.specs.Prelude.{◌≡◌, ◌<◌, ◌≤◌, ◌-◌, ◌^◌, IfOk, OnOk, IsErrOf, Err};
ghost use Rattle.plain_text.specs.declared.limit.Limit.{Limit as LimitKind};
ghost use Rattle.world_io.specs.World.{Start, WritingFailed};
ghost use Rattle.output_files.specs.Written.{Writes, WritesFiles};
ghost use Rattle.run_writes.specs.Run.{CanRun, counts_line, setting_of};
ghost use Rattle.noted_runs.specs.PictureGoing.{HasGone};
ghost use Rattle.noted_runs.specs.Noting.{IsHalted};
ghost use Rattle.noted_runs.specs.Picture.{HasBegunPicture, HasPictured, HasStopped};
ghost use Rattle.noted_runs.specs.Picture.{picture_text, picture_writes, times_in};
ghost use Rattle.noted_runs.specs.Picturing.{ComesTo, IsHalt, WritesPicture};

use crate::picture::inputs::log_all;
use crate::picture::running::{Gone, run_events};
use crate::picture::times::times_of;
use box_program::{Lent, Program};
use drill_report::copy_packets;
use output_files::{OutputError, append, create, report};
use plain_text::{Bytes, Limit, NoMemory, Text};
use recovery_core::{Stop, System};
use run_drawing::put_picture;
use run_writes::{RunError, ScriptRun, put_done, written};
use std::alloc::Global;
use world_io::World;

/// The texts that a picture leaves.
#[derive(Drop)]
pub struct Texts {
    pub picture: Bytes,
    pub report: Bytes,
}

/// The bytes of a title.
fn bytes_of(title: &Text) -> &[u8]
    ensures { result.now ≡ title.now }
{
    title.as_str().as_bytes()
}

/// The texts of a picture, with this title, of events that were all performed by so many threads; with the times of the
/// packets.
fn put_texts(
    alloc: Global,
    title: &Text,
    threads: u32,
    times: &[u64],
    gone: &Gone,
) -> Result<Texts, NoMemory>
    requires { threads ≤ 16 }
    ensures picture { IfOk result (λ texts. texts.picture ≡ picture_text title.now
        (counts_line gone.now.fed gone.now.epoch gone.now.released) threads times.now
        gone.now.notes) }
    ensures report { IfOk result (λ texts.
        texts.report ≡ counts_line gone.now.fed gone.now.epoch gone.now.released) }
{
    let report = put_done(alloc, gone.fed, gone.epoch, gone.released)?;
    let picture = put_picture(
        alloc,
        bytes_of(title),
        report.as_slice(),
        threads as u64,
        times,
        gone.notes.as_slice(),
    )?;
    Ok(Texts { picture, report })
}

/// What a picture comes to whose events stopped so.
fn halt(stop: Stop) -> Result<Result<Texts, Limit>, NoMemory>
    ensures { IfOk result (IsHalt stop) }
{
    match stop {
        Stop::Limit(limit) => Ok(Err(limit)),
        Stop::NoMemory => Err(NoMemory),
    }
}

/// Performs the events of a run with a new system, and notes what they did.
fn perform_run<P: Program>(alloc: Global, run: ScriptRun, program: &P) -> Result<Gone, Stop>
    requires { CanRun run }
    ensures gone { IfOk result (HasGone (setting_of (P.meaning program.now) run) run.events) }
    ensures limit { (limit : LimitKind) → result ≡ Err (Stop.Limit limit)
        → IsHalted (setting_of (P.meaning program.now) run) run.events limit }
{
    let packets = copy_packets(alloc, run.packets.as_slice())?;
    let inputs = log_all(alloc, run.threads, run.tags, packets)?;
    let lent = Lent { program };
    let system = System::new(
        alloc,
        Lent { program },
        run.threads,
        run.tags,
        run.seed,
        run.unit,
        run.packets,
    )?;
    run_events(alloc, &lent, &inputs, system, run.events.as_slice())
}

/// Performs the events of a run and draws its picture, with the times of its packets; or tells at which limit an event
/// stopped.
fn draw_timed<P: Program>(
    alloc: Global,
    title: &Text,
    times: &[u64],
    run: ScriptRun,
    program: &P,
) -> Result<Result<Texts, Limit>, NoMemory>
    requires inputs { CanRun run }
    requires times { times.now ≡ times_in run.unit run.packets }
    ensures { IfOk result
        (ComesTo title.now (setting_of (P.meaning program.now) run) run.events) }
{
    let threads = run.threads;
    match perform_run(alloc, run, program) {
        Ok(gone) => {
            let texts = put_texts(alloc, title, threads, times, &gone)?;
            Ok(Ok(texts))
        }
        Err(stop) => halt(stop),
    }
}

/// Performs the events of a run and draws its picture; or tells at which limit an event stopped.
fn draw_run<P: Program>(
    alloc: Global,
    title: &Text,
    run: ScriptRun,
    program: &P,
) -> Result<Result<Texts, Limit>, NoMemory>
    requires { CanRun run }
    ensures { IfOk result
        (ComesTo title.now (setting_of (P.meaning program.now) run) run.events) }
{
    let times = times_of(alloc, run.unit, run.packets.as_slice())?;
    draw_timed(alloc, title, times.as_slice(), run, program)
}

/// Writes the picture, and then the report.
fn write_texts<W: World>(world: &mut W, name: &Text, texts: &Texts) -> Result<(), OutputError>
    requires room { (W.ledger world.old).given < 2 ^ 32 - 1 }
    ensures writes_files { WritesFiles W.ledger W.healthy 1 world.old world.new }
    ensures cause { IsErrOf result OutputError.WriteFault
        → WritingFailed W.ledger W.healthy world.old world.new }
    ensures shows { (p : Start) → W.honest p world.new
        → Writes result (picture_writes name.now texts.now.picture texts.now.report)
        (W.shows p world.old) (W.shows p world.new) }
    ensures before { (p : Start) → W.honest p world.new → W.honest p world.old }
{
    let file = create(world, name)?;
    append(world, file, texts.picture.as_slice())?;
    report(world, texts.report.as_slice())
}

/// Writes what a picture came to; nothing, where an event stopped at a limit.
fn write_drawn<W: World>(
    world: &mut W,
    name: &Text,
    drawn: &Result<Texts, Limit>,
) -> Result<(), RunError>
    requires room { (W.ledger world.old).given < 2 ^ 32 - 1 }
    ensures writes_files { WritesFiles W.ledger W.healthy 1 world.old world.new }
    ensures cause { IsErrOf result RunError.WriteFault
        → WritingFailed W.ledger W.healthy world.old world.new }
    ensures shows { (p : Start) → W.honest p world.new
        → WritesPicture result drawn.now name.now (W.shows p world.old) (W.shows p world.new) }
    ensures before { (p : Start) → W.honest p world.new → W.honest p world.old }
{
    match drawn {
        Ok(texts) => written(write_texts(world, name, texts)),
        Err(limit) => Err(RunError::Limit(*limit)),
    }
}

/// Draws the picture of a run, with this title: the events of the script are performed, then the picture is created
/// under this name, and the last line of the report of `run` is reported.
///
/// Where an event would pass a limit, nothing is created or written.
pub fn run_picture<P: Program, W: World>(
    alloc: Global,
    world: &mut W,
    name: &Text,
    title: &Text,
    run: ScriptRun,
    program: P,
) -> Result<(), RunError>
    requires inputs { CanRun run }
    requires room { (W.ledger world.old).given < 2 ^ 32 - 1 }
    ensures writes_files { WritesFiles W.ledger W.healthy 1 world.old world.new }
    ensures cause { IsErrOf result RunError.WriteFault
        → WritingFailed W.ledger W.healthy world.old world.new }
    ensures whole { (p : Start) → W.honest p world.new → OnOk result
        (HasPictured title.now (setting_of (P.meaning program) run) run.events name.now
        (W.shows p world.old) (W.shows p world.new)) }
    ensures limit { (p : Start) → W.honest p world.new
        → (limit : LimitKind) → result ≡ Err (RunError.Limit limit)
        → HasStopped (setting_of (P.meaning program) run) run.events limit
        (W.shows p world.old) (W.shows p world.new) }
    ensures in_order { (p : Start) → W.honest p world.new
        → HasBegunPicture title.now (setting_of (P.meaning program) run) run.events name.now
        (W.shows p world.old) (W.shows p world.new) }
    ensures before { (p : Start) → W.honest p world.new → W.honest p world.old }
{
    let drawn = draw_run(alloc, title, run, &program)?;
    write_drawn(world, name, &drawn)
}
