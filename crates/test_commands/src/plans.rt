//! Plans, on more threads than one: `run` of the script that `live` writes leaves what `live` left, byte for byte.
ghost use Rattle.std.specs.Prelude.{◌≡◌, ◌+◌, ◌≤◌, length};

use crate::commands::{add_files, are_same, give_words, texts_of};
use crate::gates::WaitingGate;
use job_top::{Status, ftmb};
use plain_text::{Bytes, Limit, NoMemory, Text};
use sample_frames::TWO_PACKETS;
use std::alloc::Global;
use std::sync::Wait;
use std::test::Fail;
use std::thread::Threads;
use var_locks::{Gate, OpenGate};
use world_io::{FixedClock, MemoryWorld};

/// What racing threads are given: a box file, a capture and a plan. Where no capture is given, packets are made.
#[derive(Clone, Copy)]
struct Race<'a> {
    box_file: &'a [u8],
    capture: Source<'a>,
    plan: &'a [u8],
    /// What `live` comes to, and then `run` of its script.
    status: Status,
    /// How the report of each ends.
    last: &'a [u8],
}

/// Where packets come from.
#[derive(Clone, Copy)]
enum Source<'a> {
    Capture(&'a [u8]),
    /// The words of `make`.
    Made(&'a str, &'a str),
}

/// What words come to, of threads that race at this gate.
fn race_by_words<G: Gate + Sync, R: AllocGlobal + Threads + Wait + Sync>(
    rt: &R,
    gate: &G,
    world: &mut MemoryWorld,
    words: &[&str],
) -> Result<Status, NoMemory>
    requires { length world.old.files ≤ 1000 }
    ensures { length world.new.files ≤ length world.old.files + 8 }
{
    let texts = texts_of(rt.alloc(), words)?;
    Ok(ftmb(rt, texts.as_slice(), world, &FixedClock(100_000_006), gate))
}

/// Sets the files of a race.
fn prepare(alloc: Global, world: &mut MemoryWorld, race: &Race<'_>) -> Result<(), NoMemory>
    requires { length world.old.files ≤ 500 }
    ensures { length world.new.files ≤ length world.old.files + 8 }
{
    add_files(alloc, world, &[("box", race.box_file), ("plan", race.plan)])?;
    match race.capture {
        Source::Capture(bytes) => add_files(alloc, world, &[("in", bytes)])?,
        Source::Made(seed, packets) => {
            give_words(alloc, world, &["make", seed, packets, "in"])?;
        }
    }
    Ok(())
}

/// The report of `live`, where the threads race as told and it ends as told.
fn race_as_told<G: Gate + Sync, R: AllocGlobal + Threads + Wait + Sync>(
    rt: &R,
    gate: &G,
    world: &mut MemoryWorld,
    race: &Race<'_>,
) -> Result<Option<Bytes>, NoMemory>
    requires { length world.old.files ≤ 900 }
    ensures { length world.new.files ≤ length world.old.files + 8 }
{
    let words = ["live", "box", "in", "plan", "out", "moves", "script"];
    let before = world.report().len();
    let status = race_by_words(rt, gate, world, &words)?;
    let Some(report) = world.report().get(before..) else {
        return Ok(None);
    };
    if status != race.status || !report.ends_with(race.last) {
        return Ok(None);
    }
    Ok(Some(Bytes::of(rt.alloc(), report)?))
}

/// Whether `run` of the script that stands there comes to this status, reports this again, and leaves the same files.
fn runs_the_same(
    alloc: Global,
    world: &mut MemoryWorld,
    status: Status,
    report: &[u8],
) -> Result<bool, NoMemory>
    requires { length world.old.files ≤ 900 }
    ensures { length world.new.files ≤ length world.old.files + 8 }
{
    let words = ["run", "box", "in", "script", "out_again", "moves_again"];
    let before = world.report().len();
    let is_same = give_words(alloc, world, &words)? == status
        && are_same(alloc, world, "out", "out_again")?
        && are_same(alloc, world, "moves", "moves_again")?;
    Ok(is_same && world.report().get(before..) == Some(report))
}

/// Whether `check` finds each packet that was released in a run by the schedule.
fn is_found(alloc: Global, world: &mut MemoryWorld, found: &[u8]) -> Result<bool, NoMemory>
    requires { length world.old.files ≤ 900 }
{
    let status = give_words(alloc, world, &["check", "box", "in", "moves", "out"])?;
    Ok(status == Status::Done && world.report().ends_with(found))
}

/// Whether a race comes to what is told, and `run` of its script to the same.
fn agrees_in<G: Gate + Sync, R: AllocGlobal + Threads + Wait + Sync>(
    rt: &R,
    gate: &G,
    world: &mut MemoryWorld,
    race: &Race<'_>,
) -> Result<bool, NoMemory>
    requires { length world.old.files ≡ 0 }
    ensures { length world.new.files ≤ 24 }
{
    prepare(rt.alloc(), world, race)?;
    let Some(report) = race_as_told(rt, gate, world, race)? else {
        return Ok(false);
    };
    runs_the_same(rt.alloc(), world, race.status, report.as_slice())
}

/// Whether it does in a world of its own, and `check` accepts what it left.
fn is_accepted<G: Gate + Sync, R: AllocGlobal + Threads + Wait + Sync>(
    rt: &R,
    gate: &G,
    race: &Race<'_>,
    found: &[u8],
) -> Result<bool, NoMemory> {
    let mut world = MemoryWorld::new(rt.alloc())?;
    Ok(agrees_in(rt, gate, &mut world, race)? && is_found(rt.alloc(), &mut world, found)?)
}

/// Two threads that count packets by flow, each in a table of its own.
const MONITOR: &[u8] = b"box monitor\nthreads 2\nshards 2\n";

#[test]
fn threads_move_beside_each_other(rt: HostRuntime) -> Result<(), Fail> {
    let gate = WaitingGate::new();
    let race = Race {
        box_file: MONITOR,
        capture: Source::Capture(TWO_PACKETS),
        plan: b"feed 2\nround\nsettle\n",
        status: Status::Done,
        last: b"done fed 2 epoch 1 released 2\n",
    };
    assert!(rt; is_accepted(&rt, &gate, &race, b"found 2\n")?);
    assert!(rt; gate.ended() == 2);
    Ok(())
}

/// Whether a master may crash behind a round of which this number of frames of the first thread is taken.
fn may_crash<R: AllocGlobal + Threads + Wait + Sync>(
    rt: &R,
    frames: u64,
) -> Result<bool, NoMemory> {
    let plan = format!(in rt.alloc();
        "feed 2\ntake 0 {frames}\nround\ncrash\nrecover\nround\nsettle\n"
    )?;
    let race = Race {
        box_file: MONITOR,
        capture: Source::Capture(TWO_PACKETS),
        plan: plan.as_bytes(),
        status: Status::Done,
        last: b"done fed 2 epoch 2 released 2\n",
    };
    is_accepted(rt, &OpenGate, &race, b"found 2\n")
}

#[test]
fn a_crash_behind_frames_that_were_taken(rt: HostRuntime) -> Result<(), Fail> {
    for frames in 0..4 {
        assert!(rt; may_crash(&rt, frames)?, "{frames}");
    }
    Ok(())
}

/// Rounds with crashes, snapshots, limits and losses.
const MANY_ROUNDS: &[u8] =
    b"feed 500\nround\nsnap\nstore\nfeed 500\nlimit 0 300\ntake 1 40\nround\ncrash\nrecover\nround\nfeed 500\nlose log 2 900\nlose out 3 260\nround\ncrash\nrecover\nfeed 500\nround\nsettle\n";

#[test]
fn four_threads_race_and_crash_over_the_nat(rt: HostRuntime) -> Result<(), Fail> {
    let race = Race {
        box_file: b"box nat\nthreads 4\nshards 4\ninside 10.0.0.0 8\noutside 203.0.113.1\n",
        capture: Source::Made("7", "2000"),
        plan: MANY_ROUNDS,
        status: Status::Done,
        last: b"done fed 2000 epoch 3 released 2000\n",
    };
    assert!(rt; is_accepted(&rt, &OpenGate, &race, b"found 2000\n")?);
    Ok(())
}

/// All packets come in, a round of which no frame is taken, and a crash.
const ALL_LOST: &[u8] = b"feed 65536\ntake 0 0\nround\ncrash\nrecover\n";

/// These lines, this number of times.
fn repeat(alloc: Global, lines: &[u8], count: u32) -> Result<Bytes, NoMemory> {
    let mut all = Bytes::new(alloc);
    for _ in 0..count {
        all.extend(lines)?;
    }
    Ok(all)
}

/// How many lines the script has.
fn lines_of_script(alloc: Global, world: &MemoryWorld) -> Result<usize, NoMemory> {
    let script = Text::of(alloc, "script")?;
    Ok(match world.bytes(&script) {
        Some(bytes) => bytes.iter().filter(|byte| **byte == b'\n').count(),
        None => 0,
    })
}

/// How many lines the script of a race has that comes to what is told.
fn count_lines<R: AllocGlobal + Threads + Wait + Sync>(
    rt: &R,
    race: &Race<'_>,
) -> Result<usize, NoMemory> {
    let mut world = MemoryWorld::new(rt.alloc())?;
    if !agrees_in(rt, &OpenGate, &mut world, race)? {
        return Ok(0);
    }
    lines_of_script(rt.alloc(), &world)
}

/// Behind the sixth crash there have been 1,966,080 moves of the 2,000,000 that a run may have.
#[test]
fn a_script_of_all_moves_that_a_run_may_have(rt: HostRuntime) -> Result<(), Fail> {
    let plan = repeat(rt.alloc(), ALL_LOST, 7)?;
    let race = Race {
        box_file: b"box monitor\n",
        capture: Source::Made("1", "65536"),
        plan: plan.as_slice(),
        status: Status::TooLarge(Limit::Moves),
        last: b"",
    };
    assert!(rt; count_lines(&rt, &race)? == 2_000_020);
    Ok(())
}
