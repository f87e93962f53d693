//! Runs with taps in memory: what the taps saw, and that the run is not hurt by one that fails.
ghost use Rattle.std.specs.Prelude.{◌≡◌, length, IfOk, OnOk};
ghost use Rattle.release_taps.specs.Recorded.{AreUnused};

use crate::commands::{Fault, add_fault, add_files};
use job_top::{Status, TappedRun, race_tapped};
use plain_text::{NoMemory, Text};
use release_taps::{MemoryTap, Shown, Split, Tap, split_taps};
use sample_frames::{ONE_COUNTED, ONE_PACKET};
use std::alloc::Global;
use std::sync::Wait;
use std::test::Fail;
use std::thread::Threads;
use var_locks::OpenGate;
use world_io::{FixedClock, MemoryWorld};

/// What a run with taps in memory leaves.
type Run = TappedRun<MemoryWorld, MemoryTap>;

/// The counting box, one packet, and what happens to it.
const FILES: &[(&str, &[u8])] = &[
    ("box", b"box count\n"),
    ("in", ONE_PACKET),
    ("script", b"settle\n"),
];

const RUN: &[&str] = &["run", "box", "in", "script", "out", "moves"];

/// Taps that fail past these limits, in order.
fn new_taps(alloc: Global, limits: &[Option<u64>]) -> Result<Vec<MemoryTap>, NoMemory>
    ensures { IfOk result (λ taps. AreUnused taps.items) }
{
    let mut taps = Vec::new(alloc);
    for limit in limits {
        add_tap(alloc, &mut taps, *limit)?;
    }
    Ok(taps)
}

fn add_tap(alloc: Global, taps: &mut Vec<MemoryTap>, limit: Option<u64>) -> Result<(), NoMemory>
    requires { AreUnused taps.old.items }
    ensures { OnOk result (AreUnused taps.new.items) }
{
    taps.push(MemoryTap::new(alloc, limit)?)?;
    Ok(())
}

/// The words of the run after this many pairs, each with a name of its own.
fn tapped_words(alloc: Global, pairs: usize) -> Result<Vec<Text>, NoMemory> {
    let mut words = Vec::new(alloc);
    for pair in 0..pairs {
        words.push(Text::of(alloc, "tap")?)?;
        words.push(name_of(alloc, pair)?)?;
    }
    for word in RUN {
        words.push(Text::of(alloc, word)?)?;
    }
    Ok(words)
}

/// The name of a tap: `t` and its number.
fn name_of(alloc: Global, number: usize) -> Result<Text, NoMemory> {
    let name = format!(in alloc; "t{number}")?;
    Text::of(alloc, name.as_str())
}

/// A world with the files of the run, of which this fails.
fn new_world(alloc: Global, fault: Fault) -> Result<MemoryWorld, NoMemory>
    ensures { IfOk result (λ world. length world.files ≡ 0) }
{
    let mut world = MemoryWorld::new(alloc)?;
    add_fault(&mut world, fault)?;
    add_files(alloc, &mut world, FILES)?;
    Ok(world)
}

/// The run with a tap for each limit. None where the words do not ask for that.
fn run_with_taps<R: AllocGlobal + Threads + Wait + Sync>(
    rt: &R,
    fault: Fault,
    limits: &[Option<u64>],
) -> Result<Option<Run>, NoMemory> {
    let world = new_world(rt.alloc(), fault)?;
    let taps = new_taps(rt.alloc(), limits)?;
    let words = tapped_words(rt.alloc(), limits.len())?;
    let words = words.as_slice();
    match split_taps(words) {
        Split::Taps { pairs, .. } if pairs == taps.len() => {
            match race_tapped(rt, words, world, taps, &FixedClock(0), &OpenGate) {
                Ok(run) => Ok(Some(run)),
                Err(_world) => Err(NoMemory),
            }
        }
        _ => Ok(None),
    }
}

/// Whether the tap of this place was shown these bytes, and answered this last.
fn has_seen(run: &Run, place: usize, bytes: &[u8], last: Shown) -> bool {
    match run.rest.seats.get(place) {
        Some(seat) => seat.tap.bytes() == bytes && seat.last == last,
        None => false,
    }
}

#[test]
fn a_tap_that_fails_does_not_hurt_the_run(rt: HostRuntime) -> Result<(), Fail> {
    let run = run_with_taps(&rt, Fault::Nothing, &[None, Some(30)])?;
    let Some(run) = run else {
        panic!(rt; "no taps");
    };
    assert!(rt; run.status == Status::Done);
    assert!(rt; has_seen(&run, 0, ONE_COUNTED, Shown::Took));
    assert!(rt; has_seen(&run, 1, &ONE_COUNTED[..24], Shown::Failed));
    let out = Text::of(rt.alloc(), "out")?;
    assert!(rt; run.rest.world.bytes(&out) == Some(ONE_COUNTED));
    Ok(())
}

#[test]
fn what_is_not_written_is_not_shown(rt: HostRuntime) -> Result<(), Fail> {
    let run = run_with_taps(&rt, Fault::Write(2), &[None])?;
    let Some(run) = run else {
        panic!(rt; "no taps");
    };
    assert!(rt; run.status == Status::WriteFault);
    assert!(rt; has_seen(&run, 0, b"", Shown::Took));
    Ok(())
}
