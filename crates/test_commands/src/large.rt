//! Large runs: 20,000 generated packets, 90,000 events chosen from a number, and three crashes among them, on four
//! threads; and as many moves as a run may have.
ghost use Rattle.std.specs.Prelude.{◌≡◌, length};

use crate::commands::{Case, Fault, add_files, are_same, comes_to, give_words};
use job_top::Status;
use plain_text::{Limit, NoMemory, Text};
use std::alloc::Global;
use std::test::Fail;
use world_io::MemoryWorld;

const SCRIPT: &[u8] =
    b"auto 1 30000\ncrash\nrecover\nauto 2 30000\ncrash\nrecover\nauto 3 30000\ncrash\nrecover\nsettle\n";

/// The last lines where each packet was released, and `check` found each.
const ALL_FOUND: &[u8] = b"done fed 20000 epoch 4 released 20000\nfound 20000\n";

/// Boxes, and how the report of each ends. Of the packets, 42 go to the virtual address and port of the balancer, by
/// the generator's definition, each of a client of its own.
const RUNS: [(&[u8], &[u8]); 4] = [
    (
        b"box nat\nthreads 4\ninside 10.0.0.0 8\noutside 203.0.113.1\n",
        ALL_FOUND,
    ),
    (b"box monitor\nthreads 4\n", ALL_FOUND),
    (b"box count\nthreads 4\n", ALL_FOUND),
    (
        b"box balancer\nthreads 4\nvirtual 198.51.100.7 53\nbackend 10.1.0.1 53\nbackend 10.1.0.2 53\n",
        b"done fed 20000 epoch 4 released 42\nfound 42\n",
    ),
];

/// Whether the packets are made, the run is done, `check` accepts it, and the report ends with these lines.
fn ends_with<'a>(alloc: Global, box_file: &'a [u8], lines: &'a [u8]) -> Result<bool, NoMemory> {
    let case = Case {
        files: &[("box", box_file), ("script", SCRIPT)],
        commands: &[
            &["make", "7", "20000", "in"],
            &["run", "box", "in", "script", "out", "moves"],
            &["check", "box", "in", "moves", "out"],
        ],
        status: Status::Done,
        left: &[],
        report: lines,
        is_whole_report: false,
    };
    comes_to(alloc, Fault::Nothing, &case)
}

#[test]
fn large_runs_are_accepted(rt: HostRuntime) -> Result<(), Fail> {
    for (place, (box_file, lines)) in RUNS.iter().enumerate() {
        assert!(rt; ends_with(rt.alloc(), box_file, lines)?, "{place}");
    }
    Ok(())
}

/// Six times all 65,536 packets are settled and the master crashes, which has 1,966,080 moves in all.
pub const SETTLED: &[u8] =
    b"settle\ncrash\nsettle\ncrash\nsettle\ncrash\nsettle\ncrash\nsettle\ncrash\nsettle\ncrash\nsettle\ncrash\n";

/// The lines of the report before the limit of 2,000,000 moves.
const SETTLED_REPORT: &[u8] =
    b"settle moves 327680 released 65536 epoch 1\ncrash done\nsettle moves 327680 released 0 epoch 2\ncrash done\nsettle moves 327680 released 0 epoch 3\ncrash done\nsettle moves 327680 released 0 epoch 4\ncrash done\nsettle moves 327680 released 0 epoch 5\ncrash done\nsettle moves 327680 released 0 epoch 6\ncrash done\n";

/// How many bytes a name has.
fn length_of(alloc: Global, world: &MemoryWorld, name: &str) -> Result<usize, NoMemory> {
    let name = Text::of(alloc, name)?;
    Ok(match world.bytes(&name) {
        Some(bytes) => bytes.len(),
        None => 0,
    })
}

/// Whether the run stops at its limit, and has released each packet once and unchanged.
fn stops_in(alloc: Global, world: &mut MemoryWorld) -> Result<bool, NoMemory>
    requires { length world.old.files ≡ 0 }
{
    add_files(
        alloc,
        world,
        &[("box", b"box monitor\n"), ("script", SETTLED)],
    )?;
    give_words(alloc, world, &["make", "1", "65536", "in"])?;
    let made = world.report().len();
    let run = ["run", "box", "in", "script", "out", "moves"];
    let is_stopped = give_words(alloc, world, &run)? == Status::TooLarge(Limit::Moves)
        && world.report().get(made..) == Some(SETTLED_REPORT);
    Ok(
        is_stopped
            && length_of(alloc, world, "out")? == 4_980_760
            && are_same(alloc, world, "in", "out")?,
    )
}

/// Whether it does in a world of its own.
fn stops(alloc: Global) -> Result<bool, NoMemory> {
    let mut world = MemoryWorld::new(alloc)?;
    stops_in(alloc, &mut world)
}

#[test]
fn a_run_stops_at_2_000_000_moves(rt: HostRuntime) -> Result<(), Fail> {
    assert!(rt; stops(rt.alloc())?);
    Ok(())
}
