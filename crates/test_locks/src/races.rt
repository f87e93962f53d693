//! A round of two threads, which race on two threads of the machine, or go one after the other.
ghost use Rattle.std.specs.Prelude.{◌≡◌, ℕ, ◌<◌, length, false, true, IfOk};
ghost use Rattle.box_program.specs.Hands.{FitsProgram};
ghost use Rattle.master_core.specs.Mastered.{value_of};
ghost use Rattle.var_locks.specs.Codes.{master_code};
ghost use Rattle.var_locks.specs.Openings.{places_of};
ghost use Rattle.var_locks.specs.Rounds.{AreVarsOf};
ghost use Rattle.test_locks.specs.Racing.{IsSeatIn};

use crate::inputs::inputs_of;
use crate::outcomes::{Outcome, outcome_of, shows};
use crate::racing::{Feed, MOST_MOVES, Ran, run};
use crate::rounds::{close_two, open_two};
use crate::steps::{Did, did_of};
use box_program::Program;
use master_core::{Counts, Master};
use monitor_box::MonitorBox;
use nat_box::{NatBox, NatSettings};
use plain_text::NoMemory;
use replay_guide::Guide;
use sample_frames::{NEXT_QUERY, OTHER_QUERY, QUERY};
use std::alloc::Global;
use std::marker::{Brand, Sync};
use std::sync::Wait;
use std::test::Fail;
use std::thread;
use std::thread::Threads;
use var_locks::{Closed, Round, VarSeat, Vars};

/// What a round of two threads came to: the master after it, and what each thread did.
#[derive(Drop)]
pub struct RoundEnd<P: Program> {
    pub master: Master<P>,
    pub did: Did,
}

/// Both threads take their inputs to their ends, at once or one after the other.
fn run_both<P: Program + Sync, J: Round + Sync, R: Threads + Wait + Sync>(
    rt: &R,
    alloc: Global,
    program: &P,
    vars: &Vars<P, J>,
    guide: &Guide,
    first: VarSeat<P>,
    second: VarSeat<P>,
    feed: Feed<'_>,
) -> (Ran<P>, Ran<P>)
    requires of { AreVarsOf P.meaning P.row.coded P.Value.row.coded program.now vars.now }
    requires guide { guide.now ≡ J.guide }
    requires two { vars.now.threads ≡ 2 }
    requires first { IsSeatIn vars.now.round 0 false first }
    requires second { IsSeatIn vars.now.round 1 false second }
    ensures first { IsSeatIn vars.now.round 0 true result.0.seat }
    ensures second { IsSeatIn vars.now.round 1 true result.1.seat }
{
    if !feed.at_once {
        let first = run(rt, alloc, program, vars, guide, 0, first, feed);
        return (first, run(rt, alloc, program, vars, guide, 1, second, feed));
    }
    thread::join(
        rt,
        move || -> Ran<P>
            requires { AreVarsOf P.meaning P.row.coded P.Value.row.coded program.now vars.now
                × (guide.now ≡ J.guide) × (vars.now.threads ≡ 2)
                × IsSeatIn vars.now.round 0 false first }
            ensures { IsSeatIn vars.entry.now.round 0 true result.seat }
        { run(rt, alloc, program, vars, guide, 0, first, feed) },
        move || -> Ran<P>
            requires { AreVarsOf P.meaning P.row.coded P.Value.row.coded program.now vars.now
                × (guide.now ≡ J.guide) × (vars.now.threads ≡ 2)
                × IsSeatIn vars.now.round 1 false second }
            ensures { IsSeatIn vars.entry.now.round 1 true result.seat }
        { run(rt, alloc, program, vars, guide, 1, second, feed) },
    )
}

/// A round in which each of two threads takes its inputs to their ends.
fn race_of<P: Program + Sync, J: Round + Sync, R: Threads + Wait + Sync>(
    rt: &R,
    alloc: Global,
    program: &P,
    master: Master<P>,
    guide: &Guide,
    feed: Feed<'_>,
) -> Result<RoundEnd<P>, NoMemory>
    requires program { P.row.coded.code program.now ≡ J.program }
    requires master { (master_code P.Value.row.coded).code master ≡ J.opening }
    requires threads { master.threads ≡ J.threads }
    requires places { places_of master.vars ≡ J.places }
    requires guide { guide.now ≡ J.guide }
    requires fits { FitsProgram (P.meaning program.now) (P.fits program.now) value_of master.vars }
    requires two { length master.threads ≡ 2 }
    ensures fits { IfOk result (λ raced. FitsProgram (P.meaning program.now) (P.fits program.now)
        value_of raced.master.vars) }
    ensures two { IfOk result (λ raced. length raced.master.threads ≡ 2) }
{
    let (vars, first, second) = open_two::<P, J>(alloc, program, master, guide)?;
    let (first, second) = run_both(rt, alloc, program, &vars, guide, first, second, feed);
    let Closed { master, marks } = close_two(alloc, program, vars, first.seat, second.seat)?;
    let did = did_of(alloc, marks, first.did, second.did)?;
    Ok(RoundEnd { master, did })
}

/// A round in which each of two threads takes its inputs to their ends.
fn race<P: Program + Sync, R: Threads + Wait + Sync>(
    rt: &R,
    alloc: Global,
    program: &P,
    master: Master<P>,
    guide: &Guide,
    feed: Feed<'_>,
) -> Result<RoundEnd<P>, NoMemory>
    requires fits { FitsProgram (P.meaning program.now) (P.fits program.now) value_of master.vars }
    requires two { length master.threads ≡ 2 }
    ensures fits { IfOk result (λ raced. FitsProgram (P.meaning program.now) (P.fits program.now)
        value_of raced.master.vars) }
    ensures two { IfOk result (λ raced. length raced.master.threads ≡ 2) }
{
    race_of::<P, Brand, R>(rt, alloc, program, master, guide, feed)
}

/// A round of two threads of a fresh master, each of which takes its inputs to their ends.
pub fn race_fresh<P: Program + Sync, R: Threads + Wait + Sync>(
    rt: &R,
    alloc: Global,
    program: &P,
    guide: &Guide,
    feed: Feed<'_>,
) -> Result<RoundEnd<P>, NoMemory>
    ensures fits { IfOk result (λ raced. FitsProgram (P.meaning program.now) (P.fits program.now)
        value_of raced.master.vars) }
    ensures two { IfOk result (λ raced. length raced.master.threads ≡ 2) }
{
    let master = Master::fresh(alloc, program, 2)?;
    race(rt, alloc, program, master, guide, feed)
}

/// Whether a race of two threads of a fresh master comes to this, and the variable then shows so.
fn raced_with<P: Program + Sync, R: Threads + Wait + Sync>(
    rt: &R,
    alloc: Global,
    program: &P,
    feed: Feed<'_>,
    wanted: &Outcome,
    shown: (u32, &str),
) -> Result<bool, NoMemory> {
    let raced = race_fresh(rt, alloc, program, &Guide::none(alloc), feed)?;
    let (var, text) = shown;
    let shows = shows(alloc, program, &raced.master, var, text)?;
    Ok(shows && outcome_of(alloc, program, feed.inputs, &raced)? == *wanted)
}

/// Whether a race of two threads, each with this number of packets of one of these frames, comes to this, and the
/// variable then shows so.
fn raced<P: Program + Sync, R: Threads + Wait + Sync>(
    rt: &R,
    alloc: Global,
    program: &P,
    frames: [&[u8]; 2],
    count: u64,
    wanted: &Outcome,
    shown: (u32, &str),
) -> Result<bool, NoMemory> {
    let inputs = inputs_of(alloc, frames, count)?;
    let feed = Feed {
        inputs: &inputs,
        count,
        moves: MOST_MOVES,
        time: 0,
        at_once: true,
    };
    raced_with(rt, alloc, program, feed, wanted, shown)
}

/// What comes where each thread took and sent out this number of packets, and logged and made this number of entries
/// and moves.
pub fn outcome(packets: u64, entries: u64, moves: usize) -> Outcome {
    let counts = Counts {
        taken: packets,
        entries,
        outputs: packets,
    };
    Outcome {
        counts: [counts, counts],
        moves,
        legal: true,
    }
}

/// Each packet touches the table of its flow, which is that of its thread alone, and then the totals: 100,000 touches
/// of each thread.
#[test]
fn two_threads_race_over_the_monitor(rt: HostRuntime) -> Result<(), Fail> {
    let alloc = rt.alloc();
    let program = MonitorBox::new(2);
    let wanted = outcome(50_000, 100_000, 500_000);
    let shown = (0, "packets 100000 bytes 4200000 other 0");
    let frames: [&[u8]; 2] = [&QUERY, &OTHER_QUERY];
    assert!(rt; raced(&rt, alloc, &program, frames, 50_000, &wanted, shown)?);
    Ok(())
}

/// The first packet of each endpoint makes 9 moves, and of them 4 touches. Each one after it finds its mapping idle,
/// and makes 11 moves, of which 6 are touches. All are told the time and a word. So each thread makes 100,000 touches.
#[test]
fn two_threads_race_over_the_nat(rt: HostRuntime) -> Result<(), Fail> {
    let alloc = rt.alloc();
    let wanted = outcome(16_667, 133_334, 366_670);
    let shown = (1, "tcp 1024 udp 1022");
    let frames: [&[u8]; 2] = [&QUERY, &NEXT_QUERY];
    for tables in [1, 4] {
        let program = NatBox::new(NatSettings::basic(
            tables,
            0x0a00_0000,
            8,
            0xcb00_7101,
            39_276,
            40_299,
        ));
        let right = raced(&rt, alloc, &program, frames, 16_667, &wanted, shown)?;
        assert!(rt; right, "{tables}");
    }
    Ok(())
}
