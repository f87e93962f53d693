//! A round that ends in the middle of a packet of each of two racing threads: the master after it goes on there.
ghost use Rattle.std.specs.Prelude.{◌≡◌, ◌<◌, length};
ghost use Rattle.box_program.specs.Hands.{FitsProgram};
ghost use Rattle.master_core.specs.Mastered.{value_of};

use crate::inputs::inputs_of;
use crate::races::race_fresh;
use crate::racing::{Feed, MOST_COUNT};
use crate::steps::trace_of;
use crate::turns::{did, wanted};
use access_log::Turn;
use box_program::Program;
use input_logger::InputLog;
use master_core::{Master, Trace, Wants};
use monitor_box::MonitorBox;
use plain_text::NoMemory;
use replay_guide::Guide;
use sample_frames::{OTHER_QUERY, QUERY};
use std::alloc::Global;
use std::marker::Sync;
use std::sync::Wait;
use std::test::Fail;
use std::thread::Threads;

/// Whether both threads want these moves next.
fn want<P: Program>(master: &Master<P>, program: &P, wanted: [Wants; 2]) -> bool
    requires program { FitsProgram (P.meaning program.now) (P.fits program.now)
        value_of master.now.vars }
    requires two { length master.now.threads ≡ 2 }
{
    let [first, second] = wanted;
    master.wants(program, 0) == first && master.wants(program, 1) == second
}

/// Makes a move of a thread with the packet that it has in hand, else with its next one; whether it leaves this.
fn leaves<P: Program>(
    alloc: Global,
    master: &mut Master<P>,
    program: &P,
    inputs: &InputLog,
    thread: u32,
    wanted: Trace,
) -> bool
    requires program { FitsProgram (P.meaning program.now) (P.fits program.now)
        value_of master.old.vars }
    requires thread_in { thread < length master.old.threads }
    ensures fits { FitsProgram (P.meaning program.now) (P.fits program.now)
        value_of master.new.vars }
    ensures threads { length master.new.threads ≡ length master.old.threads }
{
    let counts = master.counts(thread);
    if counts.taken > MOST_COUNT || counts.entries > MOST_COUNT || counts.outputs > MOST_COUNT {
        return false;
    }
    let number = master.in_hand(thread).unwrap_or(counts.taken + 1);
    let Some(packet) = inputs.input(thread, number) else {
        return false;
    };
    let stepped = master.step(alloc, program, thread, Turn::Free, 0, Some(packet));
    trace_of(&stepped) == Some(wanted)
}

/// Makes moves of a thread; whether they leave these.
fn leave<P: Program>(
    alloc: Global,
    master: &mut Master<P>,
    program: &P,
    inputs: &InputLog,
    thread: u32,
    wanted: &[Trace],
) -> bool
    requires program { FitsProgram (P.meaning program.now) (P.fits program.now)
        value_of master.old.vars }
    requires thread_in { thread < length master.old.threads }
    ensures fits { FitsProgram (P.meaning program.now) (P.fits program.now)
        value_of master.new.vars }
    ensures threads { length master.new.threads ≡ length master.old.threads }
{
    for trace in wanted {
        if !leaves(alloc, master, program, inputs, thread, *trace) {
            return false;
        }
    }
    true
}

/// The touch of the totals that a thread wants as its second entry, where nobody has touched them.
const TOTALS: Wants = Wants::Touch {
    number: 2,
    var: 0,
    places: 0,
};

/// The touch of its own table that a thread wants as its third entry: it alone touched it, once.
fn own_table(var: u32) -> Wants {
    Wants::Touch {
        number: 3,
        var,
        places: 1,
    }
}

/// Whether the master makes what is left of both packets, takes the next ones, and goes on with them.
fn goes_on<P: Program>(
    alloc: Global,
    master: &mut Master<P>,
    program: &P,
    inputs: &InputLog,
    left: [&[Trace]; 2],
) -> bool
    requires program { FitsProgram (P.meaning program.now) (P.fits program.now)
        value_of master.old.vars }
    requires two { length master.old.threads ≡ 2 }
{
    let [first, second] = left;
    want(master, program, [TOTALS, TOTALS])
        && leave(alloc, master, program, inputs, 0, first)
        && leave(alloc, master, program, inputs, 1, second)
        && leaves(alloc, master, program, inputs, 0, Trace::Took(2))
        && leaves(alloc, master, program, inputs, 1, Trace::Took(2))
        && want(master, program, [own_table(1), own_table(2)])
}

/// Whether a round that two threads end after two moves comes back so, and the master after it goes on.
fn stops_and_goes_on<R: Threads + Wait + Sync>(rt: &R, alloc: Global) -> Result<bool, NoMemory> {
    let program = MonitorBox::new(2);
    let inputs = inputs_of(alloc, [&QUERY, &OTHER_QUERY], 2)?;
    let feed = Feed {
        inputs: &inputs,
        count: 1,
        moves: 2,
        time: 0,
        at_once: true,
    };
    let mut raced = race_fresh(rt, alloc, &program, &Guide::none(alloc), feed)?;
    let [first, second] = wanted();
    let (first_made, first_left) = first[..].split_at(2);
    let (second_made, second_left) = second[..].split_at(2);
    let receipts = raced.did.receipts.as_slice();
    if !did(receipts, 0, first_made) || !did(receipts, 1, second_made) {
        return Ok(false);
    }
    let left = [first_left, second_left];
    Ok(goes_on(alloc, &mut raced.master, &program, &inputs, left))
}

/// Each thread takes a packet and touches the table of its flow, as its first entry and at place 1; then the round
/// ends. Each thread then wants the totals, as its second entry and at place 0. The master makes what is left of both
/// packets and takes the next two, and each thread wants its own table as its third entry, which was touched once.
#[test]
fn a_round_ends_in_the_middle_of_a_packet(rt: HostRuntime) -> Result<(), Fail> {
    assert!(rt; stops_and_goes_on(&rt, rt.alloc())?);
    Ok(())
}
