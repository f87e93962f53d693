//! All that threads take, by a master alone, on one thread of the machine.
ghost use Rattle.std.specs.Prelude.{◌≡◌, ◌<◌, ◌≤◌, length};
ghost use Rattle.box_program.specs.Hands.{FitsProgram};
ghost use Rattle.master_core.specs.Mastered.{value_of};

use crate::done::Done;
use crate::inputs::Inputs;
use crate::one_packet::{MOST_COUNT, play_one};
use box_program::Program;
use master_core::Master;
use plain_text::NoMemory;
use std::alloc::Global;

/// Takes each packet of a thread to its end; how many moves that took.
fn take_all<P: Program, I: Inputs>(
    alloc: Global,
    master: &mut Master<P>,
    program: &P,
    thread: u32,
    inputs: &I,
) -> Result<u64, NoMemory>
    requires fits { FitsProgram (P.meaning program.now) (P.fits program.now)
        value_of master.old.vars }
    requires thread_in { thread < length master.old.threads }
    ensures fits { FitsProgram (P.meaning program.now) (P.fits program.now)
        value_of master.new.vars }
    ensures threads { length master.new.threads ≡ length master.old.threads }
{
    let mut moves = 0u64;
    for taken in 0..MOST_COUNT {
        let Some(packet) = inputs.next_of(thread, taken) else {
            break;
        };
        let made = play_one(alloc, master, program, thread, packet)?;
        moves = moves.saturating_add(made);
    }
    Ok(moves)
}

/// The same for one thread after the other.
fn take_in_turn<P: Program, I: Inputs>(
    alloc: Global,
    master: &mut Master<P>,
    program: &P,
    threads: u32,
    inputs: &I,
) -> Result<u64, NoMemory>
    requires fits { FitsProgram (P.meaning program.now) (P.fits program.now)
        value_of master.old.vars }
    requires threads { length master.old.threads ≡ threads }
    ensures threads { length master.new.threads ≡ threads }
{
    let mut moves = 0u64;
    for thread in 0..threads {
        let made = take_all(alloc, master, program, thread, inputs)?;
        moves = moves.saturating_add(made);
    }
    Ok(moves)
}

/// What this number of threads do, one after the other.
pub fn step_all<P: Program, I: Inputs>(
    alloc: Global,
    program: &P,
    threads: u32,
    inputs: &I,
) -> Result<Done, NoMemory>
    requires some { 0 < threads }
    requires few { threads ≤ 16 }
{
    let mut master = Master::fresh(alloc, program, threads)?;
    let moves = take_in_turn(alloc, &mut master, program, threads, inputs)?;
    Ok(Done::of(&master, threads, moves))
}
