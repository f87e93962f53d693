//! One packet, taken to its end by a master.
ghost use Rattle.std.specs.Prelude.{◌≡◌, ◌<◌, length};
ghost use Rattle.box_program.specs.Hands.{FitsProgram};
ghost use Rattle.master_core.specs.Mastered.{value_of};

use box_program::Program;
use master_core::{Master, Stepped, Turn};
use plain_text::{NoMemory, Packet};
use std::alloc::Global;

/// No thread comes to this number of inputs, entries or outputs.
pub const MOST_COUNT: u64 = 1 << 40;

/// The moves that a packet takes at most, with its take and its end.
pub const MOST_MOVES_OF_ONE: u32 = 64;

/// Makes one move of a thread with a master; whether it ended its packet.
fn step_once<P: Program>(
    alloc: Global,
    master: &mut Master<P>,
    program: &P,
    thread: u32,
    packet: &Packet,
) -> Result<bool, NoMemory>
    requires program { FitsProgram (P.meaning program.now) (P.fits program.now)
        value_of master.old.vars }
    requires thread_in { thread < length master.old.threads }
    ensures fits { FitsProgram (P.meaning program.now) (P.fits program.now)
        value_of master.new.vars }
    ensures threads { length master.new.threads ≡ length master.old.threads }
{
    let counts = master.counts(thread);
    if counts.taken > MOST_COUNT || counts.entries > MOST_COUNT || counts.outputs > MOST_COUNT {
        return Err(NoMemory);
    }
    match master.step(alloc, program, thread, Turn::Free, 0, Some(packet)) {
        Stepped::Ended(_) => Ok(true),
        Stepped::NoMemory => Err(NoMemory),
        _ => Ok(false),
    }
}

/// Takes a packet to its end with a master; how many moves that took.
pub fn play_one<P: Program>(
    alloc: Global,
    master: &mut Master<P>,
    program: &P,
    thread: u32,
    packet: &Packet,
) -> Result<u64, NoMemory>
    requires program { FitsProgram (P.meaning program.now) (P.fits program.now)
        value_of master.old.vars }
    requires thread_in { thread < length master.old.threads }
    ensures fits { FitsProgram (P.meaning program.now) (P.fits program.now)
        value_of master.new.vars }
    ensures threads { length master.new.threads ≡ length master.old.threads }
{
    let mut moves = 0u64;
    'moves: for _ in 0..MOST_MOVES_OF_ONE {
        moves = moves.saturating_add(1);
        if step_once(alloc, master, program, thread, packet)? {
            break;
        }
    }
    Ok(moves)
}
