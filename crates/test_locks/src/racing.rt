//! A thread of a round, as it takes packets to their ends.
ghost use Rattle.std.specs.Prelude.{◌≡◌, ℕ, ◌<◌, ◌^◌, false, true};
ghost use Rattle.var_locks.specs.Rounds.{AreVarsOf};
ghost use Rattle.test_locks.specs.Racing.{IsSeatIn};

use crate::steps::add;
use box_program::Program;
use input_logger::InputLog;
use master_core::{Stepped, Woven};
use plain_text::Packet;
use replay_guide::Guide;
use std::alloc::Global;
use std::sync::Wait;
use var_locks::{OpenGate, Round, Touched, VarSeat, Vars, is_on_variable};

/// No thread of a test comes to this number of inputs, entries or outputs.
pub const MOST_COUNT: u64 = 1 << 40;

/// The moves that a packet takes at most, with its take and its end.
pub const MOST_MOVES: u32 = 64;

/// How long the NAT keeps a mapping without use, in microseconds.
const IDLE: u64 = 300_000_000;

/// What the threads of a round are given.
#[derive(Clone, Copy)]
pub struct Feed<'a> {
    pub inputs: &'a InputLog,
    /// Each thread takes this number of its first inputs.
    pub count: u64,
    /// Of each input it makes at most this number of moves; where one is not at its end then, the thread ends the
    /// round.
    pub moves: u32,
    /// The time of the round, in microseconds: a thread's k-th packet is told the time k times 300 s later.
    pub time: u64,
    /// Whether the threads race; else the second begins where the first has ended.
    pub at_once: bool,
}

/// A seat whose thread was run, and what it was answered.
#[derive(Drop)]
pub struct Ran<P: Program> {
    pub seat: VarSeat<P>,
    pub did: Woven,
}

/// Makes the next move of the seat's thread. A clock or a draw is told the time of its packet. Out of memory also where
/// the thread made more moves than a test makes.
#[tactic(auto, using(crate::proofs::Keeping::steps_keep, crate::proofs::Keeping::touches_keep))]
fn make<P: Program, J: Round, R: Wait>(
    rt: &R,
    alloc: Global,
    program: &P,
    vars: &Vars<P, J>,
    guide: &Guide,
    thread: u32,
    seat: &mut VarSeat<P>,
    packet: &Packet,
    time: u64,
) -> Stepped
    requires of { AreVarsOf P.meaning P.row.coded P.Value.row.coded program.now vars.now }
    requires guide { guide.now ≡ J.guide }
    requires low { thread < vars.now.threads }
    requires seat { IsSeatIn vars.now.round thread false seat.old }
    ensures seat { IsSeatIn vars.now.round thread false seat.new }
{
    let counts = seat.counts();
    if counts.taken > MOST_COUNT || counts.entries > MOST_COUNT || counts.outputs > MOST_COUNT {
        return Stepped::NoMemory;
    }
    let wants = seat.wants(program);
    if is_on_variable(&wants) {
        return match vars.touch(rt, alloc, program, seat, &wants, guide, &OpenGate) {
            Touched::Did(entry) => Stepped::Did(entry),
            Touched::Blocked { thread, number } => Stepped::NotTurn { thread, number },
            Touched::NoMemory => Stepped::NoMemory,
        };
    }
    let told = time.wrapping_add(counts.taken.wrapping_mul(IDLE));
    vars.plain(alloc, program, seat, &wants, guide, told, Some(packet))
}

/// Takes a packet to its end, if it comes there in as many moves as are to be made, and adds the moves to what the
/// thread did; whether it came there.
fn run_one<P: Program, J: Round, R: Wait>(
    rt: &R,
    alloc: Global,
    program: &P,
    vars: &Vars<P, J>,
    guide: &Guide,
    thread: u32,
    seat: &mut VarSeat<P>,
    did: &mut Woven,
    packet: &Packet,
    feed: Feed<'_>,
) -> bool
    requires of { AreVarsOf P.meaning P.row.coded P.Value.row.coded program.now vars.now }
    requires guide { guide.now ≡ J.guide }
    requires low { thread < vars.now.threads }
    requires seat { IsSeatIn vars.now.round thread false seat.old }
    ensures seat { IsSeatIn vars.now.round thread false seat.new }
{
    for _made in 0..feed.moves {
        let stepped = make(
            rt, alloc, program, vars, guide, thread, seat, packet, feed.time,
        );
        let Ok(true) = add(did, thread, &stepped) else {
            return false;
        };
        if let Stepped::Ended(_) = stepped {
            return true;
        }
    }
    false
}

/// Takes the inputs of the seat's thread as far as they are to come, and ends the round for it.
pub fn run<P: Program, J: Round, R: Wait>(
    rt: &R,
    alloc: Global,
    program: &P,
    vars: &Vars<P, J>,
    guide: &Guide,
    thread: u32,
    mut seat: VarSeat<P>,
    feed: Feed<'_>,
) -> Ran<P>
    requires of { AreVarsOf P.meaning P.row.coded P.Value.row.coded program.now vars.now }
    requires guide { guide.now ≡ J.guide }
    requires low { thread < vars.now.threads }
    requires seat { IsSeatIn vars.now.round thread false seat }
    ensures seat { IsSeatIn vars.now.round thread true result.seat }
{
    let mut did = Woven::new(alloc);
    for number in 0..feed.count {
        let Some(packet) = feed.inputs.input(thread, number + 1) else {
            break;
        };
        if !run_one(
            rt, alloc, program, vars, guide, thread, &mut seat, &mut did, packet, feed,
        ) {
            break;
        }
    }
    vars.end(program, &mut seat);
    Ran { seat, did }
}
