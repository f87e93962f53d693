//! A round in which each thread takes all that it is to take, in a thread of the machine.
ghost use Rattle.std.specs.Prelude.{◌≡◌, ℕ, ◌<◌, ◌≤◌, ◌^◌, false, true, length, slice_index_or};
ghost use Rattle.std.specs.Prelude.{All, IfOk};
ghost use Rattle.box_program.specs.Hands.{FitsProgram};
ghost use Rattle.master_core.specs.Mastered.{value_of};
ghost use Rattle.var_locks.specs.Codes.{master_code};
ghost use Rattle.var_locks.specs.Openings.{places_of};
ghost use Rattle.var_locks.specs.Rounds.{AreVarsOf};
ghost use Rattle.var_locks.specs.Seats.{Seated};
ghost use Rattle.bench.specs.Racing.{IsGoing, Stays};

use crate::done::Done;
use crate::inputs::Inputs;
use crate::one_packet::{MOST_COUNT, MOST_MOVES_OF_ONE};
use box_program::Program;
use master_core::{Master, Stepped};
use plain_text::{NoMemory, Packet};
use replay_guide::Guide;
use std::alloc::Global;
use std::marker::Brand;
use std::sync::Wait;
use std::thread::{Threads, map_vec};
use var_locks::{Closed, OpenGate, Round, Touched, VarSeat, Vars, is_on_variable};

/// Makes the next move of the seat's thread.
#[tactic(auto, using(crate::proofs::Staying::steps_stay, crate::proofs::Staying::touches_stay))]
fn make<P: Program, J: Round, R: Wait>(
    rt: &R,
    alloc: Global,
    program: &P,
    vars: &Vars<P, J>,
    guide: &Guide,
    seat: &mut VarSeat<P>,
    packet: &Packet,
) -> Stepped
    requires of { AreVarsOf P.meaning P.row.coded P.Value.row.coded program.now vars.now }
    requires guide { guide.now ≡ J.guide }
    requires seat { IsGoing vars.now seat.old }
    ensures stays { Stays false seat.old seat.new }
{
    let counts = seat.counts();
    if counts.taken > MOST_COUNT || counts.entries > MOST_COUNT || counts.outputs > MOST_COUNT {
        return Stepped::NoMemory;
    }
    let wants = seat.wants(program);
    if is_on_variable(&wants) {
        return match vars.touch(rt, alloc, program, seat, &wants, guide, &OpenGate) {
            Touched::Did(entry) => Stepped::Did(entry),
            Touched::Blocked { thread, number } => Stepped::NotTurn { thread, number },
            Touched::NoMemory => Stepped::NoMemory,
        };
    }
    vars.plain(alloc, program, seat, &wants, guide, 0, Some(packet))
}

/// Takes a packet to its end; whether it came there.
#[tactic(auto, using(crate::proofs::Staying::still_going))]
fn run_one<P: Program, J: Round, R: Wait>(
    rt: &R,
    alloc: Global,
    program: &P,
    vars: &Vars<P, J>,
    guide: &Guide,
    seat: &mut VarSeat<P>,
    packet: &Packet,
) -> bool
    requires of { AreVarsOf P.meaning P.row.coded P.Value.row.coded program.now vars.now }
    requires guide { guide.now ≡ J.guide }
    requires seat { IsGoing vars.now seat.old }
    ensures stays { Stays false seat.old seat.new }
{
    for _made in 0..MOST_MOVES_OF_ONE {
        match make(rt, alloc, program, vars, guide, seat, packet) {
            Stepped::Ended(_) => return true,
            Stepped::Took(_) | Stepped::Did(_) | Stepped::Emitted(_) => {}
            Stepped::Idle | Stepped::NotTurn { .. } | Stepped::NoMemory => return false,
        }
    }
    false
}

/// Takes each packet of the seat's thread to its end, and ends the round for it.
#[tactic(auto, using(crate::proofs::Staying::still_going))]
fn run<P: Program, J: Round, I: Inputs, R: AllocGlobal + Wait>(
    rt: &R,
    program: &P,
    vars: &Vars<P, J>,
    guide: &Guide,
    inputs: &I,
    mut seat: VarSeat<P>,
) -> VarSeat<P>
    requires of { AreVarsOf P.meaning P.row.coded P.Value.row.coded program.now vars.now }
    requires guide { guide.now ≡ J.guide }
    requires seat { IsGoing vars.now seat }
    ensures stays { Stays true seat result }
{
    let thread = seat.thread();
    for taken in 0..MOST_COUNT {
        let Some(packet) = inputs.next_of(thread, taken) else {
            break;
        };
        if !run_one(rt, rt.alloc(), program, vars, guide, &mut seat, packet) {
            break;
        }
    }
    vars.end(program, &mut seat);
    seat
}

/// Runs the seats, each in a thread of the machine.
fn run_all<
    P: Program + Send + Sync,
    J: Round + Send + Sync,
    I: Inputs + Sync,
    R: AllocGlobal + Threads + Wait + Sync,
>(
    rt: &R,
    program: &P,
    vars: &Vars<P, J>,
    guide: &Guide,
    inputs: &I,
    seats: Vec<VarSeat<P>>,
) -> Result<Vec<VarSeat<P>>, NoMemory>
    requires of { AreVarsOf P.meaning P.row.coded P.Value.row.coded program.now vars.now }
    requires guide { guide.now ≡ J.guide }
    requires seats { All (IsGoing vars.now) seats.items }
    ensures count { IfOk result (λ ended. length ended.items ≡ length seats.items) }
    ensures each { IfOk result (λ ended. (i : ℕ) (d : Seated P.Value) → i < length seats.items
        → Stays true (slice_index_or seats.items i d) (slice_index_or ended.items i d)) }
{
    let work = |seat: VarSeat<P>| -> VarSeat<P>
        requires { AreVarsOf P.meaning P.row.coded P.Value.row.coded program.now vars.now
            × (guide.now ≡ J.guide)
            × IsGoing vars.now seat }
        ensures { Stays true seat result }
    { run(rt, program, vars, guide, inputs, seat) };
    Ok(map_vec(rt, seats, &work)?)
}

/// A round in which each thread takes all that it is to take.
fn round_of<
    P: Program + Send + Sync,
    J: Round + Send + Sync,
    I: Inputs + Sync,
    R: AllocGlobal + Threads + Wait + Sync,
>(rt: &R, program: &P, master: Master<P>, guide: &Guide, inputs: &I) -> Result<Closed<P>, NoMemory>
    requires program { P.row.coded.code program.now ≡ J.program }
    requires master { (master_code P.Value.row.coded).code master ≡ J.opening }
    requires threads { master.threads ≡ J.threads }
    requires places { places_of master.vars ≡ J.places }
    requires guide { guide.now ≡ J.guide }
    requires fits { FitsProgram (P.meaning program.now) (P.fits program.now) value_of master.vars }
    requires some { 0 < length master.threads }
    ensures threads { IfOk result (λ closed.
        length closed.master.threads ≡ length master.threads) }
{
    let alloc = rt.alloc();
    let (vars, seats) = Vars::<P, J>::of(alloc, program, master, guide)?;
    let seats = run_all(rt, program, &vars, guide, inputs, seats)?;
    vars.close(alloc, program, seats)
}

/// What this number of threads do, beside each other.
pub fn race<P: Program + Send + Sync, I: Inputs + Sync, R: AllocGlobal + Threads + Wait + Sync>(
    rt: &R,
    program: &P,
    threads: u32,
    inputs: &I,
) -> Result<Done, NoMemory>
    requires some { 0 < threads }
    requires few { threads ≤ 16 }
{
    let alloc = rt.alloc();
    let master = Master::fresh(alloc, program, threads)?;
    let guide = Guide::none(alloc);
    let closed = round_of::<P, Brand, I, R>(rt, program, master, &guide, inputs)?;
    let mut moves = 0u64;
    for marks in &closed.marks {
        moves = moves.saturating_add(marks.len() as u64);
    }
    Ok(Done::of(&closed.master, threads, moves))
}
