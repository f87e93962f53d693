//! A race: the workers of a master's threads, on threads of the machine.
ghost use Rattle.std.specs.Prelude.{◌≡◌, ◌<◌, All, IfOk, length};
ghost use Rattle.box_program.specs.Hands.{FitsProgram};
ghost use Rattle.input_logger.specs.Inputs.{inputs_of};
ghost use Rattle.master_core.specs.Mastered.{value_of};
ghost use Rattle.var_locks.specs.Codes.{master_code};
ghost use Rattle.var_locks.specs.Openings.{places_of};
ghost use Rattle.var_locks.specs.Rounds.{AreVarsOf};
ghost use Rattle.frame_intake.specs.Orders.{orders_of};
ghost use Rattle.live_workers.specs.Working.{HasEnded, IsGiven};
ghost use Rattle.live_workers.specs.Racing.{AllAnswered, AreReadyFor};
ghost use Rattle.live_workers.specs.Racing.{IsRace};

use crate::crew::Crew;
use crate::draws::Draws;
use crate::gathering::{Left, part_all, workers_of};
use crate::moving::{Sender, Surroundings};
use crate::working::{Worker, Working, work};
use box_program::Program;
use frame_intake::RoundOrders;
use input_logger::InputLog;
use master_core::Master;
use plain_text::NoMemory;
use rand_pcg::Pcg32;
use replay_guide::Guide;
use round_join::Moves;
use round_order::Marks;
use std::marker::Brand;
use std::sync::Wait;
use std::thread::{Threads, map_vec};
use var_locks::{Gate, Round, Vars};
use world_io::Clock;

/// What a race came to: the master after it; and of each thread the marks by which its moves are woven, the moves, and the
/// generator.
#[derive(Drop)]
pub(crate) struct Race<P: Program> {
    pub(crate) master: Master<P>,
    pub(crate) marks: Vec<Marks>,
    pub(crate) moves: Vec<Moves>,
    pub(crate) generators: Vec<Pcg32>,
}

/// Runs the workers, each on a thread of the machine.
fn run_all<
    P: Program + Send + Sync,
    J: Round + Send + Sync,
    C: Clock + Sync,
    G: Gate + Sync,
    R: AllocGlobal + Threads + Wait + Sync,
>(
    rt: &R,
    program: &P,
    vars: &Vars<P, J>,
    guide: &Guide,
    inputs: &InputLog,
    clock: &C,
    gate: &G,
    crew: &Crew,
    most: u64,
    sender: Sender,
    workers: Vec<Worker<P>>,
) -> Result<Vec<Result<Working<P>, NoMemory>>, NoMemory>
    requires of { AreVarsOf P.meaning P.row.coded P.Value.row.coded program.now vars.now }
    requires guide { guide.now ≡ J.guide }
    requires given { All (IsGiven vars.now (inputs_of inputs.now) most) workers.items }
    ensures { IfOk result (λ ended. AllAnswered (P.meaning program.now) J.guide
        (inputs_of inputs.now) (C.may clock.now) most workers.items ended.items) }
{
    let run = |worker: Worker<P>| -> Result<Working<P>, NoMemory>
        requires { AreVarsOf P.meaning P.row.coded P.Value.row.coded program.now vars.now
            × (guide.now ≡ J.guide)
            × IsGiven vars.now (inputs_of inputs.now) most worker }
        ensures { IfOk result (λ end. HasEnded (P.meaning program.entry.now) J.guide
            (inputs_of inputs.entry.now) (C.may clock.entry.now) most worker end) }
    {
        let around = Surroundings {
            alloc: rt.alloc(),
            sender,
            program,
            vars,
            guide,
            inputs,
            clock,
            gate,
            crew,
        };
        work(rt, &around, most, worker)
    };
    Ok(map_vec(rt, workers, &run)?)
}

/// A race of the round that J names.
fn race_of<
    P: Program + Send + Sync,
    J: Round + Send + Sync,
    C: Clock + Sync,
    G: Gate + Sync,
    R: AllocGlobal + Threads + Wait + Sync,
>(
    rt: &R,
    program: &P,
    guide: &Guide,
    inputs: &InputLog,
    clock: &C,
    gate: &G,
    master: Master<P>,
    orders: &RoundOrders,
    mut draws: Draws,
    most: u64,
    sender: Sender,
) -> Result<Race<P>, NoMemory>
    requires program { P.row.coded.code program.now ≡ J.program }
    requires master { (master_code P.Value.row.coded).code master ≡ J.opening }
    requires threads { master.threads ≡ J.threads }
    requires places { places_of master.vars ≡ J.places }
    requires guide { guide.now ≡ J.guide }
    requires fits { FitsProgram (P.meaning program.now) (P.fits program.now) value_of master.vars }
    requires some { 0 < length master.threads }
    requires draws { length draws ≡ length master.threads }
    requires ready { AreReadyFor most (inputs_of inputs.now) master }
    ensures { IfOk result (λ race. IsRace (P.meaning program.now) (P.fits program.now) J.guide
        (inputs_of inputs.now) (C.may clock.now) most (orders_of orders.now).moves master draws race.master
        race.marks.items race.moves.items race.generators.items) }
{
    let alloc = rt.alloc();
    let (vars, seats) = Vars::<P, J>::of(alloc, program, master, guide)?;
    let rooms = draws.take_rooms(alloc);
    let workers = workers_of(alloc, seats, draws.into_vec(), rooms, orders)?;
    let crew = Crew::of(guide, &workers);
    let ended = run_all(
        rt, program, &vars, guide, inputs, clock, gate, &crew, most, sender, workers,
    )?;
    let left = part_all(alloc, ended)?;
    let closed = vars.close(alloc, program, left.seats)?;
    Ok(Race {
        master: closed.master,
        marks: closed.marks,
        moves: left.moves,
        generators: left.generators,
    })
}

/// A race of the threads of this master, each of which makes fewer than `most` moves more.
pub(crate) fn run_race<
    P: Program + Send + Sync,
    C: Clock + Sync,
    G: Gate + Sync,
    R: AllocGlobal + Threads + Wait + Sync,
>(
    rt: &R,
    program: &P,
    guide: &Guide,
    inputs: &InputLog,
    clock: &C,
    gate: &G,
    master: Master<P>,
    orders: &RoundOrders,
    draws: Draws,
    most: u64,
    sender: Sender,
) -> Result<Race<P>, NoMemory>
    requires fits { FitsProgram (P.meaning program.now) (P.fits program.now) value_of master.vars }
    requires some { 0 < length master.threads }
    requires draws { length draws ≡ length master.threads }
    requires ready { AreReadyFor most (inputs_of inputs.now) master }
    ensures { IfOk result (λ race. IsRace (P.meaning program.now) (P.fits program.now) guide.now
        (inputs_of inputs.now) (C.may clock.now) most (orders_of orders.now).moves master draws race.master
        race.marks.items race.moves.items race.generators.items) }
{
    race_of::<P, Brand, C, G, R>(
        rt, program, guide, inputs, clock, gate, master, orders, draws, most, sender,
    )
}
