//! A worker of a round: it makes the moves of its thread, one after another.
ghost use Rattle.std.specs.Prelude.{◌≡◌, ◌<◌, ◌≤◌, ◌+◌, ◌^◌, ◌++◌, ◌∷◌, [], ℕ, false, length, IfOk};
ghost use Rattle.std.specs.Prelude.{OnOk};
ghost use Rattle.std.specs.Prelude.{MatchBool, Some};
ghost use Rattle.input_logger.specs.Inputs.{inputs_of};
ghost use Rattle.master_core.specs.Mastered.{moves_made};
ghost use Rattle.var_locks.specs.Rounds.{AreVarsOf};
ghost use Rattle.var_locks.specs.Seats.{IsSeatOf};
ghost use Rattle.live_workers.specs.Moving.{HasInput, answer_shown, made_by};
ghost use Rattle.live_workers.specs.Working.{Given, GoesOn, HasCome, HasEnded, IsGiven, MadeNone};
ghost use Rattle.live_workers.specs.Working.{MadeOne, MayGoOn, WhyEnded};

use crate::moving::{Sender, Surroundings, make_next};
use box_program::Program;
use entry_order::What;
use kept_moves::KeptMove;
use master_core::Stepped;
use plain_text::NoMemory;
use rand_pcg::Pcg32;
use round_join::{Made, Moves};
use std::alloc::Global;
use std::marker::Model;
use std::sync::Wait;
use var_locks::{Gate, Round, VarSeat};
use world_io::Clock;

/// What a worker is given.
#[derive(Drop)]
pub(crate) struct Worker<P: Program> {
    pub(crate) seat: VarSeat<P>,
    pub(crate) generator: Pcg32,
    /// Where it keeps its moves. What is in there does not count.
    pub(crate) room: Moves,
    /// How many moves it makes at most, where there is such an order.
    pub(crate) limit: Option<u64>,
}

impl<P: Program> Model for Worker<P> {
    ghost use Rattle.live_workers.specs.Working.{Given};

    ghost Value = { Given P.Value };

    ghost view = { λ w. record {
      seat = w.seat;
      generator = w.generator;
      limit = w.limit;
    } };
}

/// What a worker has, and what it leaves: its seat, what its thread did, and what it was given.
#[derive(Drop)]
pub(crate) struct Working<P: Program> {
    pub(crate) seat: VarSeat<P>,
    pub(crate) moves: Moves,
    pub(crate) generator: Pcg32,
}

impl<P: Program> Model for Working<P> {
    ghost use Rattle.live_workers.specs.Working.{Course};

    ghost Value = { Course P.Value };

    ghost view = { λ w. record {
      seat = w.seat;
      moves = w.moves;
      generator = w.generator;
    } };
}

/// What a move was told, by what its call showed.
fn told_by(stepped: &Stepped) -> Option<u64>
    ensures { result ≡ answer_shown stepped.now }
{
    let Stepped::Did(entry) = stepped else {
        return None;
    };
    match entry.what {
        What::Clock(answer) | What::Draw(answer) => Some(answer),
        What::Access { .. } | What::Read { .. } => None,
    }
}

impl<P: Program> Working<P> {
    /// Keeps a move that its thread made.
    fn keep(
        &mut self,
        alloc: Global,
        sender: Sender,
        thread: u32,
        stepped: Stepped,
    ) -> Result<(), NoMemory>
        ensures seat { self.new.seat ≡ self.old.seat }
        ensures generator { self.new.generator ≡ self.old.generator }
        ensures moves { OnOk result (self.new.moves ≡ made_by thread stepped ∷ self.old.moves) }
    {
        let answer = told_by(&stepped);
        let stepped = KeptMove::of(alloc, sender.epoch, sender.threads, stepped)?;
        self.moves.push(Made {
            thread,
            answer,
            stepped,
        })
    }
}

/// Makes the thread's next move; whether it made one.
fn go_on<P: Program, J: Round, C: Clock, G: Gate, R: Wait>(
    rt: &R,
    around: &Surroundings<'_, P, J, C, G>,
    working: &mut Working<P>,
) -> Result<bool, NoMemory>
    requires of { AreVarsOf P.meaning P.row.coded P.Value.row.coded
        around.now.program.now around.now.vars.now }
    requires guide { around.now.guide.now ≡ J.guide }
    requires seat { IsSeatOf around.now.vars.now working.old.seat }
    requires going { working.old.seat.ended ≡ false }
    requires input { HasInput (inputs_of around.now.inputs.now working.old.seat.thread)
        working.old.seat.part }
    requires room { moves_made working.old.seat.part < 2 ^ 56 }
    ensures goes { GoesOn working.old working.new }
    ensures come { OnOk result ((given : Given P.Value)
        → HasCome (P.meaning around.now.program.now) J.guide (inputs_of around.now.inputs.now)
        (C.may around.now.clock.now) given working.old
        → HasCome (P.meaning around.now.program.now) J.guide (inputs_of around.now.inputs.now)
        (C.may around.now.clock.now) given working.new) }
    ensures made { IfOk result (λ made. MatchBool made
        (MadeOne (inputs_of around.now.inputs.now) working.old working.new)
        (MadeNone (P.meaning around.now.program.now) J.guide (inputs_of around.now.inputs.now)
        working.old working.new)) }
{
    let thread = working.seat.thread();
    let stepped = make_next(rt, around, &mut working.seat, &mut working.generator);
    match stepped {
        Stepped::Idle | Stepped::NotTurn { .. } => Ok(false),
        Stepped::NoMemory => Err(NoMemory),
        Stepped::Took(_) | Stepped::Did(_) | Stepped::Emitted(_) | Stepped::Ended(_) => {
            working.keep(around.alloc, around.sender, thread, stepped)?;
            Ok(true)
        }
    }
}

/// Makes the thread's moves, until it made as many as it may or as there is room for, or can make none. It begins with
/// the other workers, where entries are followed; where these can't run at once, it ends as where memory runs out.
fn run<P: Program, J: Round, C: Clock, G: Gate, R: Wait>(
    rt: &R,
    around: &Surroundings<'_, P, J, C, G>,
    most: u64,
    limit: Option<u64>,
    working: &mut Working<P>,
) -> Result<(), NoMemory>
    requires of { AreVarsOf P.meaning P.row.coded P.Value.row.coded
        around.now.program.now around.now.vars.now }
    requires guide { around.now.guide.now ≡ J.guide }
    requires seat { IsSeatOf around.now.vars.now working.old.seat }
    requires none { working.old.moves ≡ [] }
    requires may { MayGoOn (inputs_of around.now.inputs.now) most working.old }
    ensures goes { GoesOn working.old working.new }
    ensures come { OnOk result ((given : Given P.Value)
        → HasCome (P.meaning around.now.program.now) J.guide (inputs_of around.now.inputs.now)
        (C.may around.now.clock.now) given working.old
        → HasCome (P.meaning around.now.program.now) J.guide (inputs_of around.now.inputs.now)
        (C.may around.now.clock.now) given working.new) }
    ensures few { OnOk result ((n : ℕ) → limit ≡ Some n → length working.new.moves ≤ n) }
    ensures why { OnOk result (WhyEnded (P.meaning around.now.program.now) J.guide
        (inputs_of around.now.inputs.now) most limit working.new.seat
        (length working.new.moves)) }
{
    if !around.crew.begin() {
        return Err(NoMemory);
    }
    for made in 0..most {
        if limit == Some(made) || !go_on(rt, around, working)? {
            return Ok(());
        }
    }
    Ok(())
}

/// Makes the moves of the worker's thread, and ends the round for it.
pub(crate) fn work<P: Program, J: Round, C: Clock, G: Gate, R: Wait>(
    rt: &R,
    around: &Surroundings<'_, P, J, C, G>,
    most: u64,
    worker: Worker<P>,
) -> Result<Working<P>, NoMemory>
    requires of { AreVarsOf P.meaning P.row.coded P.Value.row.coded
        around.now.program.now around.now.vars.now }
    requires guide { around.now.guide.now ≡ J.guide }
    requires given { IsGiven around.now.vars.now (inputs_of around.now.inputs.now) most worker }
    ensures ended { IfOk result (λ end. HasEnded (P.meaning around.now.program.now) J.guide
        (inputs_of around.now.inputs.now) (C.may around.now.clock.now) most worker end) }
{
    let Worker {
        seat,
        generator,
        room,
        limit,
    } = worker;
    let mut working = Working {
        seat,
        moves: room.cleared(),
        generator,
    };
    let ran = run(rt, around, most, limit, &mut working);
    around.vars.end(around.program, &mut working.seat);
    ran?;
    Ok(working)
}
