//! One move of a thread of a round.
ghost use Rattle.std.specs.Prelude.{◌≡◌, ◌<◌, ◌^◌, ℕ, true, false, option_copied};
ghost use Rattle.input_logger.specs.Inputs.{input_at, inputs_of};
ghost use Rattle.master_core.specs.Mastered.{moves_made};
ghost use Rattle.var_locks.specs.Rounds.{AreVarsOf};
ghost use Rattle.var_locks.specs.Seats.{IsSeatOf};
ghost use Rattle.var_locks.specs.Wanting.{on_variable, seat_wants};
ghost use Rattle.live_workers.specs.Telling.{IsAtHand};
ghost use Rattle.live_workers.specs.Moving.{ComesTo, HasInput, input_wanted, touch_shown};

use crate::crew::Crew;
use box_program::Program;
use input_logger::InputLog;
use master_core::{Counts, Stepped, Wants};
use plain_text::Packet;
use rand_core::utils::NextWord;
use rand_pcg::Pcg32;
use replay_guide::Guide;
use std::alloc::Global;
use std::sync::Wait;
use var_locks::{Gate, Round, Touched, VarSeat, Vars, is_on_variable};
use world_io::Clock;

/// What the frames of a round say of who sends them: its epoch and its number of threads.
#[derive(Clone, Copy)]
pub(crate) struct Sender {
    pub(crate) epoch: u32,
    pub(crate) threads: u32,
}

/// What surrounds the moves of a round: its box, its variables and what is followed, and whom its threads ask.
#[derive(Drop)]
pub(crate) struct Surroundings<'a, P: Program, J: Round, C, G> {
    pub(crate) alloc: Global,
    pub(crate) sender: Sender,
    pub(crate) program: &'a P,
    pub(crate) vars: &'a Vars<P, J>,
    pub(crate) guide: &'a Guide,
    pub(crate) inputs: &'a InputLog,
    pub(crate) clock: &'a C,
    pub(crate) gate: &'a G,
    pub(crate) crew: &'a Crew,
}

/// The answer at hand for what a thread wants: where none is recorded of a clock or a draw, the time, or the next word
/// of the thread's generator.
fn answer_at_hand<C: Clock>(
    guide: &Guide,
    clock: &C,
    thread: u32,
    wants: &Wants,
    generator: &mut Pcg32,
) -> u64
    ensures { IsAtHand (C.may clock.now) guide.now thread wants.now result
        generator.old generator.new }
{
    match *wants {
        Wants::Clock(number) if guide.answer(thread, number).is_none() => clock.now(),
        Wants::Draw(number) if guide.answer(thread, number).is_none() => {
            u64::from(generator.next_word())
        }
        _ => 0,
    }
}

/// The packet that a thread's next move is made with: the one in hand, else its next input, if there is one.
fn input_for<'a>(
    inputs: &'a InputLog,
    thread: u32,
    wants: &Wants,
    counts: &Counts,
) -> Option<&'a Packet>
    ensures { option_copied result
        ≡ input_at inputs.now thread (input_wanted wants.now counts.now) }
{
    match *wants {
        Wants::Take(number) => inputs.input(thread, number),
        _ => inputs.input(thread, counts.taken),
    }
}

/// What a touch came to, as what its call did for the thread.
fn stepped_by(touched: Touched) -> Stepped
    ensures { result ≡ touch_shown touched }
{
    match touched {
        Touched::Did(entry) => Stepped::Did(entry),
        Touched::Blocked { thread, number } => Stepped::NotTurn { thread, number },
        Touched::NoMemory => Stepped::NoMemory,
    }
}

/// Touches or reads the variable that the thread wants.
#[tactic(auto, using(crate::proofs::MovingLemmas::touch_comes))]
fn touch_next<P: Program, J: Round, C: Clock, G: Gate, R: Wait>(
    rt: &R,
    around: &Surroundings<'_, P, J, C, G>,
    seat: &mut VarSeat<P>,
    generator: &Pcg32,
    wants: &Wants,
) -> Stepped
    requires of { AreVarsOf P.meaning P.row.coded P.Value.row.coded
        around.now.program.now around.now.vars.now }
    requires guide { around.now.guide.now ≡ J.guide }
    requires seat { IsSeatOf around.now.vars.now seat.old }
    requires going { seat.old.ended ≡ false }
    requires room { moves_made seat.old.part < 2 ^ 56 }
    requires wanted { wants.now ≡ seat_wants (P.meaning around.now.program.now) seat.old }
    requires on { on_variable wants.now ≡ true }
    ensures comes { ComesTo (P.meaning around.now.program.now) J.guide
        (inputs_of around.now.inputs.now seat.old.thread) (C.may around.now.clock.now)
        seat.old generator.now seat.new generator.now result }
{
    let _ = generator;
    stepped_by(
        around.vars.touch(
            rt,
            around.alloc,
            around.program,
            seat,
            wants,
            around.guide,
            around.gate,
        ),
    )
}

/// Makes the thread's next move, which is on no variable.
#[tactic(auto, using(crate::proofs::MovingLemmas::plain_comes, crate::proofs::MovingLemmas::passed))]
fn plain_next<P: Program, J: Round, C: Clock, G: Gate>(
    around: &Surroundings<'_, P, J, C, G>,
    seat: &mut VarSeat<P>,
    generator: &mut Pcg32,
    wants: &Wants,
) -> Stepped
    requires of { AreVarsOf P.meaning P.row.coded P.Value.row.coded
        around.now.program.now around.now.vars.now }
    requires guide { around.now.guide.now ≡ J.guide }
    requires seat { IsSeatOf around.now.vars.now seat.old }
    requires going { seat.old.ended ≡ false }
    requires room { moves_made seat.old.part < 2 ^ 56 }
    requires wanted { wants.now ≡ seat_wants (P.meaning around.now.program.now) seat.old }
    requires own { on_variable wants.now ≡ false }
    requires input { HasInput (inputs_of around.now.inputs.now seat.old.thread) seat.old.part }
    ensures comes { ComesTo (P.meaning around.now.program.now) J.guide
        (inputs_of around.now.inputs.now seat.old.thread) (C.may around.now.clock.now)
        seat.old generator.old seat.new generator.new result }
{
    let thread = seat.thread();
    let input = input_for(around.inputs, thread, wants, &seat.counts());
    let answer = answer_at_hand(around.guide, around.clock, thread, wants, generator);
    around.vars.plain(
        around.alloc,
        around.program,
        seat,
        wants,
        around.guide,
        answer,
        input,
    )
}

/// Makes the thread's next move.
pub(crate) fn make_next<P: Program, J: Round, C: Clock, G: Gate, R: Wait>(
    rt: &R,
    around: &Surroundings<'_, P, J, C, G>,
    seat: &mut VarSeat<P>,
    generator: &mut Pcg32,
) -> Stepped
    requires of { AreVarsOf P.meaning P.row.coded P.Value.row.coded
        around.now.program.now around.now.vars.now }
    requires guide { around.now.guide.now ≡ J.guide }
    requires seat { IsSeatOf around.now.vars.now seat.old }
    requires going { seat.old.ended ≡ false }
    requires room { moves_made seat.old.part < 2 ^ 56 }
    requires input { HasInput (inputs_of around.now.inputs.now seat.old.thread) seat.old.part }
    ensures comes { ComesTo (P.meaning around.now.program.now) J.guide
        (inputs_of around.now.inputs.now seat.old.thread) (C.may around.now.clock.now)
        seat.old generator.old seat.new generator.new result }
{
    let wants = seat.wants(around.program);
    if is_on_variable(&wants) {
        return touch_next(rt, around, seat, generator, &wants);
    }
    plain_next(around, seat, generator, &wants)
}
