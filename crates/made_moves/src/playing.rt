ghost use Rattle.std.specs.Prelude.{◌≡◌, [], IfOk, OnOk};
ghost use Rattle.input_logger.specs.Inputs.{inputs_of};
ghost use Rattle.plain_machine.specs.History.{play};
ghost use Rattle.made_moves.specs.Made.{IsIllegal, made_where};

use crate::next::next_of;
use crate::{Made, MadeMoves};
use box_program::Program;
use input_logger::InputLog;
use plain_machine::Schedule;
use plain_player::{MoveError, Player};
use plain_text::NoMemory;
use std::alloc::Global;

/// No moves, where one of them is none that the plain machine may make.
fn none_of(alloc: Global, error: MoveError) -> Result<MadeMoves, NoMemory>
    ensures none { IfOk result (λ made. made ≡ []) }
    ensures illegal { OnOk result (IsIllegal error) }
{
    match error {
        MoveError::Illegal(_) => Ok(MadeMoves::new(alloc)),
        MoveError::NoMemory => Err(NoMemory),
    }
}

/// What each of these moves did, on the inputs that were fed. None where the plain machine may not make one of them.
///
/// Its time grows with the square of their number.
pub fn made_moves<P: Program>(
    alloc: Global,
    program: &P,
    inputs: &InputLog,
    moves: &Schedule,
) -> Result<MadeMoves, NoMemory>
    ensures { IfOk result (λ made. made ≡ made_where
        (play (P.meaning program.now) (inputs_of inputs.now) inputs.now.threads moves.now)) }
{
    let mut player = Player::fresh(alloc, program, inputs.threads())?;
    let mut made = MadeMoves::new(alloc);
    for index in 0..moves.len() {
        let plain = moves.at(index);
        let thread = plain.thread;
        let next = player.next_input(thread);
        let input = inputs.input(thread, next);
        let place = player.place(thread);
        let did = next_of(program, made.as_slice(), thread, next, plain.answer, place);
        let _sent = match player.step(alloc, program, plain, input) {
            Ok(sent) => sent,
            Err(error) => return none_of(alloc, error),
        };
        made.push(Made { thread, did })?;
    }
    Ok(made)
}
