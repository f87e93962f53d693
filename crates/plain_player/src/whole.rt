ghost use Rattle.std.specs.Prelude.{◌≡◌, ◌++◌, OnOk, option_to_list};
ghost use Rattle.input_logger.specs.Inputs.{inputs_of};
ghost use Rattle.plain_machine.specs.History.{play as outcome_of};
ghost use Rattle.plain_player.specs.Played.{IsPlayed, play_error};

use crate::hand::MoveError;
use crate::player::Player;
use box_program::Program;
use input_logger::InputLog;
use plain_machine::{Emission, PlayFault, Schedule};
use plain_text::{NoMemory, Sequence};
use std::alloc::Global;

/// Emissions in order.
pub type Emissions = Sequence<Emission>;

/// What a legal schedule comes to.
#[derive(Debug, Drop)]
pub struct Played {
    /// What the plain machine sends out by it, in order.
    pub emissions: Emissions,
}

/// Why a schedule was not played.
#[derive(Clone, Copy, Debug, PartialEq, Eq)]
pub enum PlayError {
    /// It is not legal: its first illegal move, and why.
    Fault(PlayFault),
    NoMemory,
}

impl From<NoMemory> for PlayError {
    ghost use Rattle.std.specs.Prelude.{◌≡◌};
    ghost use Rattle.plain_player.specs.declared.whole.PlayError.TheVariants as error;

    ghost from_gives = { λ _ e. e ≡ error.NoMemory };

    fn from(_: NoMemory) -> Self {
        PlayError::NoMemory
    }
}

/// Plays a schedule from fresh values by the plain machine, on the inputs that were fed.
///
/// It ends at the first move that is illegal, and names it by its number, from 1. A move that is illegal by several
/// causes has the first of these: no such thread; unwanted answer; nothing to take. A missing answer stands alone.
pub fn play<P: Program>(
    alloc: Global,
    program: &P,
    inputs: &InputLog,
    schedule: &Schedule,
) -> Result<Played, PlayError>
    ensures { IsPlayed (outcome_of (P.meaning program.now) (inputs_of inputs.now)
        inputs.now.threads schedule.now) result }
{
    let mut player = Player::fresh(alloc, program, inputs.threads())?;
    let mut emissions = Emissions::new(alloc);
    for index in 0..schedule.len() {
        let plain = schedule.at(index);
        let input = inputs.input(plain.thread, player.next_input(plain.thread));
        let sent = match player.step(alloc, program, plain, input) {
            Ok(sent) => sent,
            Err(error) => return Err(fault_of(index as u64 + 1, error)),
        };
        note(&mut emissions, sent)?;
    }
    Ok(Played { emissions })
}

/// Why a schedule was not played, where the move with this number was not made.
fn fault_of(number: u64, error: MoveError) -> PlayError
    ensures { result ≡ play_error number error }
{
    match error {
        MoveError::Illegal(cause) => PlayError::Fault(PlayFault { number, cause }),
        MoveError::NoMemory => PlayError::NoMemory,
    }
}

/// Appends what a move sent out, if it did.
fn note(emissions: &mut Emissions, sent: Option<Emission>) -> Result<(), NoMemory>
    ensures { OnOk result (emissions.new ≡ emissions.old ++ option_to_list sent) }
{
    match sent {
        Some(emission) => emissions.push(emission),
        None => Ok(()),
    }
}
