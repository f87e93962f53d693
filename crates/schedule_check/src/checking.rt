ghost use Rattle.std.specs.Prelude.{IfOk};
ghost use Rattle.input_logger.specs.Inputs.{inputs_of};
ghost use Rattle.plain_machine.specs.History.{play as outcome_of};
ghost use Rattle.schedule_check.specs.Checking.{IsChecked};

use crate::first_unmatched;
use box_program::Program;
use input_logger::InputLog;
use plain_machine::{PlayFault, Schedule};
use plain_player::{PlayError, play};
use plain_text::{NoMemory, Packet, Unit};
use std::alloc::Global;

/// Why a schedule and released packets are refused.
#[derive(Clone, Copy, Debug, PartialEq, Eq)]
pub enum Refutation {
    /// The schedule is not legal: its first illegal move, and why.
    Moves(PlayFault),
    /// The number, from 1, of the first released packet that has no emission of its own.
    Packet(u64),
}

/// What is found of a schedule and released packets.
#[derive(Clone, Copy, Debug, PartialEq, Eq)]
pub enum Checked {
    /// The schedule is legal, and each of this number of released packets has an emission of its own.
    Found(u64),
    Refuted(Refutation),
}

/// Whether a schedule is legal on the inputs that were fed, and whether each released packet has an emission of its
/// own.
///
/// The schedule is judged first, and then the packets. The fractions of the inputs are in `unit`, and those of the
/// released packets in `released_unit`.
pub fn check<P: Program>(
    alloc: Global,
    program: &P,
    inputs: &InputLog,
    unit: Unit,
    schedule: &Schedule,
    released: &[Packet],
    released_unit: Unit,
) -> Result<Checked, NoMemory>
    ensures { IfOk result (IsChecked (outcome_of (P.meaning program.now) (inputs_of inputs.now)
        inputs.now.threads schedule.now) unit released.now released_unit) }
{
    let played = match play(alloc, program, inputs, schedule) {
        Ok(played) => played,
        Err(PlayError::Fault(fault)) => return Ok(Checked::Refuted(Refutation::Moves(fault))),
        Err(PlayError::NoMemory) => return Err(NoMemory),
    };
    let emissions = played.emissions.as_slice();
    match first_unmatched(alloc, released_unit, released, unit, emissions)? {
        Some(number) => Ok(Checked::Refuted(Refutation::Packet(number))),
        None => Ok(Checked::Found(released.len() as u64)),
    }
}
