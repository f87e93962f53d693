//! The judging of an image: its counts, its rows and its moves.
ghost use Rattle.std.specs.Prelude.{◌≡◌, ◌≤◌, ◌↔◌, IfOk, IsTrue, OnOk, Err, length};
ghost use Rattle.handover_world.specs.Faults.{IsFault};
ghost use Rattle.handover_world.specs.declared.fault.ResumeError.{ResumeError as ResumeErrorKind};
ghost use Rattle.input_logger.specs.Inputs.{inputs_of};
ghost use Rattle.recovery_world.specs.World.{Setting, World};
ghost use Rattle.system_parts.specs.SystemStanding.{StandsFor};
ghost use Rattle.system_images.specs.Judging.{CountsMayBe, IsFar, IsFarAt, PlaysWhole, sizes_of};

use crate::rows::wrong_row;
use box_program::Program;
use handover::Image;
use handover_world::ResumeError;
use input_logger::InputLog;
use plain_machine::{Emission, PlayFault, Schedule};
use plain_player::{MoveError, Player};
use plain_text::{MOST_MOVES, MOST_OUTPUT_BYTES, NoMemory};
use std::alloc::Global;
use system_parts::Core;

/// Whether the counts of the state may be on so many packets, but for the bytes that its moves send out.
pub fn counts_may_be(image: &Image, packets: u64) -> bool
    ensures { IsTrue result ↔ CountsMayBe packets image.now }
{
    image.fed <= packets
        && 2 <= image.epoch
        && image.draws <= image.moves
        && image.moves <= u64::from(MOST_MOVES)
        && image.bytes <= u64::from(MOST_OUTPUT_BYTES)
        && image.past.len() as u64 <= image.moves
}

/// How far a list of moves can be made: the bytes that it sends out until then, at most 2^64 - 1, and the first move
/// that can't be made, if there is one.
#[derive(Clone, Copy, Debug, PartialEq, Eq)]
pub struct Far {
    pub bytes: u64,
    pub fault: Option<PlayFault>,
}

/// How many bytes a move sent out.
fn size_of(sent: &Option<Emission>) -> u64
    ensures { result ≡ sizes_of sent.now }
{
    match sent {
        Some(emission) => emission.packet.bytes.len() as u64,
        None => 0,
    }
}

/// How far the moves go where the one of this number was not made.
fn far_at(number: u64, bytes: u64, error: MoveError) -> Result<Far, NoMemory>
    ensures { IfOk result (IsFarAt number bytes error) }
{
    match error {
        MoveError::Illegal(cause) => Ok(Far {
            bytes,
            fault: Some(PlayFault { number, cause }),
        }),
        MoveError::NoMemory => Err(NoMemory),
    }
}

/// Plays a list of moves by the plain machine as far as they can be made.
fn play_far<P: Program>(
    alloc: Global,
    program: &P,
    inputs: &InputLog,
    moves: &Schedule,
) -> Result<Far, NoMemory>
    ensures { IfOk result (IsFar (P.meaning program.now) (inputs_of inputs.now)
        inputs.now.threads moves.now) }
{
    let mut player = Player::fresh(alloc, program, inputs.threads())?;
    let mut bytes: u64 = 0;
    for index in 0..moves.len() {
        let plain = moves.at(index);
        let input = inputs.input(plain.thread, player.next_input(plain.thread));
        let sent = match player.step(alloc, program, plain, input) {
            Ok(sent) => sent,
            Err(error) => return far_at(index as u64 + 1, bytes, error),
        };
        bytes = bytes.saturating_add(size_of(&sent));
    }
    Ok(Far { bytes, fault: None })
}

/// Judges the moves and the rows of an image whose packets are fed and whose other counts may be.
pub fn judge<P: Program>(core: &Core<P>, image: &Image) -> Result<(), ResumeError>
    requires epochs { 1 ≤ image.now.epoch }
    ensures good { OnOk result ((s : Setting P.Value) (w : World P.Value)
        → StandsFor (P.meaning core.now.program) s w core.now → w.fed ≡ image.now.fed
        → CountsMayBe (length s.packets) image.now → PlaysWhole s image.now) }
    ensures faults { (error : ResumeErrorKind) → result ≡ Err error → (s : Setting P.Value) (w : World P.Value)
        → StandsFor (P.meaning core.now.program) s w core.now → w.fed ≡ image.now.fed
        → CountsMayBe (length s.packets) image.now → IsFault s image.now error }
{
    let far = play_far(core.alloc, &core.program, &core.inputs, &image.past)?;
    if far.bytes > image.bytes {
        return Err(ResumeError::Count(0));
    }
    if let Some(place) = wrong_row(core.inputs.threads(), image.epoch, &image.ended) {
        return Err(ResumeError::Count(place));
    }
    if let Some(fault) = far.fault {
        return Err(ResumeError::Move(fault));
    }
    Ok(())
}
