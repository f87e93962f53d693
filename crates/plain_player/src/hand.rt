ghost use Rattle.std.specs.Prelude.{◌≡◌, ◌<◌, ℕ, Ok, None, length, OnErr, IfOk, IfSome};
ghost use Rattle.plain_text.specs.declared.packet.Packet as packet_of;
ghost use Rattle.plain_machine.specs.Machine.{hand_move};
ghost use Rattle.box_program.specs.Hands.{FitsProgram};
ghost use Rattle.plain_player.specs.Hands.{HasValues, PlaysHand};

use box_program::Program;
use plain_machine::{Local, Move, PlayCause};
use plain_text::{Bytes, NoMemory, Packet};
use std::alloc::Global;

/// Why a player did not make a move.
#[derive(Clone, Copy, Debug, PartialEq, Eq)]
pub enum MoveError {
    /// The plain machine may not make it.
    Illegal(PlayCause),
    NoMemory,
}

impl From<NoMemory> for MoveError {
    ghost use Rattle.std.specs.Prelude.{◌≡◌};
    ghost use Rattle.plain_player.specs.declared.hand.MoveError.TheVariants as error;

    ghost from_gives = { λ _ e. e ≡ error.NoMemory };

    fn from(_: NoMemory) -> Self {
        MoveError::NoMemory
    }
}

/// A move that was made with the packet in hand.
#[derive(Debug, Drop)]
pub struct HandMove {
    /// Where the program is with the packet after it, unless it is done with it.
    pub place: Option<Local>,
    /// The bytes that it sent out.
    pub sent: Option<Bytes>,
}

/// A move that sends nothing out, and leaves the program at this place.
fn goes_on(place: Option<Local>) -> Result<HandMove, MoveError>
    ensures { result ≡ Ok (record { place = place; sent = None }) }
{
    Ok(HandMove { place, sent: None })
}

/// Makes the program's next move with the packet in hand.
pub fn play_hand<P: Program>(
    alloc: Global,
    program: &P,
    values: &mut Vec<P::Value>,
    packet: &Packet,
    mut local: Local,
    answer: Option<u64>,
) -> Result<HandMove, MoveError>
    requires { FitsProgram (P.meaning program.now) (P.fits program.now)
        (λ value. value) values.old.items }
    ensures plays { (value : ℕ → P.Value) (taken : ℕ)
        → HasValues (P.meaning program.now).vars values.old.items value
        → PlaysHand (hand_move (P.meaning program.now) value taken
        (record { packet = packet.now; place = local }) answer ((P.meaning program.now).next local))
        taken packet.now result values.old.items values.new.items }
    ensures fits { FitsProgram (P.meaning program.now) (P.fits program.now)
        (λ value. value) values.new.items }
    ensures falls { IfOk result (λ made. IfSome made.place
        (λ place. (P.meaning program.now).rank place < (P.meaning program.now).rank local)) }
    ensures as_long { IfOk result (λ made. IfSome made.sent
        (λ bytes. length bytes ≡ length packet.now.bytes)) }
    ensures err { OnErr result (values.new.items ≡ values.old.items) }
{
    match (program.next(&local), answer) {
        (Move::Access(var), None) => {
            program.touch(alloc, var, &mut values[var as usize], &mut local)?;
            goes_on(Some(local))
        }
        (Move::Read(var), None) => {
            program.look(var, &values[var as usize], &mut local);
            goes_on(Some(local))
        }
        (Move::Clock | Move::Draw, Some(told)) => {
            program.told(told, &mut local);
            goes_on(Some(local))
        }
        (Move::Emit, None) => {
            let frame = packet.bytes.as_slice();
            let sent = program.packet_out(alloc, frame, packet.original, &local)?;
            program.emitted(&mut local);
            Ok(HandMove {
                place: Some(local),
                sent: Some(sent),
            })
        }
        (Move::End, None) => goes_on(None),
        (Move::Clock | Move::Draw, None) => Err(MoveError::Illegal(PlayCause::MissingAnswer)),
        (_, Some(_)) => Err(MoveError::Illegal(PlayCause::UnwantedAnswer)),
    }
}
