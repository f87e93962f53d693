ghost use Rattle.std.specs.Prelude.{◌≡◌, ◌<◌, ◌≤◌, false, ◌+◌, ◌^◌, ℕ, List, [], length};
ghost use Rattle.std.specs.Prelude.{slice_index_or, Some, IfOk, IfSome, OnOk, OnErr, IsSome};
ghost use Rattle.std.specs.Prelude.{IsTrue, option_copied};
ghost use Rattle.plain_text.specs.declared.packet.Packet as packet_of;
ghost use Rattle.plain_machine.specs.History.{Step};
ghost use Rattle.plain_player.specs.Hands.{HasValues, TakesInput, seat_after};
ghost use Rattle.plain_machine.specs.Machine.{take_move};
ghost use Rattle.box_program.specs.Hands.{FitsProgram, IsInputAfter, has_hand, moves_left};
ghost use Rattle.plain_player.specs.Playing.{Stands, Follows, place_in_hand, next_input};
ghost use Rattle.plain_player.specs.Playing.{input_of_seat as input_for_seat};

use crate::hand::{HandMove, MoveError, play_hand};
use crate::seat::Seat;
use box_program::Program;
use plain_machine::{Emission, Local, PlainMove, PlayCause};
use plain_text::{NoMemory, Packet};
use std::alloc::Global;
use std::marker::Model;

/// A plain machine in memory: the values of the shared variables, and where each thread is.
///
/// Contracts see which histories of the definition it stands for.
#[derive(Drop)]
pub struct Player<V> {
    values: Vec<V>,
    seats: Vec<Seat>,
    made: u64,
}

impl<V> Model for Player<V> {
    ghost use Rattle.plain_player.specs.Playing.{Playing, SeatsWithin};

    ghost Value = { Playing V };

    ghost view = { λ p. record { values = p.values.items; seats = p.seats.items; made = p.made } };

    ghost invariant = { λ p. SeatsWithin p.seats.items p.made };
}

impl<V: Drop> Player<V> {
    /// A machine with fresh values, where no thread has taken anything.
    pub fn fresh<P: Program<Value = V>>(
        alloc: Global,
        program: &P,
        threads: u32,
    ) -> Result<Self, NoMemory>
        ensures stands { IfOk result (λ player. Stands (P.meaning program.now) threads [] player) }
        ensures fits { IfOk result (λ player. FitsProgram (P.meaning program.now)
            (P.fits program.now) (λ value. value) player.values) }
    {
        let values = fresh_values(alloc, program)?;
        let seat = Seat {
            taken: 0,
            outputs: 0,
            hand: None,
        };
        let seats = vec![in alloc; seat; threads as usize]?;
        Ok(Player {
            values,
            seats,
            made: 0,
        })
    }

    /// Whether the thread has a packet in hand.
    pub fn in_hand(&self, thread: u32) -> bool
        ensures { result ≡ has_hand (place_in_hand self.now thread) }
    {
        match self.seats.get(thread as usize) {
            Some(seat) => seat.hand.is_some(),
            None => false,
        }
    }

    /// Where the thread is with its packet in hand. None where it has none, or is not there.
    pub fn place(&self, thread: u32) -> Option<Local>
        ensures { result ≡ place_in_hand self.now thread }
    {
        match self.seats.get(thread as usize) {
            Some(seat) => seat.hand,
            None => None,
        }
    }

    /// The number, from 1, of the input that the thread's next move is made with: the one in hand, or else its next.
    /// For a thread that is not there it is 0.
    pub fn next_input(&self, thread: u32) -> u64
        requires { self.now.made + 1 < 2 ^ 64 }
        ensures { result ≡ next_input self.now thread }
    {
        match self.seats.get(thread as usize) {
            Some(seat) => input_of_seat(seat.taken, seat.hand),
            None => 0,
        }
    }

    /// Makes one move: with the packet in hand, or else with the thread's next input, if there is one.
    ///
    /// It gives the packet that the move sends out. What the plain machine may not make is `Illegal`, with its cause.
    /// After an error nothing is changed.
    pub fn step<P: Program<Value = V>>(
        &mut self,
        alloc: Global,
        program: &P,
        plain: PlainMove,
        input: Option<&Packet>,
    ) -> Result<Option<Emission>, MoveError>
        requires program { FitsProgram (P.meaning program.now) (P.fits program.now)
            (λ value. value) self.old.values }
        requires room { self.old.made + 1 < 2 ^ 64 }
        requires input { IsTrue (has_hand (place_in_hand self.old plain.thread)) → IsSome input }

        // The move is that of the definition, or none that may be made.
        ensures follows { (inputs : ℕ → List packet_of.Packet) (threads : ℕ)
            (steps : List (Step V)) → Stands (P.meaning program.now) threads steps self.old
            → IsInputAfter inputs plain.thread steps (option_copied input.entry)
            → Follows (P.meaning program.now) inputs threads steps plain result self.new }
        ensures as_long { IfOk result (λ sent. IfSome sent (λ emission. (packet : packet_of.Packet)
            → option_copied input.entry ≡ Some packet
            → length emission.packet.bytes ≡ length packet.bytes)) }

        // What the thread has left to do with a packet.
        ensures begins { has_hand (place_in_hand self.old plain.thread) ≡ false → OnOk result
            (moves_left (P.meaning program.now) (place_in_hand self.new plain.thread) ≤ 63) }
        ensures falls { IsTrue (has_hand (place_in_hand self.old plain.thread)) → OnOk result
            (moves_left (P.meaning program.now) (place_in_hand self.new plain.thread)
            < moves_left (P.meaning program.now) (place_in_hand self.old plain.thread)) }

        // What is kept.
        ensures fits { FitsProgram (P.meaning program.now) (P.fits program.now)
            (λ value. value) self.new.values }
        ensures made { OnOk result (self.new.made ≡ self.old.made + 1) }
        ensures err { OnErr result (self.new ≡ self.old) }
    {
        let at = plain.thread as usize;
        if at >= self.seats.len() {
            return Err(MoveError::Illegal(PlayCause::NoSuchThread));
        }
        let seat = self.seats[at];
        match seat.hand {
            None => {
                let after = take_input(program, seat, plain.answer, input)?;
                self.seats[at] = after;
                self.made += 1;
                Ok(None)
            }
            Some(local) => {
                let packet = input.unwrap();
                let made = play_hand(
                    alloc,
                    program,
                    &mut self.values,
                    packet,
                    local,
                    plain.answer,
                )?;
                let (after, sent) = sit_after(plain.thread, seat, packet, made);
                self.seats[at] = after;
                self.made += 1;
                Ok(sent)
            }
        }
    }
}

/// The number of the input that the next move is made with, where this number is taken and this is in hand.
fn input_of_seat(taken: u64, hand: Option<Local>) -> u64
    requires { taken + 1 < 2 ^ 64 }
    ensures { result ≡ input_for_seat taken hand }
{
    match hand {
        Some(_) => taken,
        None => taken + 1,
    }
}

/// The fresh values of a program's variables.
fn fresh_values<P: Program>(alloc: Global, program: &P) -> Result<Vec<P::Value>, NoMemory>
    ensures count { IfOk result (λ values. length values.items ≡ (P.meaning program.now).vars) }
    ensures fresh { IfOk result (λ values. HasValues (P.meaning program.now).vars values.items
        (P.meaning program.now).fresh) }
{
    let mut values = Vec::new(alloc);
    for var in 0..program.vars() {
        values.push(program.fresh(alloc, var)?)?;
    }
    Ok(values)
}

/// The seat of a thread without a packet in hand after it took its next input.
fn take_input<P: Program>(
    program: &P,
    seat: Seat,
    answer: Option<u64>,
    input: Option<&Packet>,
) -> Result<Seat, MoveError>
    requires { seat.taken + 1 < 2 ^ 64 }
    ensures { TakesInput (take_move (P.meaning program.now) seat.taken answer
        (option_copied input.entry)) seat result }
{
    if answer.is_some() {
        return Err(MoveError::Illegal(PlayCause::UnwantedAnswer));
    }
    let Some(packet) = input else {
        return Err(MoveError::Illegal(PlayCause::NothingToTake));
    };
    Ok(Seat {
        taken: seat.taken + 1,
        hand: Some(program.begin(packet.bytes.as_slice(), packet.original)),
        ..seat
    })
}

/// The seat of a thread after a move with the packet in hand, and the packet that it sent out.
fn sit_after(thread: u32, seat: Seat, packet: &Packet, made: HandMove) -> (Seat, Option<Emission>)
    requires { seat.outputs + 1 < 2 ^ 64 }
    ensures { result ≡ seat_after thread seat packet.now made }
{
    let after = Seat {
        hand: made.place,
        ..seat
    };
    let Some(bytes) = made.sent else {
        return (after, None);
    };
    let number = seat.outputs + 1;
    let packet = Packet {
        seconds: packet.seconds,
        fraction: packet.fraction,
        original: packet.original,
        bytes,
    };
    let sent = Emission {
        thread,
        number,
        input: seat.taken,
        packet,
    };
    (
        Seat {
            outputs: number,
            ..after
        },
        Some(sent),
    )
}
