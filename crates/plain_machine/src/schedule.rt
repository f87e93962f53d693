//! A schedule in 8 bytes a move. Few moves are told something, so what they are told stands apart.
ghost use Rattle.std.specs.Prelude.{◌≡◌, ◌<◌, ◌++◌, ◌∷◌, [], IfOk, OnOk, OnErr, length, slice_index_or};
ghost use Rattle.std.specs.Prelude.{take};
ghost use Rattle.plain_machine.specs.declared.plain_move.PlainMove.{PlainMove};
ghost use Rattle.plain_machine.specs.Packed.{IsPut, answer_at, answers_before};

use crate::PlainMove;
use plain_text::{NoMemory, Sequence};
use std::alloc::Global;
use std::marker::Model;
use std::mem::size_of;

const _: () = prove!(size_of::<PackedMove>() == 8);

/// A move of a thread, and where among the answers that stands which it is told: a place from 1, or 0 where it is told
/// nothing.
#[derive(Clone, Copy, Debug)]
pub(crate) struct PackedMove {
    thread: u32,
    place: u32,
}

/// The moves of a run, in order. Contracts see them as their list.
#[derive(Debug, Drop)]
pub struct Schedule {
    packed: Sequence<PackedMove>,
    answers: Sequence<u64>,
}

impl Model for Schedule {
    ghost use Rattle.std.specs.Prelude.{List, length};
    ghost use Rattle.plain_machine.specs.declared.plain_move.PlainMove.{PlainMove};

    ghost Value = { List PlainMove };

    ghost use Rattle.plain_machine.specs.Packed.{moves_of, Rise};

    ghost view = { λ s. moves_of s.answers s.packed };

    ghost invariant = { λ s. Rise 0 s.packed (length s.answers) };
}

/// The answer at a place, if one stands there.
fn answer_at(answers: &[u64], place: u32) -> Option<u64>
    ensures { result ≡ answer_at answers.now place }
{
    if place == 0 {
        return None;
    }
    answers.get((place - 1) as usize).copied()
}

/// Appends what a move is told, if it is told something: the place of it. Places that do not fit are taken for want of
/// memory.
fn put_answer(answers: &mut Sequence<u64>, answer: Option<u64>) -> Result<u32, NoMemory>
    ensures ok { IfOk result (λ place. IsPut answers.old answer place answers.new) }
    ensures err { OnErr result (answers.new ≡ answers.old) }
{
    let Some(answer) = answer else {
        return Ok(0);
    };
    let count = answers.len();
    if count >= u32::MAX as usize {
        return Err(NoMemory);
    }
    answers.push(answer)?;
    Ok(count as u32 + 1)
}

/// How many answers stand before those of these moves, of so many where none of these is told something.
fn answers_before(moves: &[PackedMove], most: usize) -> usize
    ensures { result ≡ answers_before most moves.now }
{
    for packed in moves {
        if packed.place != 0 {
            return (packed.place - 1) as usize;
        }
    }
    most
}

impl Schedule {
    /// No moves. It takes no memory.
    pub fn new(alloc: Global) -> Self
        ensures { result ≡ [] }
    {
        Schedule {
            packed: Sequence::new(alloc),
            answers: Sequence::new(alloc),
        }
    }

    /// How many moves there are.
    pub fn len(&self) -> usize
        ensures { result ≡ length self.now }
    {
        self.packed.len()
    }

    /// The move at a place, from 0.
    pub fn at(&self, index: usize) -> PlainMove
        requires { index < length self.now }
        ensures { (other : PlainMove) → result ≡ slice_index_or self.now index other }
    {
        let packed = self.packed.as_slice()[index];
        PlainMove {
            thread: packed.thread,
            answer: answer_at(self.answers.as_slice(), packed.place),
        }
    }

    /// Appends one move, in time that does not grow with the list, taken over many calls.
    pub fn push(&mut self, plain: PlainMove) -> Result<(), NoMemory>
        ensures ok { OnOk result (self.new ≡ self.old ++ plain ∷ []) }
        ensures err { OnErr result (self.new ≡ self.old) }
    {
        let place = put_answer(&mut self.answers, plain.answer)?;
        self.packed.push(PackedMove {
            thread: plain.thread,
            place,
        })?;
        Ok(())
    }

    /// Keeps the first moves, at most this number. It takes no memory, and time that grows with the others.
    pub fn truncate(&mut self, count: usize)
        ensures { self.new ≡ take count self.old }
    {
        let kept = count.min(self.packed.len());
        let answers = answers_before(&self.packed.as_slice()[kept..], self.answers.len());
        self.answers.truncate(answers);
        self.packed.truncate(kept);
    }
}
