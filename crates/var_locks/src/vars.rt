//! The variables of a round, which begin with a master and end as one.
ghost use Rattle.std.specs.Prelude.{◌≡◌, ◌<◌, ◌≤◌, [], length, map, None, IfOk, vec_capacity};
ghost use Rattle.std.specs.Mem.Slots.{slots_items, slots_len, IsFull};
ghost use Rattle.master_core.specs.Mastered.{Mastered};
ghost use Rattle.var_locks.specs.Codes.{master_code};
ghost use Rattle.var_locks.specs.Rounds.{IsRoundOf, AreVarsOf};
ghost use Rattle.var_locks.specs.Closing.{AreSeats, HasSeats, IsClosed, seat_part, seat_marks};

use crate::seats::VarSeat;
use crate::spaced::Slot;
use crate::steps::{Lock, LockTable, Token, join_in};
use crate::view::Round;
use atomic_table::Closed as ClosedTable;
use box_program::Program;
use master_core::{Master, MasterParts, ThreadPart, VarPart};
use plain_text::{NoMemory, Sequence};
use round_order::Marks;
use std::alloc::Global;
use std::marker::Model;

/// The variables of a round, for its seats.
#[derive(Drop)]
pub struct Vars<P: Program, J: Round> {
    pub(crate) table: LockTable<P, J>,
    pub(crate) vars: usize,
    pub(crate) threads: usize,
}

impl<P: Program, J: Round> Model for Vars<P, J> {
    ghost use Rattle.var_locks.specs.Rounds.{Opened};

    ghost Value = { Opened };

    ghost view = { λ s. record {
      program = J.program;
      opening = J.opening;
      parts = J.threads;
      round = s.table.shared.table_id;
      vars = s.vars;
      threads = s.threads;
    } };
}

/// What a round came to: the master after it, and the marks of what each thread did.
#[derive(Drop)]
pub struct Closed<P: Program> {
    /// The master after all moves of the round.
    pub master: Master<P>,
    /// The marks of what each thread did, by its number: by them the round is woven.
    pub marks: Vec<Marks>,
}

/// All seats as one: their token, and by their numbers their parts and the marks of what each did.
struct Gathered<P: Program> {
    token: Token<P::Value>,
    parts: Vec<ThreadPart>,
    marks: Vec<Marks>,
}

/// Takes all seats of a round together.
fn gather<P: Program, J: Round>(
    alloc: Global,
    program: &P,
    shared: &Lock<P, J>,
    mut seats: Vec<VarSeat<P>>,
) -> Result<Gathered<P>, NoMemory>
    requires of { IsRoundOf P.meaning P.row.coded P.Value.row.coded
        J.program J.opening J.threads program.now shared.now.table_id.words }
    requires words { 0 < shared.now.table_id.words }
    requires some { 0 < length seats.items }
    requires seats { AreSeats shared.now.table_id 0 seats.items }
    ensures token { IfOk result (λ all. (all.token.table_id ≡ shared.now.table_id)
        × (all.token.me.0.hand ≡ None) × HasSeats all.token.me.0 seats.items) }
    ensures parts { IfOk result (λ all. all.parts.items ≡ map seat_part seats.items) }
    ensures marks { IfOk result (λ all. all.marks.items ≡ map seat_marks seats.items) }
{
    let count = seats.len();
    let mut parts = Vec::with_capacity(alloc, count)?;
    let mut marks = Vec::with_capacity(alloc, count)?;
    let (mut token, part, own) = seats.pop().unwrap().take_apart();
    parts.push(part)?;
    marks.push(Sequence::from_vec(own))?;
    while let Some(seat) = seats.pop() {
        let (other, part, own) = seat.take_apart();
        join_in::<P, J>(program, shared, &mut token, other);
        parts.push(part)?;
        marks.push(Sequence::from_vec(own))?;
    }
    parts.reverse();
    marks.reverse();
    Ok(Gathered {
        token,
        parts,
        marks,
    })
}

/// The values of the slots of a closed table, put into this list, which has room for them.
fn take_out<V: Drop>(
    mut closed: ClosedTable<Slot<V>, Global>,
    mut parts: Vec<VarPart<V>>,
) -> Vec<VarPart<V>>
    requires full { IsFull closed.slots }
    requires room { (parts.items ≡ []) × (slots_len closed.slots ≤ vec_capacity parts) }
    ensures { result.items ≡ slots_items closed.slots }
{
    for slot in 0..closed.slot_count() {
        parts.push_reserved(closed.take(slot).into_part());
    }
    closed.free();
    parts
}

impl<P: Program, J: Round> Vars<P, J> {
    /// The end of the round: the master after it, and the marks of what each thread did. After `NoMemory` the round is
    /// gone.
    ///
    /// However the threads ran, what they did weaves into a legal continuation of each list of moves that the opening
    /// master stands for, with inputs that have the packets that were passed; and the master stands for it.
    pub fn close(
        self,
        alloc: Global,
        program: &P,
        seats: Vec<VarSeat<P>>,
    ) -> Result<Closed<P>, NoMemory>
        requires of { AreVarsOf P.meaning P.row.coded P.Value.row.coded program.now self }
        requires count { length seats.items ≡ self.threads }
        requires seats { AreSeats self.round 0 seats.items }
        ensures closed { (p : Mastered P.Value)
            → (master_code P.Value.row.coded).code p ≡ J.opening → p.threads ≡ J.threads
            → IfOk result (λ closed. IsClosed (P.meaning program.now) (P.fits program.now)
            J.guide p seats.items closed.master) }
        ensures marks { IfOk result (λ closed. closed.marks.items ≡ map seat_marks seats.items) }
    {
        let vars = Vec::with_capacity(alloc, self.vars)?;
        let all = gather::<P, J>(alloc, program, &self.table.shared, seats)?;
        let Gathered {
            token,
            parts,
            marks,
        } = all;
        let closed = self.table.close_with(token);
        let vars = take_out(closed, vars);
        let threads = parts;
        let master = Master::of_parts(MasterParts { vars, threads });
        Ok(Closed { master, marks })
    }
}
