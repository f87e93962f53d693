//! The seats of a round: each is of one thread, with its part of the master and the marks of what it did in the round.
ghost use Rattle.std.specs.Prelude.{◌≡◌, [], ◌∷◌};
ghost use Rattle.var_locks.specs.Openings.{rest_view, fresh_seat};
ghost use Rattle.var_locks.specs.Seats.{IsCounted, IsKept, first_notes};

use crate::steps::Token;
use box_program::Program;
use master_core::ThreadPart;
use std::alloc::Global;
use std::marker::Model;

/// The seat of one thread of a round.
#[derive(Drop)]
pub struct VarSeat<P: Program> {
    pub(crate) token: Token<P::Value>,
    pub(crate) thread: u32,
    pub(crate) part: ThreadPart,
    /// For each variable, the greatest number of its touches that the seat saw.
    pub(crate) seen: Vec<u64>,
    /// The marks of what the thread did in the round, oldest first.
    pub(crate) marks: Vec<Option<u64>>,
    pub(crate) ended: bool,
}

impl<P: Program> Model for VarSeat<P> {
    ghost use Rattle.var_locks.specs.Seats.{Seated, IsKept, first_notes};

    ghost Value = { Seated P.Value };

    ghost view = { λ s. record {
      thread = s.thread;
      part = s.part;
      notes = first_notes s.token.me.0.shares;
      seen = s.seen.items;
      missing = s.token.me.0.missing;
      ended = s.ended;
      round = s.token.table_id;
    } };

    ghost invariant = { λ s.
        IsKept s.token.me s.thread s.part s.seen.items s.marks.items s.ended };
}

impl<P: Program> VarSeat<P> {
    /// The number of its thread.
    pub fn thread(&self) -> u32
        ensures { result ≡ self.now.thread }
    {
        self.thread
    }

    /// The seat of a thread that did nothing in the round.
    pub(crate) fn fresh(
        alloc: Global,
        token: Token<P::Value>,
        thread: u32,
        part: ThreadPart,
        seen: Vec<u64>,
    ) -> Self
        requires view { token.me.0 ≡ rest_view thread (part ∷ []) seen.items }
        requires slots { token.me.1 ≡ [] }
        requires counted { IsCounted part }
        ensures { result ≡ fresh_seat token.table_id seen.items thread part }
    {
        VarSeat {
            token,
            thread,
            part,
            seen,
            marks: Vec::new(alloc),
            ended: false,
        }
    }

    /// Its token, its part and the marks of what its thread did.
    pub(crate) fn take_apart(self) -> (Token<P::Value>, ThreadPart, Vec<Option<u64>>)
        ensures kept { IsKept result.0.me self.thread self.part self.seen
            result.2.items self.ended }
        ensures told { (first_notes result.0.me.0.shares ≡ self.notes)
            × (result.0.me.0.missing ≡ self.missing) }
        ensures round { result.0.table_id ≡ self.round }
        ensures part { result.1 ≡ self.part }
    {
        let VarSeat {
            token,
            thread: _,
            part,
            seen,
            marks,
            ended: _,
        } = self;
        drop(seen);
        (token, part, marks)
    }

    /// Whether its thread ended the round.
    pub fn has_ended(&self) -> bool
        ensures { result ≡ self.now.ended }
    {
        self.ended
    }
}
