//! What is seen of a seat between its moves.
ghost use Rattle.std.specs.Prelude.{◌≡◌, slice_index};
ghost use Rattle.var_locks.specs.Wanting.{on_variable, seat_wants};

use crate::seats::VarSeat;
use box_program::Program;
use master_core::{Counts, Wants};
use plain_machine::Move;

impl<P: Program> VarSeat<P> {
    /// How much its thread did, before the round and in it.
    pub fn counts(&self) -> Counts
        ensures { result ≡ self.now.part.counts }
    {
        self.part.counts
    }

    /// What its thread does next: the program is asked once, and `Vars::touch` and `Vars::plain` take the answer. Of a
    /// touch or a read, `places` is how often the seat saw the variable touched: since then others may have touched it.
    pub fn wants(&self, program: &P) -> Wants
        ensures { result ≡ seat_wants (P.meaning program.now) self.now }
    {
        let Some(place) = self.part.hand else {
            return Wants::Take(self.part.counts.taken + 1);
        };
        let number = self.part.counts.entries + 1;
        match program.next(&place) {
            Move::Access(var) => Wants::Touch {
                number,
                var,
                places: seen_of(&self.seen, var),
            },
            Move::Read(var) => Wants::Read {
                number,
                var,
                places: seen_of(&self.seen, var),
            },
            Move::Clock => Wants::Clock(number),
            Move::Draw => Wants::Draw(number),
            Move::Emit => Wants::Emit,
            Move::End => Wants::End,
        }
    }
}

/// How often the variable was seen touched, 0 where it is none.
fn seen_of(seen: &[u64], var: u32) -> u64
    ensures { result ≡ slice_index seen.now var }
{
    match seen.get(var as usize) {
        Some(places) => *places,
        None => 0,
    }
}

/// Whether what a thread wants is a touch or a read: `Vars::touch` makes these, and `Vars::plain` every other move.
pub fn is_on_variable(wants: &Wants) -> bool
    ensures { result ≡ on_variable wants.now }
{
    matches!(*wants, Wants::Touch { .. } | Wants::Read { .. })
}
