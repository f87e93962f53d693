//! The calls by which a thread makes its moves on no variable, and ends the round.
ghost use Rattle.std.specs.Prelude.{◌≡◌, ◌<◌, ◌^◌, false, true, IsTrue, IsSome, option_copied};
ghost use Rattle.box_program.specs.Hands.{has_hand};
ghost use Rattle.master_core.specs.Mastered.{moves_made};
ghost use Rattle.var_locks.specs.Rounds.{AreVarsOf};
ghost use Rattle.var_locks.specs.Seats.{IsSeatOf};
ghost use Rattle.var_locks.specs.Plain.{Steps};
ghost use Rattle.var_locks.specs.Wanting.{on_variable, seat_wants};

use crate::lines::thread_word;
use crate::seats::VarSeat;
use crate::steps::end_round;
use crate::vars::Vars;
use crate::view::Round;
use box_program::Program;
use master_core::{Stepped, Wants};
use plain_text::Packet;
use replay_guide::Guide;
use std::alloc::Global;

impl<P: Program, J: Round> Vars<P, J> {
    /// Makes the next move of the seat's thread, which is on no variable, as `VarSeat::wants` says, and notes it by one
    /// load of the thread's word.
    ///
    /// `input` is the packet in hand, else the next input of the thread, else `None`. A clock or a draw that is
    /// followed is told the recorded answer, and every other one `answer`. `Idle` comes exactly where the thread wants
    /// an input and gets none, and `NotTurn` never; after `Idle` and `NoMemory` the seat is unchanged.
    pub fn plain(
        &self,
        alloc: Global,
        program: &P,
        seat: &mut VarSeat<P>,
        wants: &Wants,
        guide: &Guide,
        answer: u64,
        input: Option<&Packet>,
    ) -> Stepped
        requires of { AreVarsOf P.meaning P.row.coded P.Value.row.coded program.now self.now }
        requires guide { guide.now ≡ J.guide }
        requires seat { IsSeatOf self.now seat.old }
        requires going { seat.old.ended ≡ false }
        requires room { moves_made seat.old.part < 2 ^ 56 }
        requires wanted { wants.now ≡ seat_wants (P.meaning program.now) seat.old }
        requires own { on_variable wants.now ≡ false }
        requires input { IsTrue (has_hand seat.old.part.hand) → IsSome input }
        ensures steps { Steps (P.meaning program.now) J.guide seat.old answer
            (option_copied input.entry) seat.new result }
    {
        self.make_own(alloc, program, seat, wants, guide, answer, input)
    }

    /// Ends the round for the seat's thread: it makes no further move in it.
    pub fn end(&self, program: &P, seat: &mut VarSeat<P>)
        requires of { AreVarsOf P.meaning P.row.coded P.Value.row.coded program.now self.now }
        requires seat { IsSeatOf self.now seat.old }
        requires going { seat.old.ended ≡ false }
        ensures ended { seat.new ≡ record seat.old { ended = true } }
    {
        let word = thread_word(self.vars, seat.thread);
        end_round::<P, J>(program, &self.table.shared, &mut seat.token, word);
        seat.ended = true;
    }
}
