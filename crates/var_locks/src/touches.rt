//! The call by which a thread touches or reads the variable that it wants.
ghost use Rattle.std.specs.Prelude.{◌≡◌, ◌<◌, ◌^◌, true, false, Some, slice_set, vec_len};
ghost use Rattle.std.specs.Prelude.{vec_capacity, IfSome, IfNone};
ghost use Rattle.master_core.specs.Mastered.{moves_made};
ghost use Rattle.var_locks.specs.Rounds.{AreVarsOf};
ghost use Rattle.var_locks.specs.Seats.{IsSeatOf};
ghost use Rattle.var_locks.specs.TouchedParts.{Touches, seen_by, marked_by, wanted_move};
ghost use Rattle.var_locks.specs.Wanting.{next_by, on_variable, seat_wants};

use crate::keeping::mark_of_entry;
use crate::seats::VarSeat;
use crate::touching::{Access, Gate, Setting, Touched};
use crate::vars::Vars;
use crate::view::Round;
use access_log::What;
use box_program::Program;
use master_core::Wants;
use plain_machine::Local;
use replay_guide::Guide;
use std::alloc::Global;
use std::sync::Wait;

/// The variable was seen with this number of touches.
#[tactic(auto, using(crate::proofs::Wanting::set_past))]
fn see_at(seen: &mut Vec<u64>, var: u32, places: u64)
    ensures { seen.new.items ≡ slice_set seen.old.items var places }
{
    if (var as usize) < seen.len() {
        seen[var as usize] = places;
    }
}

/// What a seat saw by a touch or a read.
fn see(seen: &mut Vec<u64>, touched: &Touched)
    ensures { seen.new.items ≡ seen_by seen.old.items touched.now }
{
    let Touched::Did(entry) = touched else {
        return;
    };
    match entry.what {
        What::Access { var, place } => see_at(seen, var, place),
        What::Read { var, after } => see_at(seen, var, after),
        What::Clock(_) | What::Draw(_) => {}
    }
}

/// The mark that a touch or a read adds to those of its thread, for which there is room.
fn mark(marks: &mut Vec<Option<u64>>, touched: &Touched)
    requires room { vec_len marks.old < vec_capacity marks.old }
    ensures { marks.new.items ≡ marked_by marks.old.items touched.now }
{
    if let Touched::Did(entry) = touched {
        marks.push_reserved(Some(mark_of_entry(entry)));
    }
}

/// The touch or the read that this thread wants, which is at this place.
fn access_of(thread: u32, place: Local, wants: &Wants) -> Option<Access>
    ensures some { IfSome result (λ a. next_by wants.now ≡ Some (wanted_move a.var a.read)) }
    ensures access { IfSome result (λ a.
        a ≡ record { thread = thread; var = a.var; read = a.read; place = place }) }
    ensures neither { IfNone result (on_variable wants.now ≡ false) }
{
    let (var, read) = match *wants {
        Wants::Touch { var, .. } => (var, false),
        Wants::Read { var, .. } => (var, true),
        Wants::Take(_) | Wants::Clock(_) | Wants::Draw(_) | Wants::Emit | Wants::End => return None,
    };
    Some(Access {
        thread,
        var,
        read,
        place,
    })
}

impl<P: Program, J: Round> Vars<P, J> {
    /// Makes the touch or the read that the seat's thread wants, as `VarSeat::wants` says. It waits while another seat
    /// has the variable, or the guide says to wait.
    ///
    /// `Did` has the entry: of a touch its place is above all that this seat had seen of the variable, of a read no
    /// lower. `Blocked` names the entry for which the guide says to wait at what was found of the variable, and comes
    /// only where its thread had ended the round without it. After `Blocked` and `NoMemory` the seat made no move and
    /// has no variable.
    #[tactic(auto, using(crate::proofs::Wanting::placed, crate::proofs::Wanting::next_is, crate::proofs::Wanting::low))]
    pub fn touch<R: Wait, G: Gate>(
        &self,
        rt: &R,
        alloc: Global,
        program: &P,
        seat: &mut VarSeat<P>,
        wants: &Wants,
        guide: &Guide,
        gate: &G,
    ) -> Touched
        requires of { AreVarsOf P.meaning P.row.coded P.Value.row.coded program.now self.now }
        requires guide { guide.now ≡ J.guide }
        requires seat { IsSeatOf self.now seat.old }
        requires going { seat.old.ended ≡ false }
        requires room { moves_made seat.old.part < 2 ^ 56 }
        requires wanted { wants.now ≡ seat_wants (P.meaning program.now) seat.old }
        requires on { on_variable wants.now ≡ true }
        ensures touches { Touches (P.meaning program.now) J.guide seat.old seat.new result }
    {
        let Ok(()) = seat.marks.reserve(1) else {
            return Touched::NoMemory;
        };
        let place = seat.part.hand.unwrap();
        let Some(access) = access_of(seat.thread, place, wants) else {
            unreachable!()
        };
        let setting = Setting {
            alloc,
            program,
            guide,
            gate,
        };
        let touched = self.touch_on(rt, &setting, &mut seat.token, &mut seat.part, access);
        mark(&mut seat.marks, &touched);
        see(&mut seat.seen, &touched);
        touched
    }
}
