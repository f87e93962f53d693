//! A seat's own moves: those on no variable.
ghost use Rattle.std.specs.Prelude.{◌≡◌, ℕ, ◌+◌, ◌%◌, ◌^◌, false, OnOk, OnErr, IsTrue, IsSome};
ghost use Rattle.std.specs.Prelude.{option_copied};
ghost use Rattle.std.specs.Prelude.{Some, None};
ghost use Rattle.box_program.specs.Hands.{has_hand};
ghost use Rattle.plain_machine.specs.declared.local.Move.TheVariants as move_is;
ghost use Rattle.replay_guide.specs.Orders.{weight_of};
ghost use Rattle.var_locks.specs.Notes.{IsOwn, IsGuided, IsRecorded, own_note, mark_in};
ghost use Rattle.var_locks.specs.Rounds.{AreVarsOf};
ghost use Rattle.var_locks.specs.Seats.{MayMove, HasMade};
ghost use Rattle.var_locks.specs.Plain.{Steps, IsAsked, IsFree};
ghost use Rattle.var_locks.specs.Wanting.{on_variable, seat_wants};

use crate::lines::thread_word;
use crate::seats::VarSeat;
use crate::steps::{Made, note_move};
use crate::vars::Vars;
use crate::view::Round;
use access_log::{StampedEntry, What};
use box_program::Program;
use master_core::{Stepped, ThreadPart, Trace, Wants, moves};
use plain_machine::Local;
use plain_text::{NoMemory, Packet};
use replay_guide::Guide;
use std::alloc::Global;

/// The mark of an entry: its weight, modulo 2^64, which it is below.
pub(crate) fn mark_of_entry(entry: &StampedEntry) -> u64
    ensures { result ≡ weight_of entry.now % 2 ^ 64 }
{
    entry.stamp.weight()
}

/// The mark of a move, by what it left.
fn mark_of(trace: &Trace) -> Option<u64>
    ensures { result ≡ mark_in trace.now }
{
    match trace {
        Trace::Did(entry) => Some(mark_of_entry(entry)),
        Trace::Took(_) | Trace::Emitted(_) | Trace::Ended(_) => None,
    }
}

/// A copy of the entry.
pub(crate) fn copied(entry: &StampedEntry) -> StampedEntry
    ensures { result ≡ entry.now }
{
    StampedEntry {
        thread: entry.thread,
        number: entry.number,
        what: entry.what,
        stamp: entry.stamp,
    }
}

/// What a clock or a draw is told: what is recorded of it, else this answer.
fn told_to(guide: &Guide, thread: u32, number: u64, answer: u64) -> u64
    ensures followed { IsRecorded guide.now thread number result }
    ensures free { IsFree guide.now thread number result answer }
{
    match guide.answer(thread, number) {
        Some(told) => told,
        None => answer,
    }
}

impl<P: Program, J: Round> Vars<P, J> {
    /// Notes the seat's next move, on no variable, which leaves its thread this part.
    fn keep(
        &self,
        program: &P,
        seat: &mut VarSeat<P>,
        after: ThreadPart,
        trace: Trace,
        input: Option<&Packet>,
    ) -> Result<(), NoMemory>
        requires of { AreVarsOf P.meaning P.row.coded P.Value.row.coded program.now self.now }
        requires seat { MayMove self.now seat.old }
        requires own { IsOwn (P.meaning program.now) seat.old.thread
            (own_note seat.old.part after trace (option_copied input)) }
        requires guided { IsGuided {V = P.Value} J.guide seat.old.thread
            (own_note seat.old.part after trace (option_copied input)) }
        ensures made { OnOk result (HasMade (P.meaning program.now) J.guide seat.old trace
            (option_copied input.entry) seat.new) }
        ensures left { OnErr result (seat.new ≡ seat.old) }
    {
        seat.marks.reserve(1)?;
        let word = thread_word(self.vars, seat.thread);
        let made = Made {
            before: &seat.part,
            after: &after,
            trace: &trace,
        };
        note_move::<P, J>(
            program,
            &self.table.shared,
            &mut seat.token,
            word,
            made,
            input,
        );
        seat.marks.push_reserved(mark_of(&trace));
        seat.part = after;
        Ok(())
    }

    /// Takes the packet that was passed.
    fn take(&self, program: &P, seat: &mut VarSeat<P>, packet: &Packet) -> Stepped
        requires of { AreVarsOf P.meaning P.row.coded P.Value.row.coded program.now self.now }
        requires seat { MayMove self.now seat.old }
        requires hand { seat.old.part.hand ≡ None }
        ensures steps { (answer : ℕ) → Steps (P.meaning program.now) J.guide seat.old answer
            (Some packet.now) seat.new result }
    {
        let mut after = seat.part;
        let number = moves::take(program, &mut after, packet);
        match self.keep(program, seat, after, Trace::Took(number), Some(packet)) {
            Ok(()) => Stepped::Took(number),
            Err(NoMemory) => Stepped::NoMemory,
        }
    }

    /// Is told this answer, of which the entry has this content.
    #[tactic(auto, using(crate::proofs::Making::hearing_answer))]
    fn hear(
        &self,
        program: &P,
        seat: &mut VarSeat<P>,
        place: Local,
        what: What,
        told: u64,
        input: Option<&Packet>,
    ) -> Stepped
        requires of { AreVarsOf P.meaning P.row.coded P.Value.row.coded program.now self.now }
        requires seat { MayMove self.now seat.old }
        requires hand { seat.old.part.hand ≡ Some place }
        requires asked { IsAsked (P.meaning program.now) place what told }
        requires followed { IsRecorded J.guide seat.old.thread
            (seat.old.part.counts.entries + 1) told }
        ensures steps { (answer : ℕ)
            → IsFree J.guide seat.old.thread (seat.old.part.counts.entries + 1) told answer
            → Steps (P.meaning program.now) J.guide seat.old answer
            (option_copied input.entry) seat.new result }
    {
        let mut after = seat.part;
        let Ok(entry) = moves::hear(program, seat.thread, &mut after, place, what, told) else {
            return Stepped::NoMemory;
        };
        match self.keep(program, seat, after, Trace::Did(copied(&entry)), input) {
            Ok(()) => Stepped::Did(entry),
            Err(NoMemory) => Stepped::NoMemory,
        }
    }

    /// Sends out what the program makes of the packet in hand.
    fn emit(
        &self,
        alloc: Global,
        program: &P,
        seat: &mut VarSeat<P>,
        place: Local,
        packet: &Packet,
    ) -> Stepped
        requires of { AreVarsOf P.meaning P.row.coded P.Value.row.coded program.now self.now }
        requires seat { MayMove self.now seat.old }
        requires hand { seat.old.part.hand ≡ Some place }
        requires next { (P.meaning program.now).next place ≡ move_is.Emit }
        ensures steps { (answer : ℕ) → Steps (P.meaning program.now) J.guide seat.old answer
            (Some packet.now) seat.new result }
    {
        let mut after = seat.part;
        let Ok(output) = moves::emit(alloc, program, seat.thread, &mut after, place, packet) else {
            return Stepped::NoMemory;
        };
        let trace = Trace::Emitted(output.number);
        match self.keep(program, seat, after, trace, Some(packet)) {
            Ok(()) => Stepped::Emitted(output),
            Err(NoMemory) => Stepped::NoMemory,
        }
    }

    /// Ends the packet in hand.
    fn finish(
        &self,
        program: &P,
        seat: &mut VarSeat<P>,
        place: Local,
        input: Option<&Packet>,
    ) -> Stepped
        requires of { AreVarsOf P.meaning P.row.coded P.Value.row.coded program.now self.now }
        requires seat { MayMove self.now seat.old }
        requires hand { seat.old.part.hand ≡ Some place }
        requires next { (P.meaning program.now).next place ≡ move_is.End }
        ensures steps { (answer : ℕ) → Steps (P.meaning program.now) J.guide seat.old answer
            (option_copied input.entry) seat.new result }
    {
        let _ = place;
        let mut after = seat.part;
        let number = moves::end(&mut after);
        match self.keep(program, seat, after, Trace::Ended(number), input) {
            Ok(()) => Stepped::Ended(number),
            Err(NoMemory) => Stepped::NoMemory,
        }
    }

    /// Makes the seat's next move, which is on no variable.
    #[tactic(auto, using(crate::proofs::Wanting::next_is, crate::proofs::Wanting::next_wanted))]
    pub(crate) fn make_own(
        &self,
        alloc: Global,
        program: &P,
        seat: &mut VarSeat<P>,
        wants: &Wants,
        guide: &Guide,
        answer: u64,
        input: Option<&Packet>,
    ) -> Stepped
        requires of { AreVarsOf P.meaning P.row.coded P.Value.row.coded program.now self.now }
        requires guide { guide.now ≡ J.guide }
        requires seat { MayMove self.now seat.old }
        requires wanted { wants.now ≡ seat_wants (P.meaning program.now) seat.old }
        requires own { on_variable wants.now ≡ false }
        requires input { IsTrue (has_hand seat.old.part.hand) → IsSome input }
        ensures steps { Steps (P.meaning program.now) J.guide seat.old answer
            (option_copied input.entry) seat.new result }
    {
        let Some(place) = seat.part.hand else {
            let Some(packet) = input else {
                return Stepped::Idle;
            };
            return self.take(program, seat, packet);
        };
        let number = seat.part.counts.entries + 1;
        match *wants {
            Wants::Clock(_) => {
                let told = told_to(guide, seat.thread, number, answer);
                self.hear(program, seat, place, What::Clock(told), told, input)
            }
            Wants::Draw(_) => {
                let told = told_to(guide, seat.thread, number, answer);
                self.hear(program, seat, place, What::Draw(told), told, input)
            }
            Wants::Emit => self.emit(alloc, program, seat, place, input.unwrap()),
            Wants::End => self.finish(program, seat, place, input),
            Wants::Take(_) | Wants::Touch { .. } | Wants::Read { .. } => unreachable!(),
        }
    }
}
