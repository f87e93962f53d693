ghost use Rattle.std.specs.Prelude.{◌≡◌, ℕ, ◌+◌, ◌<◌, ◌≤◌, ◌↔◌, List, [], length, false, IsTrue};
ghost use Rattle.std.specs.Prelude.{IsSome, IfOk, Some, None, option_copied};
ghost use Rattle.std.specs.Prelude.{HoldsAt};
ghost use Rattle.plain_text.specs.declared.packet.Packet as packet_of;
ghost use Rattle.box_program.specs.Hands.{FitsProgram, IsInputAfter, has_hand, moves_left};
ghost use Rattle.plain_machine.specs.History.{Step};
ghost use Rattle.plain_machine.specs.declared.local.Move.TheVariants as move_is;
ghost use Rattle.access_log.specs.declared.entry.Output as output_of;
ghost use Rattle.access_log.specs.declared.entry.Turn.TheVariants as turn_of;
ghost use Rattle.master_core.specs.Mastered.{value_of, place_in_hand, input_in_hand, HasRoom};
ghost use Rattle.master_core.specs.Mastered.{HasHand, HasNoHand, WantsVariable};
ghost use Rattle.master_core.specs.MasterStanding.{Stands};
ghost use Rattle.master_core.specs.Stepping.{wanted, next_with, move_of, Follows};
ghost use Rattle.master_core.specs.Stepping.{MadeNone, MadeOne};
ghost use Rattle.master_core.specs.Effects.{HasFresh, DoneTake, DoneTouch, DoneLook, DoneHear};
ghost use Rattle.master_core.specs.Effects.{DoneEmit, DoneEnd, HasPlayed};

mod copies;
mod split;

use crate::{Counts, Stepped, ThreadPart, VarPart, Wants, moves};
use access_log::{Turn, What};
use box_program::Program;
pub use copies::Delta;
use plain_machine::{Local, Move};
use plain_text::{NoMemory, Packet};
pub use split::MasterParts;
use std::alloc::Global;
use std::marker::Model;
use thread_clock::Stamp;

/// A box program that runs: the values of the shared variables and where each thread is, with the places and the stamps
/// by which its log entries are ordered.
///
/// A master stands for a list of moves, that of the plain machine which it made since it was fresh. It keeps no such
/// list: contracts say which lists it stands for, and each step costs the same however long they are.
#[derive(Drop)]
pub struct Master<P: Program> {
    vars: Vec<VarPart<P::Value>>,
    threads: Vec<ThreadPart>,
}

impl<P: Program> Model for Master<P> {
    ghost use Rattle.master_core.specs.Mastered.{Mastered, IsBounded};

    ghost Value = { Mastered P.Value };

    ghost view = { λ p. record { vars = p.vars.items; threads = p.threads.items } };

    ghost invariant = { λ p. IsBounded p.vars.items p.threads.items };
}

impl<P: Program> Master<P> {
    /// A master that made no move: each variable has its fresh value, and no thread has taken anything.
    pub fn fresh(alloc: Global, program: &P, threads: u32) -> Result<Self, NoMemory>
        requires some { 1 ≤ threads }
        requires few { threads ≤ 16 }
        ensures stands { IfOk result (λ master. Stands (P.meaning program.now) threads [] master) }
        ensures fits { IfOk result (λ master. FitsProgram (P.meaning program.now)
            (P.fits program.now) value_of master.vars) }
    {
        let vars = fresh_vars(alloc, program)?;
        let part = ThreadPart {
            counts: Counts {
                taken: 0,
                entries: 0,
                outputs: 0,
            },
            hand: None,
            stamp: Stamp::zero(),
        };
        let threads = vec![in alloc; part; threads as usize]?;
        Ok(Master { vars, threads })
    }

    /// The program's next move with the packet that the thread has in hand; `None` exactly where it has none.
    pub fn next_move(&self, program: &P, thread: u32) -> Option<Move>
        requires thread_in { thread < length self.now.threads }
        ensures { HoldsAt (λ part. result ≡ next_with (P.meaning program.now) part.hand)
            self.now.threads thread }
    {
        match self.threads[thread as usize].hand {
            Some(place) => Some(program.next(&place)),
            None => None,
        }
    }

    /// What the thread does next, where `next` is the program's next move.
    pub fn wants_by(&self, program: &P, thread: u32, next: Option<Move>) -> Wants
        requires program { FitsProgram (P.meaning program.now) (P.fits program.now)
            value_of self.now.vars }
        requires thread_in { thread < length self.now.threads }
        requires next { HoldsAt (λ part. next ≡ next_with (P.meaning program.now) part.hand)
            self.now.threads thread }
        ensures wanted { (threads : ℕ) (steps : List (Step P.Value)) →
            Stands (P.meaning program.now) threads steps self.now
            → result ≡ wanted (P.meaning program.now) steps thread }
    {
        let part = self.threads[thread as usize];
        let Some(next) = next else {
            return Wants::Take(part.counts.taken + 1);
        };
        let number = part.counts.entries + 1;
        match next {
            Move::Access(var) => Wants::Touch {
                number,
                var,
                places: self.places(var),
            },
            Move::Read(var) => Wants::Read {
                number,
                var,
                places: self.places(var),
            },
            Move::Clock => Wants::Clock(number),
            Move::Draw => Wants::Draw(number),
            Move::Emit => Wants::Emit,
            Move::End => Wants::End,
        }
    }

    /// What the thread does next.
    pub fn wants(&self, program: &P, thread: u32) -> Wants
        requires program { FitsProgram (P.meaning program.now) (P.fits program.now)
            value_of self.now.vars }
        requires thread_in { thread < length self.now.threads }
        ensures wanted { (threads : ℕ) (steps : List (Step P.Value)) →
            Stands (P.meaning program.now) threads steps self.now
            → result ≡ wanted (P.meaning program.now) steps thread }
    {
        self.wants_by(program, thread, self.next_move(program, thread))
    }

    /// How many inputs the thread took, moves it logged and packets it sent out.
    pub fn counts(&self, thread: u32) -> Counts
        requires { thread < length self.now.threads }
        ensures { HoldsAt (λ part. result ≡ part.counts) self.now.threads thread }
    {
        self.threads[thread as usize].counts
    }

    /// The number of the input that the thread has in hand; `None` exactly where it has none.
    pub fn in_hand(&self, thread: u32) -> Option<u64>
        requires { thread < length self.now.threads }
        ensures { HoldsAt (λ part. result ≡ input_in_hand part) self.now.threads thread }
    {
        let part = self.threads[thread as usize];
        match part.hand {
            Some(_) => Some(part.counts.taken),
            None => None,
        }
    }

    /// The value that a variable has now.
    pub fn value(&self, var: u32) -> &P::Value
        requires { var < length self.now.vars }
        ensures { HoldsAt (λ part. result.now ≡ part.value) self.now.vars var }
    {
        &self.vars[var as usize].value
    }

    /// How often the variable was touched.
    pub fn places(&self, var: u32) -> u64
        requires { var < length self.now.vars }
        ensures { HoldsAt (λ part. result ≡ part.places) self.now.vars var }
    {
        self.vars[var as usize].places
    }

    /// The join of the stamps of the reads of the variable after its last touch.
    pub fn readers(&self, var: u32) -> &Stamp
        requires { var < length self.now.vars }
        ensures { HoldsAt (λ part. result.now ≡ part.readers) self.now.vars var }
    {
        &self.vars[var as usize].readers
    }

    /// Makes one move of the thread: the one that it wants, with this answer where it is told one.
    ///
    /// `input` is the packet in hand, else the next input of the thread, else `None`. `turn` says whether a touch or a
    /// read may be made now. `Idle` comes exactly where the thread wants an input and gets none, and `NotTurn` exactly
    /// where it wants a touch or a read and the turn is to wait; after these, and after `NoMemory`, the master is
    /// unchanged. What would pass 2^32 - 1 entries of the thread answers `NoMemory`.
    pub fn step(
        &mut self,
        alloc: Global,
        program: &P,
        thread: u32,
        turn: Turn,
        answer: u64,
        input: Option<&Packet>,
    ) -> Stepped
        requires program { FitsProgram (P.meaning program.now) (P.fits program.now)
            value_of self.old.vars }
        requires thread_in { thread < length self.old.threads }
        requires room { HasRoom self.old thread }
        requires input { IsTrue (has_hand (place_in_hand self.old thread)) → IsSome input }

        // A move is that of the definition, and the master stands for the history with it.
        ensures follows { (inputs : ℕ → List packet_of.Packet) (threads : ℕ)
            (steps : List (Step P.Value)) → Stands (P.meaning program.now) threads steps self.old
            → IsInputAfter inputs thread steps (option_copied input.entry)
            → Follows (P.meaning program.now) inputs threads steps
            (move_of (P.meaning program.now) steps thread answer) result self.new }
        ensures as_long { (output : output_of.Output) (packet : packet_of.Packet)
            → result ≡ Stepped.Emitted output → option_copied input.entry ≡ Some packet
            → length output.packet.bytes ≡ length packet.bytes }

        // When no move is made.
        ensures idle { (result ≡ Stepped.Idle)
            ↔ ((has_hand (place_in_hand self.old thread) ≡ false)
            × (option_copied input.entry ≡ None)) }
        ensures not_turn { (u n : ℕ) → (result ≡ Stepped.NotTurn u n)
            ↔ (WantsVariable (P.meaning program.now) (place_in_hand self.old thread)
            × (turn ≡ turn_of.Wait u n)) }
        ensures unchanged { MadeNone result → self.new ≡ self.old }

        // What stays.
        ensures threads { length self.new.threads ≡ length self.old.threads }
        ensures fits { FitsProgram (P.meaning program.now) (P.fits program.now)
            value_of self.new.vars }

        // What the thread has left to do with a packet.
        ensures begins { has_hand (place_in_hand self.old thread) ≡ false → MadeOne result
            → moves_left (P.meaning program.now) (place_in_hand self.new thread) ≤ 63 }
        ensures falls { IsTrue (has_hand (place_in_hand self.old thread)) → MadeOne result
            → moves_left (P.meaning program.now) (place_in_hand self.new thread)
            < moves_left (P.meaning program.now) (place_in_hand self.old thread) }
    {
        let next = self.next_move(program, thread);
        self.make(alloc, program, thread, next, turn, answer, input)
    }

    /// Makes one move of the thread, as `step` does, where `next` is the program's next move: the program is not asked
    /// for it again.
    pub fn make(
        &mut self,
        alloc: Global,
        program: &P,
        thread: u32,
        next: Option<Move>,
        turn: Turn,
        answer: u64,
        input: Option<&Packet>,
    ) -> Stepped
        requires program { FitsProgram (P.meaning program.now) (P.fits program.now)
            value_of self.old.vars }
        requires thread_in { thread < length self.old.threads }
        requires room { HasRoom self.old thread }
        requires input { IsTrue (has_hand (place_in_hand self.old thread)) → IsSome input }
        requires next { HoldsAt (λ part. next ≡ next_with (P.meaning program.now) part.hand)
            self.old.threads thread }

        // A move is that of the definition, and the master stands for the history with it.
        ensures follows { (inputs : ℕ → List packet_of.Packet) (threads : ℕ)
            (steps : List (Step P.Value)) → Stands (P.meaning program.now) threads steps self.old
            → IsInputAfter inputs thread steps (option_copied input.entry)
            → Follows (P.meaning program.now) inputs threads steps
            (move_of (P.meaning program.now) steps thread answer) result self.new }
        ensures as_long { (output : output_of.Output) (packet : packet_of.Packet)
            → result ≡ Stepped.Emitted output → option_copied input.entry ≡ Some packet
            → length output.packet.bytes ≡ length packet.bytes }

        // When no move is made.
        ensures idle { (result ≡ Stepped.Idle)
            ↔ ((has_hand (place_in_hand self.old thread) ≡ false)
            × (option_copied input.entry ≡ None)) }
        ensures not_turn { (u n : ℕ) → (result ≡ Stepped.NotTurn u n)
            ↔ (WantsVariable (P.meaning program.now) (place_in_hand self.old thread)
            × (turn ≡ turn_of.Wait u n)) }
        ensures unchanged { MadeNone result → self.new ≡ self.old }

        // What stays.
        ensures threads { length self.new.threads ≡ length self.old.threads }
        ensures fits { FitsProgram (P.meaning program.now) (P.fits program.now)
            value_of self.new.vars }

        // What the thread has left to do with a packet.
        ensures begins { has_hand (place_in_hand self.old thread) ≡ false → MadeOne result
            → moves_left (P.meaning program.now) (place_in_hand self.new thread) ≤ 63 }
        ensures falls { IsTrue (has_hand (place_in_hand self.old thread)) → MadeOne result
            → moves_left (P.meaning program.now) (place_in_hand self.new thread)
            < moves_left (P.meaning program.now) (place_in_hand self.old thread) }
    {
        let Some(place) = self.threads[thread as usize].hand else {
            let Some(packet) = input else {
                return Stepped::Idle;
            };
            return self.take(program, thread, packet);
        };
        let packet = input.unwrap();
        let next = next.unwrap();
        self.play(alloc, program, thread, place, next, turn, answer, packet)
    }

    /// Makes the move that is next with the packet in hand.
    fn play(
        &mut self,
        alloc: Global,
        program: &P,
        thread: u32,
        place: Local,
        next: Move,
        turn: Turn,
        answer: u64,
        packet: &Packet,
    ) -> Stepped
        requires program { FitsProgram (P.meaning program.now) (P.fits program.now)
            value_of self.old.vars }
        requires thread_in { thread < length self.old.threads }
        requires room { HasRoom self.old thread }
        requires hand { HasHand self.old thread place }
        requires next { (P.meaning program.now).next place ≡ next }
        ensures { HoldsAt (λ part. HasPlayed (P.meaning program.now) thread turn answer packet.now
            place part self.old result self.new) self.old.threads thread }
    {
        match next {
            Move::Access(var) => match turn {
                Turn::Wait { thread, number } => Stepped::NotTurn { thread, number },
                Turn::Follow | Turn::Free => self.touch(alloc, program, thread, place, var),
            },
            Move::Read(var) => match turn {
                Turn::Wait { thread, number } => Stepped::NotTurn { thread, number },
                Turn::Follow | Turn::Free => self.look(program, thread, place, var),
            },
            Move::Clock => self.hear(program, thread, place, What::Clock(answer), answer),
            Move::Draw => self.hear(program, thread, place, What::Draw(answer), answer),
            Move::Emit => self.emit(alloc, program, thread, place, packet),
            Move::End => self.end(thread),
        }
    }

    /// Takes the thread's next input.
    fn take(&mut self, program: &P, thread: u32, packet: &Packet) -> Stepped
        requires thread_in { thread < length self.old.threads }
        requires room { HasRoom self.old thread }
        requires hand { HasNoHand self.old thread }
        ensures { HoldsAt (λ part. DoneTake (P.meaning program.now) thread packet.now
            part self.old result self.new) self.old.threads thread }
    {
        Stepped::Took(moves::take(program, &mut self.threads[thread as usize], packet))
    }

    /// Makes the touch that is next.
    fn touch(&mut self, alloc: Global, program: &P, thread: u32, place: Local, var: u32) -> Stepped
        requires program { FitsProgram (P.meaning program.now) (P.fits program.now)
            value_of self.old.vars }
        requires thread_in { thread < length self.old.threads }
        requires room { HasRoom self.old thread }
        requires hand { HasHand self.old thread place }
        requires next { (P.meaning program.now).next place ≡ move_is.Access var }
        ensures { HoldsAt (λ part. HoldsAt (λ variable. DoneTouch (P.meaning program.now) thread var
            place part variable self.old result self.new) self.old.vars var)
            self.old.threads thread }
    {
        let part = &mut self.threads[thread as usize];
        let variable = &mut self.vars[var as usize];
        let Ok(entry) = moves::touch(alloc, program, thread, part, place, var, variable) else {
            return Stepped::NoMemory;
        };
        Stepped::Did(entry)
    }

    /// Makes the read that is next.
    fn look(&mut self, program: &P, thread: u32, place: Local, var: u32) -> Stepped
        requires program { FitsProgram (P.meaning program.now) (P.fits program.now)
            value_of self.old.vars }
        requires thread_in { thread < length self.old.threads }
        requires room { HasRoom self.old thread }
        requires hand { HasHand self.old thread place }
        requires next { (P.meaning program.now).next place ≡ move_is.Read var }
        ensures { HoldsAt (λ part. HoldsAt (λ variable. DoneLook (P.meaning program.now) thread var
            place part variable self.old result self.new) self.old.vars var)
            self.old.threads thread }
    {
        let part = &mut self.threads[thread as usize];
        let variable = &mut self.vars[var as usize];
        let Ok(entry) = moves::look(program, thread, part, place, var, variable) else {
            return Stepped::NoMemory;
        };
        Stepped::Did(entry)
    }

    /// Is told this answer, which the entry has as its content.
    fn hear(&mut self, program: &P, thread: u32, place: Local, what: What, answer: u64) -> Stepped
        requires thread_in { thread < length self.old.threads }
        requires room { HasRoom self.old thread }
        requires hand { HasHand self.old thread place }
        ensures { HoldsAt (λ part. DoneHear (P.meaning program.now) thread what answer
            place part self.old result self.new) self.old.threads thread }
    {
        let part = &mut self.threads[thread as usize];
        let Ok(entry) = moves::hear(program, thread, part, place, what, answer) else {
            return Stepped::NoMemory;
        };
        Stepped::Did(entry)
    }

    /// Sends out what the program makes of the packet in hand.
    fn emit(
        &mut self,
        alloc: Global,
        program: &P,
        thread: u32,
        place: Local,
        packet: &Packet,
    ) -> Stepped
        requires thread_in { thread < length self.old.threads }
        requires room { HasRoom self.old thread }
        requires hand { HasHand self.old thread place }
        requires next { (P.meaning program.now).next place ≡ move_is.Emit }
        ensures { HoldsAt (λ part. DoneEmit (P.meaning program.now) thread packet.now
            place part self.old result self.new) self.old.threads thread }
    {
        let part = &mut self.threads[thread as usize];
        let Ok(output) = moves::emit(alloc, program, thread, part, place, packet) else {
            return Stepped::NoMemory;
        };
        Stepped::Emitted(output)
    }

    /// Ends the packet in hand.
    fn end(&mut self, thread: u32) -> Stepped
        requires thread_in { thread < length self.old.threads }
        requires room { HasRoom self.old thread }
        ensures { HoldsAt (λ part. DoneEnd thread part self.old result self.new)
            self.old.threads thread }
    {
        Stepped::Ended(moves::end(&mut self.threads[thread as usize]))
    }
}

/// The fresh parts of a program's variables.
fn fresh_vars<P: Program>(alloc: Global, program: &P) -> Result<Vec<VarPart<P::Value>>, NoMemory>
    ensures { IfOk result (λ vars. HasFresh (P.meaning program.now) vars.items) }
{
    let mut vars = Vec::new(alloc);
    for var in 0..program.vars() {
        vars.push(VarPart {
            value: program.fresh(alloc, var)?,
            places: 0,
            stamp: Stamp::zero(),
            readers: Stamp::zero(),
        })?;
    }
    Ok(vars)
}
