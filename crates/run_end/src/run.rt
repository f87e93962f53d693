ghost use Rattle.std.specs.Prelude.{◌≡◌, ◌<◌, ◌^◌, OnOk, length, slice_index};
ghost use Rattle.box_program.specs.Hands.{FitsProgram};
ghost use Rattle.master_core.specs.Mastered.{value_of};
ghost use Rattle.run_end.specs.Playing.{StandsBefore, PlaysOn, MakesNext, LeadsTo, LeadsBy};
ghost use Rattle.run_end.specs.Playing.{SendsUpTo, SendsAll};

use crate::next::{answer_of, input_of, told_by};
use access_log::Turn;
use box_program::Program;
use entry_order::LogEntry;
use input_logger::InputLog;
use master_core::Master;
use plain_machine::{PlainMove, Schedule};
use plain_text::NoMemory;
use std::alloc::Global;

/// A master that plays on, and the schedule of all its moves.
#[derive(Drop)]
pub struct Run<P: Program> {
    /// The master after the last of these moves.
    pub master: Master<P>,
    /// All moves from the beginning of the run.
    pub schedule: Schedule,
}

/// The number of a thread, or 0 where there is none for it.
fn number_of(numbers: &[u64], thread: u32) -> u64
    ensures { result ≡ slice_index numbers.now thread }
{
    numbers.get(thread as usize).copied().unwrap_or(0)
}

impl<P: Program> Run<P> {
    /// The thread makes its next move, and is told this answer where it asks for one.
    fn play_next(
        &mut self,
        alloc: Global,
        program: &P,
        inputs: &InputLog,
        thread: u32,
        answer: u64,
    ) -> Result<(), NoMemory>
        requires fits { FitsProgram (P.meaning program.now) (P.fits program.now)
            value_of self.old.master.vars }
        requires few { length inputs.now.packets < 2 ^ 50 }
        requires next { StandsBefore (MakesNext (P.meaning program.now) inputs.now thread answer)
            (P.meaning program.now) self.old.master self.old.schedule }
        ensures plays { OnOk result (PlaysOn
            (MakesNext (P.meaning program.now) inputs.now thread answer)
            (P.meaning program.now) self.old.master self.old.schedule
            self.new.master self.new.schedule) }
        ensures fits { FitsProgram (P.meaning program.now) (P.fits program.now)
            value_of self.new.master.vars }
    {
        let input = input_of(inputs, &self.master, thread);
        let stepped = self
            .master
            .step(alloc, program, thread, Turn::Free, answer, input);
        let told = told_by(&stepped)?;
        self.schedule.push(PlainMove {
            thread,
            answer: told,
        })?;
        Ok(())
    }

    /// The thread of the entry goes on until it has made it, with its recorded value where it is a clock or a draw.
    fn play_to(
        &mut self,
        alloc: Global,
        program: &P,
        inputs: &InputLog,
        entry: &LogEntry,
    ) -> Result<(), NoMemory>
        requires fits { FitsProgram (P.meaning program.now) (P.fits program.now)
            value_of self.old.master.vars }
        requires few { length inputs.now.packets < 2 ^ 50 }
        requires led { StandsBefore (LeadsTo (P.meaning program.now) inputs.now entry.now)
            (P.meaning program.now) self.old.master self.old.schedule }
        ensures plays { OnOk result (PlaysOn (LeadsTo (P.meaning program.now) inputs.now entry.now)
            (P.meaning program.now) self.old.master self.old.schedule
            self.new.master self.new.schedule) }
        ensures fits { FitsProgram (P.meaning program.now) (P.fits program.now)
            value_of self.new.master.vars }
    {
        let answer = answer_of(&entry.what).unwrap_or(0);
        'moves: while self.master.counts(entry.thread).entries < entry.number {
            self.play_next(alloc, program, inputs, entry.thread, answer)?;
        }
        Ok(())
    }

    /// Makes these entries, the first one first, each after the moves of its thread that lead to it.
    pub fn follow(
        &mut self,
        alloc: Global,
        program: &P,
        inputs: &InputLog,
        order: &[LogEntry],
    ) -> Result<(), NoMemory>
        requires fits { FitsProgram (P.meaning program.now) (P.fits program.now)
            value_of self.old.master.vars }
        requires few { length inputs.now.packets < 2 ^ 50 }
        requires led { StandsBefore (LeadsBy (P.meaning program.now) inputs.now order.now)
            (P.meaning program.now) self.old.master self.old.schedule }
        ensures plays { OnOk result (PlaysOn (LeadsBy (P.meaning program.now) inputs.now order.now)
            (P.meaning program.now) self.old.master self.old.schedule
            self.new.master self.new.schedule) }
        ensures fits { FitsProgram (P.meaning program.now) (P.fits program.now)
            value_of self.new.master.vars }
    {
        'entries: for entry in order {
            self.play_to(alloc, program, inputs, entry)?;
        }
        Ok(())
    }

    /// The thread goes on while it sent out fewer packets than this number.
    fn play_on(
        &mut self,
        alloc: Global,
        program: &P,
        inputs: &InputLog,
        thread: u32,
        number: u64,
    ) -> Result<(), NoMemory>
        requires fits { FitsProgram (P.meaning program.now) (P.fits program.now)
            value_of self.old.master.vars }
        requires few { length inputs.now.packets < 2 ^ 50 }
        requires sends { StandsBefore (SendsUpTo (P.meaning program.now) inputs.now thread number)
            (P.meaning program.now) self.old.master self.old.schedule }
        ensures plays { OnOk result (PlaysOn
            (SendsUpTo (P.meaning program.now) inputs.now thread number)
            (P.meaning program.now) self.old.master self.old.schedule
            self.new.master self.new.schedule) }
        ensures fits { FitsProgram (P.meaning program.now) (P.fits program.now)
            value_of self.new.master.vars }
    {
        'moves: while self.master.counts(thread).outputs < number {
            self.play_next(alloc, program, inputs, thread, 0)?;
        }
        Ok(())
    }

    /// Each thread in increasing order goes on until it has sent out as many packets as its number says.
    pub fn send_all(
        &mut self,
        alloc: Global,
        program: &P,
        inputs: &InputLog,
        numbers: &[u64],
    ) -> Result<(), NoMemory>
        requires fits { FitsProgram (P.meaning program.now) (P.fits program.now)
            value_of self.old.master.vars }
        requires few { length inputs.now.packets < 2 ^ 50 }
        requires sends { StandsBefore (SendsAll (P.meaning program.now) inputs.now numbers.now)
            (P.meaning program.now) self.old.master self.old.schedule }
        ensures plays { OnOk result (PlaysOn
            (SendsAll (P.meaning program.now) inputs.now numbers.now)
            (P.meaning program.now) self.old.master self.old.schedule
            self.new.master self.new.schedule) }
        ensures fits { FitsProgram (P.meaning program.now) (P.fits program.now)
            value_of self.new.master.vars }
    {
        'threads: for thread in 0..inputs.threads() {
            let number = number_of(numbers, thread);
            self.play_on(alloc, program, inputs, thread, number)?;
        }
        Ok(())
    }
}
