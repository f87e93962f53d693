ghost use Rattle.std.specs.Prelude.{◌<◌, ◌^◌, IfOk, length};
ghost use Rattle.box_program.specs.Hands.{FitsProgram};
ghost use Rattle.master_core.specs.Mastered.{value_of};
ghost use Rattle.recovery_world.specs.World.{Setting, World};
ghost use Rattle.run_end.specs.Ending.{IsEndOf, IsEndOfSome, EndsIn};

use crate::run::Run;
use box_program::Program;
use entry_order::LogEntry;
use input_logger::InputLog;
use master_core::Master;
use plain_machine::Schedule;
use plain_text::NoMemory;
use std::alloc::Global;

/// The schedule of the run in which a world ends, from its master and the schedule of the moves that the master made.
///
/// `order` has the followed entries by weight, then thread, the first one first: all that the master has not made yet,
/// and any that it has, which are passed over. `numbers` has for each thread the number of its greatest released
/// output, or 0. The master makes the entries in this order, each after the moves of its thread that lead to it, with
/// the recorded value of a clock or a draw. Then each thread, in increasing order, goes on while it sent out fewer
/// packets than its number says.
///
/// It takes only inputs that were fed, in time by the moves that it makes and the entries. There are fewer than 2 to
/// the 50 inputs, so that no thread makes more moves than a master counts.
pub fn finish_run<P: Program>(
    alloc: Global,
    program: &P,
    inputs: &InputLog,
    master: Master<P>,
    schedule: Schedule,
    order: &[LogEntry],
    numbers: &[u64],
) -> Result<Schedule, NoMemory>
    requires fits { FitsProgram (P.meaning program.now) (P.fits program.now) value_of master.vars }
    requires few { length inputs.now.packets < 2 ^ 50 }
    requires end { IsEndOfSome (P.meaning program.now)
        inputs.now master schedule order.now numbers.now }

    // Of each world that this is the end of, it is the schedule of the run in which the world ends.
    ensures { IfOk result (λ moves. (s : Setting P.Value) (w : World P.Value)
        → IsEndOf (P.meaning program.now) s w inputs.now master schedule order.now numbers.now
        → EndsIn s w moves) }
{
    let mut run = Run { master, schedule };
    run.follow(alloc, program, inputs, order)?;
    run.send_all(alloc, program, inputs, numbers)?;
    Ok(run.schedule)
}
