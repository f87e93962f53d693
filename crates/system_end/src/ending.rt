ghost use Rattle.std.specs.Prelude.{◌≡◌, ◌<◌, ℕ, true, IfOk, slice_index};
ghost use Rattle.dup_filter.specs.Numbers.{numbers, IsGreatest};
ghost use Rattle.recovery_world.specs.World.{Setting, World};
ghost use Rattle.system_parts.specs.SystemStanding.{StandsFor, StandsForSome};
ghost use Rattle.run_end.specs.Ending.{EndsIn};
ghost use Rattle.system_end.specs.Ending.{IsOrderOf};

use box_program::Program;
use dup_filter::Released;
use entry_order::LogEntry;
use input_logger::InputLog;
use master_core::Master;
use plain_machine::Schedule;
use plain_text::NoMemory;
use replay_guide::Guide;
use run_end::finish_run;
use std::alloc::Global;
use std::mem::forget;
use system_parts::Core;

/// The followed entries, in the order in which they can be made.
fn followed_entries(alloc: Global, guide: &Guide) -> Result<Vec<LogEntry>, NoMemory>
    ensures { IfOk result (λ entries. IsOrderOf guide.now entries.items) }
{
    let order = guide.order(alloc)?;
    let mut entries = Vec::with_capacity(alloc, order.len())?;
    for (thread, number) in order.as_slice() {
        if let Some(entry) = guide.get(*thread, *number) {
            entries.push(LogEntry {
                thread: entry.thread,
                number: entry.number,
                what: entry.what,
            })?;
        }
    }
    Ok(entries)
}

/// The greatest number of a released output of each thread, or 0.
fn last_released(alloc: Global, released: &Released, threads: u32) -> Result<Vec<u64>, NoMemory>
    ensures { IfOk result (λ last. (t : ℕ) → t < threads
        → IsGreatest (numbers released.now t) (slice_index last.items t)) }
{
    let mut last = Vec::with_capacity(alloc, threads as usize)?;
    for thread in 0..threads {
        last.push(released.greatest(thread))?;
    }
    Ok(last)
}

/// The followed entries, and the greatest number of a released output of each thread.
fn last_ones<P: Program>(core: &Core<P>) -> Result<(Vec<LogEntry>, Vec<u64>), NoMemory>
    ensures order { IfOk result (λ last. IsOrderOf core.now.guide last.0.items) }
    ensures numbers { IfOk result (λ last. (t : ℕ) → t < core.now.inputs.threads
        → IsGreatest (numbers core.now.logger.released t) (slice_index last.1.items t)) }
{
    let order = followed_entries(core.alloc, &core.guide)?;
    let numbers = last_released(core.alloc, core.logger.released(), core.inputs.threads())?;
    Ok((order, numbers))
}

/// What becomes of the memory of a system whose run has ended.
#[derive(Clone, Copy, Debug, Drop)]
pub enum Memory {
    /// It is given back: the process goes on.
    GivenBack,
    /// It is left as it is: the process ends soon, and its memory with it. To give back what was used in many small
    /// pieces takes up to a tenth of the time of a run.
    Left,
}

/// What the last moves of a run are made with.
#[derive(Drop)]
struct Last<P: Program> {
    program: P,
    inputs: InputLog,
    master: Master<P>,
    schedule: Schedule,
}

/// Gives a value's memory back, or leaves it.
fn let_go<T: Drop>(value: T, memory: Memory) {
    match memory {
        Memory::GivenBack => drop(value),
        Memory::Left => forget(value),
    }
}

/// Takes a system apart. What its last moves are not made with is let go.
fn taken_apart<P: Program>(core: Core<P>, memory: Memory) -> Last<P>
    ensures program { result.program ≡ core.program }
    ensures inputs { result.inputs ≡ core.inputs }
    ensures master { result.master ≡ core.master }
    ensures schedule { result.schedule ≡ core.schedule }
{
    let rest = (
        core.left,
        core.store,
        core.guide,
        core.sent,
        core.logger,
        core.released,
    );
    let_go(rest, memory);
    Last {
        program: core.program,
        inputs: core.inputs,
        master: core.master,
        schedule: core.schedule,
    }
}

/// Lets go of the parts of a system.
///
/// A function that may end early gives them to this call: so how they are let go is proved once, here.
pub fn discard<P: Program>(_core: Core<P>) {}

/// The schedule of the run in which the world ends, of a master that is up; and what becomes of the system's memory.
pub fn end_awake<P: Program>(core: Core<P>, memory: Memory) -> Result<Schedule, NoMemory>
    requires stands { StandsForSome (P.meaning core.program) core }
    requires up { core.up ≡ true }
    ensures { IfOk result (λ moves. (s : Setting P.Value) (w : World P.Value)
        → StandsFor (P.meaning core.program) s w core → EndsIn s w moves) }
{
    let alloc = core.alloc;
    match last_ones(&core) {
        Ok((order, numbers)) => {
            let Last {
                program,
                inputs,
                master,
                schedule,
            } = taken_apart(core, memory);
            let ended = finish_run(
                alloc,
                &program,
                &inputs,
                master,
                schedule,
                order.as_slice(),
                numbers.as_slice(),
            );
            let_go((program, inputs), memory);
            ended
        }
        Err(no_memory) => {
            discard(core);
            Err(no_memory)
        }
    }
}
