ghost use Rattle.std.specs.Prelude.{◌<◌, ◌-◌, ◌^◌, ◌∷◌, [], OnOk, IsErrOf, List, ℕ};
ghost use Rattle.plain_player.specs.Schedules.{schedule_form};
ghost use Rattle.world_io.specs.Stream.{Rose};
ghost use Rattle.world_io.specs.World.{Start};
ghost use Rattle.input_files.specs.Answers.{SaysFile, SaysLines};
ghost use Rattle.input_files.specs.Files.{KeepsOutputs, OnlyReads, OpensAll};
ghost use Rattle.input_files.specs.Judging.{JudgesSchedule};
ghost use Rattle.input_files.specs.Texts.{IsFrontOf};

use crate::InputError;
use crate::texts::{read_front_of, whole_lines};
use plain_machine::Schedule;
use plain_player::read_schedule;
use plain_text::{Limit, LineFault, ReadError, Text};
use std::alloc::Global;
use world_io::{Front, World};

/// Reads and judges a schedule as text; whether its moves are legal is not judged here.
///
/// Of a file that is larger than `MOST_FILE_BYTES` the lines that end within these bytes are judged: their first fault
/// comes first, or that they have too many moves, which passes the limit of events; otherwise the file is too large.
pub fn read_schedule_file<W: World>(
    alloc: Global,
    world: &mut W,
    name: &Text,
) -> Result<Schedule, InputError<LineFault>>
    requires { (W.ledger world.old).given < 2 ^ 32 - 1 }
    ensures only_reads { OnlyReads W.ledger W.healthy (name.now ∷ []) world.old world.new }
    ensures opened { OnOk result
        (OpensAll (name.now ∷ []) (W.ledger world.old) (W.ledger world.new)) }
    ensures cause { IsErrOf result InputError.ReadFault
        → Rose (W.ledger world.old).read_faults (W.ledger world.new).read_faults }
    ensures judged { (p : Start) → W.honest p world.new
        → JudgesSchedule (W.healthy world.old) name.now result (W.shows p world.old) }
    ensures keeps { (p : Start) → W.honest p world.new
        → KeepsOutputs (W.shows p world.old) (W.shows p world.new) }
    ensures before { (p : Start) → W.honest p world.new → W.honest p world.old }
{
    let front = read_front_of(alloc, world, name)?;
    judge_front(alloc, &front)
}

/// Judges the file of which this was read.
fn judge_front(alloc: Global, front: &Front) -> Result<Schedule, InputError<LineFault>>
    ensures says { (bytes : List ℕ) → IsFrontOf front.now bytes
        → SaysFile schedule_form bytes result }
    ensures quiet { ¬ IsErrOf result InputError.ReadFault }
{
    match front {
        Front::All(bytes) => judge_lines(alloc, bytes.as_slice()),
        Front::More(bytes) => match judge_lines(alloc, whole_lines(bytes.as_slice())) {
            Ok(_moves) => Err(InputError::TooLarge(Limit::File)),
            Err(error) => Err(error),
        },
    }
}

/// Judges lines by themselves.
fn judge_lines(alloc: Global, text: &[u8]) -> Result<Schedule, InputError<LineFault>>
    ensures says { SaysLines schedule_form text.now result }
{
    match read_schedule(alloc, text) {
        Ok(moves) => Ok(moves),
        Err(ReadError::Fault(fault)) => Err(InputError::Fault(fault)),
        Err(ReadError::TooMany) => Err(InputError::TooLarge(Limit::Events)),
        Err(ReadError::NoMemory) => Err(InputError::NoMemory),
    }
}
