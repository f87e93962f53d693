ghost use Rattle.std.specs.Prelude.{◌<◌, ◌-◌, ◌^◌, ◌∷◌, [], IfOk, OnOk, IsErrOf, List, ℕ};
ghost use Rattle.plain_text.specs.LineFiles.{IsDecisive, IsFile};
ghost use Rattle.world_io.specs.Stream.{Rose};
ghost use Rattle.world_io.specs.World.{Start};
ghost use Rattle.input_files.specs.Answers.{SaysFile, SaysLines};
ghost use Rattle.input_files.specs.Files.{KeepsOutputs, OnlyReads, OpensAll};
ghost use Rattle.input_files.specs.Judging.{Judges};
ghost use Rattle.input_files.specs.Texts.{IsFrontOf};

use crate::InputError;
use crate::texts::{read_front_of, whole_lines};
use plain_text::{Limit, LineFault, LineFile, MOST_EVENTS, ReadError, Sequence, Text, read_lines};
use std::alloc::Global;
use world_io::{Front, World};

/// Reads and judges a file of lines.
///
/// Of a file that is larger than `MOST_FILE_BYTES` the lines that end within these bytes are judged: their first fault
/// comes first, or that they say too many things, which passes the limit of events; otherwise the file is too large.
pub(crate) fn read_lines_file<W: World, F: LineFile>(
    alloc: Global,
    world: &mut W,
    name: &Text,
) -> Result<Sequence<F::Thing>, InputError<LineFault>>
    requires opens { (W.ledger world.old).given < 2 ^ 32 - 1 }
    requires decisive { IsDecisive F.form }
    ensures of_text { IfOk result (λ things. (text : List ℕ) × IsFile F.form text things) }
    ensures only_reads { OnlyReads W.ledger W.healthy (name.now ∷ []) world.old world.new }
    ensures opened { OnOk result
        (OpensAll (name.now ∷ []) (W.ledger world.old) (W.ledger world.new)) }
    ensures cause { IsErrOf result InputError.ReadFault
        → Rose (W.ledger world.old).read_faults (W.ledger world.new).read_faults }
    ensures judged { (p : Start) → W.honest p world.new
        → Judges (SaysFile F.form) (W.healthy world.old) name.now result (W.shows p world.old) }
    ensures keeps { (p : Start) → W.honest p world.new
        → KeepsOutputs (W.shows p world.old) (W.shows p world.new) }
    ensures before { (p : Start) → W.honest p world.new → W.honest p world.old }
{
    let front = read_front_of(alloc, world, name)?;
    judge_front::<F>(alloc, &front)
}

/// Judges the file of which this was read.
fn judge_front<F: LineFile>(
    alloc: Global,
    front: &Front,
) -> Result<Sequence<F::Thing>, InputError<LineFault>>
    requires decisive { IsDecisive F.form }
    ensures says { (bytes : List ℕ) → IsFrontOf front.now bytes → SaysFile F.form bytes result }
    ensures of_text { IfOk result (λ things. (text : List ℕ) × IsFile F.form text things) }
    ensures quiet { ¬ IsErrOf result InputError.ReadFault }
{
    match front {
        Front::All(bytes) => judge_lines::<F>(alloc, bytes.as_slice()),
        Front::More(bytes) => match judge_lines::<F>(alloc, whole_lines(bytes.as_slice())) {
            Ok(_things) => Err(InputError::TooLarge(Limit::File)),
            Err(error) => Err(error),
        },
    }
}

/// Judges lines by themselves.
fn judge_lines<F: LineFile>(
    alloc: Global,
    text: &[u8],
) -> Result<Sequence<F::Thing>, InputError<LineFault>>
    requires decisive { IsDecisive F.form }
    ensures says { SaysLines F.form text.now result }
{
    match read_lines::<F>(alloc, text, u64::from(MOST_EVENTS)) {
        Ok(things) => Ok(things),
        Err(ReadError::Fault(fault)) => Err(InputError::Fault(fault)),
        Err(ReadError::TooMany) => Err(InputError::TooLarge(Limit::Events)),
        Err(ReadError::NoMemory) => Err(InputError::NoMemory),
    }
}
