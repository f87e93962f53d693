ghost use Rattle.std.specs.Prelude.{◌<◌, ◌≤◌, ◌-◌, ◌^◌, ◌∷◌, [], IfOk, OnOk, IsErrOf, List, ℕ};
ghost use Rattle.world_io.specs.Stream.{Rose};
ghost use Rattle.world_io.specs.World.{Start};
ghost use Rattle.input_files.specs.Answers.{SaysBox};
ghost use Rattle.input_files.specs.Files.{KeepsOutputs, OnlyReads, OpensAll};
ghost use Rattle.input_files.specs.Judging.{JudgesBox};
ghost use Rattle.input_files.specs.Texts.{IsFrontOf};

use crate::InputError;
use crate::texts::{read_front_of, whole_lines};
use box_conf::{BoxConf, read_box};
use plain_text::{Limit, LineCause, LineFault, Text};
use std::alloc::Global;
use world_io::{Front, World};

/// Reads and judges the box file.
///
/// Of a file that is larger than `MOST_FILE_BYTES` the lines that end within these bytes are judged. Their faults come
/// first, but not that a line is missing; otherwise the file is too large.
pub fn read_box_file<W: World>(
    alloc: Global,
    world: &mut W,
    name: &Text,
) -> Result<BoxConf, InputError<LineFault>>
    requires { (W.ledger world.old).given < 2 ^ 32 - 1 }
    ensures threads { IfOk result (λ conf. (1 ≤ conf.threads) × (conf.threads ≤ 16)) }
    ensures only_reads { OnlyReads W.ledger W.healthy (name.now ∷ []) world.old world.new }
    ensures opened { OnOk result
        (OpensAll (name.now ∷ []) (W.ledger world.old) (W.ledger world.new)) }
    ensures cause { IsErrOf result InputError.ReadFault
        → Rose (W.ledger world.old).read_faults (W.ledger world.new).read_faults }
    ensures judged { (p : Start) → W.honest p world.new
        → JudgesBox (W.healthy world.old) name.now result (W.shows p world.old) }
    ensures keeps { (p : Start) → W.honest p world.new
        → KeepsOutputs (W.shows p world.old) (W.shows p world.new) }
    ensures before { (p : Start) → W.honest p world.new → W.honest p world.old }
{
    let front = read_front_of(alloc, world, name)?;
    judge_box(&front)
}

/// Judges the box file of which this was read.
fn judge_box(front: &Front) -> Result<BoxConf, InputError<LineFault>>
    ensures says { (bytes : List ℕ) → IsFrontOf front.now bytes → SaysBox bytes result }
    ensures threads { IfOk result (λ conf. (1 ≤ conf.threads) × (conf.threads ≤ 16)) }
    ensures quiet { ¬ IsErrOf result InputError.ReadFault }
    ensures memory { ¬ IsErrOf result InputError.NoMemory }
{
    match front {
        Front::All(bytes) => match read_box(bytes.as_slice()) {
            Ok(conf) => Ok(conf),
            Err(fault) => Err(InputError::Fault(fault)),
        },
        Front::More(bytes) => match read_box(whole_lines(bytes.as_slice())) {
            Ok(_) => Err(InputError::TooLarge(Limit::File)),
            Err(fault) => match fault.cause {
                LineCause::MissingLine => Err(InputError::TooLarge(Limit::File)),
                _ => Err(InputError::Fault(fault)),
            },
        },
    }
}
