ghost use Rattle.std.specs.Prelude.{◌≡◌, ◌<◌, ◌-◌, ◌^◌, ◌∷◌, [], OnOk, IsErrOf};
ghost use Rattle.world_io.specs.Stream.{Rose};
ghost use Rattle.world_io.specs.World.{Start};
ghost use Rattle.input_files.specs.Files.{ReadsFrontOf, KeepsOutputs, OnlyReads, OpensAll};
ghost use Rattle.input_files.specs.Texts.{whole_lines};

use plain_text::{MOST_FILE_BYTES, Text};
use std::alloc::Global;
use world_io::{Front, FrontError, OpenFault, World, WorldSource, read_front};

/// Reads the first bytes under a name, as many as a file may have.
pub(crate) fn read_front_of<W: World>(
    alloc: Global,
    world: &mut W,
    name: &Text,
) -> Result<Front, FrontError>
    requires { (W.ledger world.old).given < 2 ^ 32 - 1 }
    ensures only_reads { OnlyReads W.ledger W.healthy (name.now ∷ []) world.old world.new }
    ensures opened { OnOk result
        (OpensAll (name.now ∷ []) (W.ledger world.old) (W.ledger world.new)) }
    ensures cause { IsErrOf result FrontError.Failed
        → Rose (W.ledger world.old).read_faults (W.ledger world.new).read_faults }
    ensures judged { (p : Start) → W.honest p world.new
        → ReadsFrontOf (W.healthy world.old) name.now result (W.shows p world.old) }
    ensures keeps { (p : Start) → W.honest p world.new
        → KeepsOutputs (W.shows p world.old) (W.shows p world.new) }
    ensures before { (p : Start) → W.honest p world.new → W.honest p world.old }
{
    let file = match world.open_file(name) {
        Ok(file) => file,
        Err(OpenFault::Failed) => return Err(FrontError::Failed),
        Err(OpenFault::NoMemory) => return Err(FrontError::NoMemory),
    };
    let mut source = WorldSource::of(world, file);
    read_front(alloc, &mut source, MOST_FILE_BYTES)
}

/// The lines of a text that end in it.
pub(crate) fn whole_lines(text: &[u8]) -> &[u8]
    ensures { result.now ≡ whole_lines text.now }
{
    let mut rest = text;
    while let [front @ .., last] = rest {
        if *last == b'\n' {
            return rest;
        }
        rest = front;
    }
    rest
}
