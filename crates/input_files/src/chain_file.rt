ghost use Rattle.std.specs.Prelude.{◌<◌, ◌-◌, ◌^◌, ◌∷◌, [], All, IfOk, OnOk, IsErrOf};
ghost use Rattle.world_io.specs.Stream.{Rose};
ghost use Rattle.world_io.specs.World.{Start};
ghost use Rattle.chain_world.specs.Chain.{NamesSystem};
ghost use Rattle.input_files.specs.Files.{KeepsOutputs, OnlyReads, OpensAll};
ghost use Rattle.input_files.specs.Judging.{JudgesChain};

use crate::InputError;
use crate::lines_file::read_lines_file;
use chain_text::{ChainEvents, ChainScripts};
use plain_text::{LineFault, Text};
use std::alloc::Global;
use world_io::World;

/// Reads and judges the script of two systems in a chain.
///
/// Of a file that is larger than `MOST_FILE_BYTES` the lines that end within these bytes are judged: their first fault
/// comes first, or that they have too many events; otherwise the file is too large.
pub fn read_chain_file<W: World>(
    alloc: Global,
    world: &mut W,
    name: &Text,
) -> Result<ChainEvents, InputError<LineFault>>
    requires { (W.ledger world.old).given < 2 ^ 32 - 1 }
    ensures of_systems { IfOk result (All NamesSystem) }
    ensures only_reads { OnlyReads W.ledger W.healthy (name.now ∷ []) world.old world.new }
    ensures opened { OnOk result
        (OpensAll (name.now ∷ []) (W.ledger world.old) (W.ledger world.new)) }
    ensures cause { IsErrOf result InputError.ReadFault
        → Rose (W.ledger world.old).read_faults (W.ledger world.new).read_faults }
    ensures judged { (p : Start) → W.honest p world.new
        → JudgesChain (W.healthy world.old) name.now result (W.shows p world.old) }
    ensures keeps { (p : Start) → W.honest p world.new
        → KeepsOutputs (W.shows p world.old) (W.shows p world.new) }
    ensures before { (p : Start) → W.honest p world.new → W.honest p world.old }
{
    read_lines_file::<W, ChainScripts>(alloc, world, name)
}
