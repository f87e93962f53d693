ghost use Rattle.std.specs.Prelude.{◌≡◌, [], List, OnOk, IsErrOf};
ghost use Rattle.world_io.specs.World.{Start, Shown, WritingFailed};
ghost use Rattle.output_files.specs.Writes.{Write, HasGathered, KeepsOutputs};
ghost use Rattle.output_files.specs.Written.{Writes, OnlyWrites};

use crate::writing::put_all;
use crate::{OutputError, REPORT};
use plain_text::Bytes;
use world_io::World;

/// Appends the gathered lines to the report, so that none is gathered any more.
pub fn write_lines<W: World>(world: &mut W, lines: &mut Bytes) -> Result<(), OutputError>
    ensures none { OnOk result (lines.new ≡ []) }
    ensures only_writes { OnlyWrites W.ledger W.healthy world.old world.new }
    ensures cause { IsErrOf result OutputError.WriteFault
        → WritingFailed W.ledger W.healthy world.old world.new }
    ensures shows { (p : Start) → W.honest p world.new → (before : Shown) (writes : List Write)
        → HasGathered writes lines.old before (W.shows p world.old)
        → Writes result writes before (W.shows p world.new) }
    ensures keeps { (p : Start) → W.honest p world.new
        → KeepsOutputs (W.shows p world.old) (W.shows p world.new) }
    ensures before { (p : Start) → W.honest p world.new → W.honest p world.old }
{
    put_all(world, REPORT, lines.as_slice())?;
    lines.truncate(0);
    Ok(())
}
