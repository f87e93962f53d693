ghost use Rattle.std.specs.Prelude.{◌≡◌, [], ℕ, List, IsTrue, OnOk, IsErrOf};
ghost use Rattle.world_io.specs.World.{Start, Shown, is_writable, WritingFailed};
ghost use Rattle.output_files.specs.Writes.{KeepsOutputs};
ghost use Rattle.output_files.specs.Written.{AppendsTo, AppendsSome, HasAppended, OnlyWrites};

use crate::OutputError;
use crate::writing::put_all;
use plain_text::Bytes;
use world_io::World;

/// The bytes of a file that are gathered before they are appended to it, at most, but for those that came last. What is
/// longer is appended by pieces, all of which are gathered in the same memory.
pub const PIECE: usize = 65_536;

/// The room of a piece: `PIECE` bytes, and a record that makes it full.
pub const PIECE_ROOM: usize = PIECE + 4_096;

/// Appends the bytes that are gathered to a created file, so that none is gathered any more, and all that was to be
/// appended was.
pub fn append_last<W: World>(world: &mut W, file: u32, piece: &mut Bytes) -> Result<(), OutputError>
    requires { IsTrue (is_writable (W.ledger world.old) file) }
    ensures none { OnOk result (piece.new ≡ []) }
    ensures only_writes { OnlyWrites W.ledger W.healthy world.old world.new }
    ensures cause { IsErrOf result OutputError.WriteFault
        → WritingFailed W.ledger W.healthy world.old world.new }
    ensures shows { (p : Start) → W.honest p world.new → (bytes : List ℕ) (before : Shown)
        → HasAppended file bytes piece.old before (W.shows p world.old)
        → AppendsTo result file bytes before (W.shows p world.new) }
    ensures keeps { (p : Start) → W.honest p world.new
        → KeepsOutputs (W.shows p world.old) (W.shows p world.new) }
    ensures before { (p : Start) → W.honest p world.new → W.honest p world.old }
{
    put_all(world, file, piece.as_slice())?;
    piece.truncate(0);
    Ok(())
}

/// Appends the bytes that are gathered to a created file, where these are `PIECE` or more.
pub fn append_full<W: World>(world: &mut W, file: u32, piece: &mut Bytes) -> Result<(), OutputError>
    requires { IsTrue (is_writable (W.ledger world.old) file) }
    ensures only_writes { OnlyWrites W.ledger W.healthy world.old world.new }
    ensures cause { IsErrOf result OutputError.WriteFault
        → WritingFailed W.ledger W.healthy world.old world.new }
    ensures shows { (p : Start) → W.honest p world.new → (bytes : List ℕ) (before : Shown)
        → HasAppended file bytes piece.old before (W.shows p world.old)
        → AppendsSome result file bytes piece.new before (W.shows p world.new) }
    ensures keeps { (p : Start) → W.honest p world.new
        → KeepsOutputs (W.shows p world.old) (W.shows p world.new) }
    ensures before { (p : Start) → W.honest p world.new → W.honest p world.old }
{
    if piece.len() < PIECE {
        return Ok(());
    }
    append_last(world, file, piece)
}
