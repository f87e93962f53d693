ghost use Rattle.std.specs.Prelude.{◌≡◌, ◌<◌, ◌-◌, ◌^◌, ◌∷◌, [], ℕ, List, IsTrue, IfOk, OnErr};
ghost use Rattle.std.specs.Prelude.{IsErrOf};
ghost use Rattle.world_io.specs.World.{Start, GivesCreated, KeepsLedgerWriting, is_writable};
ghost use Rattle.world_io.specs.World.{WritingFailed, WritesOn};
ghost use Rattle.output_files.specs.Writes.{Creates, Appends, Reports, IsOutput, KeepsOutputs};
ghost use Rattle.output_files.specs.Written.{AppendsTo, Writes, OnlyWrites};

use crate::OutputError;
use plain_text::Text;
use world_io::{World, WorldSink, WriteError, write_all};

/// The number of the report, which is there from the beginning.
pub const REPORT: u32 = 0;

/// Creates an output under a name, which has no bytes then, and gives its number.
pub fn create<W: World>(world: &mut W, name: &Text) -> Result<u32, OutputError>
    requires { (W.ledger world.old).given < 2 ^ 32 - 1 }
    ensures given { IfOk result
        (λ file. GivesCreated file (W.ledger world.old) (W.ledger world.new)) }
    ensures not_given { OnErr result
        (KeepsLedgerWriting (W.ledger world.old) (W.ledger world.new)) }
    ensures cause { IsErrOf result OutputError.WriteFault
        → WritingFailed W.ledger W.healthy world.old world.new }
    ensures stays_healthy { W.healthy world.old → W.healthy world.new }
    ensures shows { (p : Start) → W.honest p world.new
        → Writes result (Creates name.now ∷ []) (W.shows p world.old) (W.shows p world.new) }
    ensures output { (p : Start) → W.honest p world.new
        → IfOk result (λ file. IsOutput file name.now (W.shows p world.new)) }
    ensures keeps { (p : Start) → W.honest p world.new → (k : ℕ) (other : List ℕ)
        → IsTrue ((W.ledger world.old).created k) → ¬ (other ≡ name.now)
        → IsOutput k other (W.shows p world.old)
        → IfOk result (λ file. IsOutput k other (W.shows p world.new)) }
    ensures before { (p : Start) → W.honest p world.new → W.honest p world.old }
{
    let file = world.create_file(name)?;
    Ok(file)
}

/// Appends all these bytes to a created file, or to the report.
pub fn put_all<W: World>(world: &mut W, file: u32, bytes: &[u8]) -> Result<(), OutputError>
    requires { IsTrue (is_writable (W.ledger world.old) file) }
    ensures writes_on { WritesOn W.ledger W.healthy world.old world.new }
    ensures cause { IsErrOf result OutputError.WriteFault
        → WritingFailed W.ledger W.healthy world.old world.new }
    ensures shows { (p : Start) → W.honest p world.new
        → AppendsTo result file bytes.now (W.shows p world.old) (W.shows p world.new) }
    ensures before { (p : Start) → W.honest p world.new → W.honest p world.old }
{
    let mut sink = WorldSink::of(world, file);
    match write_all(&mut sink, bytes) {
        Ok(()) => Ok(()),
        Err(WriteError::Failed(_)) => Err(OutputError::WriteFault),
        Err(WriteError::NoMemory(_)) => Err(OutputError::NoMemory),
    }
}

/// Appends these bytes to an output.
pub fn append<W: World>(world: &mut W, file: u32, bytes: &[u8]) -> Result<(), OutputError>
    requires { IsTrue (is_writable (W.ledger world.old) file) }
    ensures only_writes { OnlyWrites W.ledger W.healthy world.old world.new }
    ensures cause { IsErrOf result OutputError.WriteFault
        → WritingFailed W.ledger W.healthy world.old world.new }
    ensures shows { (p : Start) → W.honest p world.new
        → (name : List ℕ) → IsOutput file name (W.shows p world.old)
        → Writes result (Appends name bytes.now ∷ []) (W.shows p world.old) (W.shows p world.new) }
    ensures keeps { (p : Start) → W.honest p world.new
        → KeepsOutputs (W.shows p world.old) (W.shows p world.new) }
    ensures before { (p : Start) → W.honest p world.new → W.honest p world.old }
{
    put_all(world, file, bytes)
}

/// Appends these bytes to the report.
pub fn report<W: World>(world: &mut W, bytes: &[u8]) -> Result<(), OutputError>
    ensures only_writes { OnlyWrites W.ledger W.healthy world.old world.new }
    ensures cause { IsErrOf result OutputError.WriteFault
        → WritingFailed W.ledger W.healthy world.old world.new }
    ensures shows { (p : Start) → W.honest p world.new
        → Writes result (Reports bytes.now ∷ []) (W.shows p world.old) (W.shows p world.new) }
    ensures keeps { (p : Start) → W.honest p world.new
        → KeepsOutputs (W.shows p world.old) (W.shows p world.new) }
    ensures before { (p : Start) → W.honest p world.new → W.honest p world.old }
{
    put_all(world, REPORT, bytes)
}
