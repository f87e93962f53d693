ghost use Rattle.std.specs.Prelude.{◌≡◌, ◌∷◌, ◌++◌, [], List, ℕ, IfOk, OnOk, IsTrue, IsErrOf};
ghost use Rattle.world_io.specs.World.{Start, Shown, is_writable, WritingFailed};
ghost use Rattle.output_files.specs.Writes.{Write, Appends, Reports, HasGathered, IsOutput};
ghost use Rattle.output_files.specs.Writes.{KeepsOutputs};
ghost use Rattle.output_files.specs.Written.{Writes, OnlyWrites};
ghost use Rattle.run_writes.specs.Run.{counts_line};

use output_files::{OutputError, append, report, write_lines};
use plain_text::{Bytes, NoMemory, put_u64};
use std::alloc::Global;
use world_io::World;

/// Appends the last line of a report, with these counts.
fn put_counts(text: &mut Bytes, fed: u64, epoch: u32, released: u64) -> Result<(), NoMemory>
    ensures { OnOk result (text.new ≡ text.old ++ counts_line fed epoch released) }
{
    text.extend(b"done fed ")?;
    put_u64(text, fed)?;
    text.extend(b" epoch ")?;
    put_u64(text, u64::from(epoch))?;
    text.extend(b" released ")?;
    put_u64(text, released)?;
    text.push(b'\n')
}

/// The last line of a report: how many packets were fed, the epoch, and how many outputs were released.
pub fn put_done(alloc: Global, fed: u64, epoch: u32, released: u64) -> Result<Bytes, NoMemory>
    ensures { IfOk result (λ text. text ≡ counts_line fed epoch released) }
{
    let mut text = Bytes::new(alloc);
    put_counts(&mut text, fed, epoch, released)?;
    Ok(text)
}

/// Writes the end of a run: the lines that are gathered, the text of the schedule, and the last line.
pub fn write_closing<W: World>(
    world: &mut W,
    file: u32,
    lines: &mut Bytes,
    schedule: &[u8],
    last: &[u8],
) -> Result<(), OutputError>
    requires { IsTrue (is_writable (W.ledger world.old) file) }
    ensures only_writes { OnlyWrites W.ledger W.healthy world.old world.new }
    ensures cause { IsErrOf result OutputError.WriteFault
        → WritingFailed W.ledger W.healthy world.old world.new }
    ensures shows { (p : Start) → W.honest p world.new
        → (before : Shown) (writes : List Write) (name : List ℕ)
        → IsOutput file name (W.shows p world.old)
        → HasGathered writes lines.old before (W.shows p world.old)
        → Writes result (writes ++ (Appends name schedule.now ∷ Reports last.now ∷ [])) before
        (W.shows p world.new) }
    ensures keeps { (p : Start) → W.honest p world.new
        → KeepsOutputs (W.shows p world.old) (W.shows p world.new) }
    ensures before { (p : Start) → W.honest p world.new → W.honest p world.old }
{
    write_lines(world, lines)?;
    append(world, file, schedule)?;
    report(world, last)
}
