ghost use Rattle.std.specs.Prelude.{◌≡◌, ◌<◌, ◌-◌, ◌^◌, IfOk, IsTrue, IsErrOf};
ghost use Rattle.world_io.specs.World.{Start, is_writable, WritingFailed};
ghost use Rattle.output_files.specs.Writes.{IsOutput};
ghost use Rattle.output_files.specs.Written.{Writes, WritesFiles};
ghost use Rattle.run_writes.specs.Run.{names_of, opening_writes};

use output_files::{OutputError, append, create};
use pcap_io::put_header;
use plain_text::{Packets, Text, Unit};
use script_text::Events;
use world_io::World;

/// What is run: the packets of a capture, on 1 to 16 threads, by the events of a script. Random words come from the
/// generator of the seed.
#[derive(Drop)]
pub struct ScriptRun {
    /// The number of threads, 1 to 16.
    pub threads: u32,
    /// Whether one tag is looked through.
    pub tags: bool,
    /// The seed of the generator of random words.
    pub seed: u64,
    /// What the fractions of the packets count.
    pub unit: Unit,
    /// The packets of the capture, in its order, at most 65,536.
    pub packets: Packets,
    /// The events of the script, in its order.
    pub events: Events,
}

/// The names of the two outputs of a run, which differ.
#[derive(Clone, Copy)]
pub struct RunFiles<'a> {
    /// The name of the capture of released packets.
    pub released: &'a Text,
    /// The name of the text of moves.
    pub schedule: &'a Text,
}

/// The outputs that were created, by their numbers.
#[derive(Clone, Copy)]
pub struct OutputFiles {
    /// The number of the capture of released packets.
    pub released: u32,
    /// The number of the text of moves.
    pub schedule: u32,
}

/// Creates the released capture, which gets its header, and then the schedule.
pub fn open_outputs<W: World>(
    world: &mut W,
    files: RunFiles<'_>,
    unit: Unit,
) -> Result<OutputFiles, OutputError>
    requires room { (W.ledger world.old).given < 2 ^ 32 - 2 }
    requires apart { files.released.now ≡ files.schedule.now → ⊥ }
    ensures writable { IfOk result
        (λ o. IsTrue (is_writable (W.ledger world.new) o.released)
        × IsTrue (is_writable (W.ledger world.new) o.schedule)) }
    ensures writes_files { WritesFiles W.ledger W.healthy 2 world.old world.new }
    ensures cause { IsErrOf result OutputError.WriteFault
        → WritingFailed W.ledger W.healthy world.old world.new }
    ensures shows { (p : Start) → W.honest p world.new
        → Writes result (opening_writes (names_of files.entry) unit)
        (W.shows p world.old) (W.shows p world.new) }
    ensures released { (p : Start) → W.honest p world.new
        → IfOk result
        (λ o. IsOutput o.released (names_of files.entry).released (W.shows p world.new)) }
    ensures schedule { (p : Start) → W.honest p world.new
        → IfOk result
        (λ o. IsOutput o.schedule (names_of files.entry).schedule (W.shows p world.new)) }
    ensures before { (p : Start) → W.honest p world.new → W.honest p world.old }
{
    let released = create(world, files.released)?;
    append(world, released, &put_header(unit))?;
    let schedule = create(world, files.schedule)?;
    Ok(OutputFiles { released, schedule })
}
