ghost use Rattle.std.specs.Prelude.{◌≡◌, ◌<◌, ◌-◌, ◌^◌, ℕ, List, IfOk, IsTrue, IsErrOf};
ghost use Rattle.world_io.specs.World.{Start, is_writable, WritingFailed};
ghost use Rattle.output_files.specs.Writes.{IsOutput};
ghost use Rattle.output_files.specs.Written.{Writes, WritesFiles};
ghost use Rattle.chain_command.specs.Outputs.{AreApart, names_of};
ghost use Rattle.chain_command.specs.Running.{AreOpen};
ghost use Rattle.chain_command.specs.Writes.{capture_opening, opening_writes};

use chain_text::ChainEvents;
use output_files::{OutputError, append, create};
use pcap_io::put_header;
use plain_text::{Packets, Text, Unit};
use world_io::World;

/// On how many threads a system runs, whether it looks through one tag, and with which seed.
#[derive(Clone, Copy)]
pub struct SystemShape {
    /// The number of threads, 1 to 16.
    pub threads: u32,
    /// Whether one tag is looked through.
    pub tags: bool,
    /// The seed of the generator of random words.
    pub seed: u64,
}

/// What is run: two systems, the first on the packets of a capture, and the second on what the first releases, by the
/// events of a script.
#[derive(Drop)]
pub struct ChainRun {
    pub first: SystemShape,
    pub second: SystemShape,
    /// What the fractions of the packets count.
    pub unit: Unit,
    /// The packets of the capture, in its order, at most 65,536.
    pub packets: Packets,
    /// The events of the script, in its order, each of system 1 or 2.
    pub events: ChainEvents,
}

/// The names of the four outputs of a chain, which differ.
#[derive(Clone, Copy)]
pub struct ChainFiles<'a> {
    /// The name of the capture of what the first system releases.
    pub middle: &'a Text,
    /// The name of the capture of what the second releases.
    pub released: &'a Text,
    /// The name of the text of the first system's moves.
    pub first_schedule: &'a Text,
    /// The name of the text of the second's.
    pub second_schedule: &'a Text,
}

/// The outputs that were created, by their numbers.
#[derive(Clone, Copy)]
pub struct ChainNumbers {
    /// The number of the capture of what the first system releases.
    pub middle: u32,
    /// The number of the capture of what the second releases.
    pub released: u32,
    /// The number of the text of the first system's moves.
    pub first_schedule: u32,
    /// The number of the text of the second's.
    pub second_schedule: u32,
}

/// Creates a capture, which gets its header.
fn open_capture<W: World>(world: &mut W, name: &Text, unit: Unit) -> Result<u32, OutputError>
    requires { (W.ledger world.old).given < 2 ^ 32 - 1 }
    ensures created { IfOk result (λ file. IsTrue ((W.ledger world.new).created file)) }
    ensures still { (k : ℕ) → IsTrue ((W.ledger world.old).created k)
        → IfOk result (λ file. IsTrue ((W.ledger world.new).created k)) }
    ensures writes_files { WritesFiles W.ledger W.healthy 1 world.old world.new }
    ensures cause { IsErrOf result OutputError.WriteFault
        → WritingFailed W.ledger W.healthy world.old world.new }
    ensures shows { (p : Start) → W.honest p world.new
        → Writes result (capture_opening name.now unit) (W.shows p world.old)
        (W.shows p world.new) }
    ensures output { (p : Start) → W.honest p world.new
        → IfOk result (λ file. IsOutput file name.now (W.shows p world.new)) }
    ensures keeps { (p : Start) → W.honest p world.new → (k : ℕ) (other : List ℕ)
        → IsTrue ((W.ledger world.old).created k) → ¬ (other ≡ name.now)
        → IsOutput k other (W.shows p world.old)
        → IfOk result (λ file. IsOutput k other (W.shows p world.new)) }
    ensures before { (p : Start) → W.honest p world.new → W.honest p world.old }
{
    let file = create(world, name)?;
    append(world, file, &put_header(unit))?;
    Ok(file)
}

/// Creates the outputs in their order, and the captures get their headers.
pub fn open_chain<W: World>(
    world: &mut W,
    files: ChainFiles<'_>,
    unit: Unit,
) -> Result<ChainNumbers, OutputError>
    requires room { (W.ledger world.old).given < 2 ^ 32 - 4 }
    requires apart { AreApart (names_of files) }
    ensures writable { IfOk result (λ o. IsTrue (is_writable (W.ledger world.new) o.middle)
        × IsTrue (is_writable (W.ledger world.new) o.released)
        × IsTrue (is_writable (W.ledger world.new) o.first_schedule)
        × IsTrue (is_writable (W.ledger world.new) o.second_schedule)) }
    ensures writes_files { WritesFiles W.ledger W.healthy 4 world.old world.new }
    ensures cause { IsErrOf result OutputError.WriteFault
        → WritingFailed W.ledger W.healthy world.old world.new }
    ensures shows { (p : Start) → W.honest p world.new
        → Writes result (opening_writes (names_of files.entry) unit)
        (W.shows p world.old) (W.shows p world.new) }
    ensures open { (p : Start) → W.honest p world.new
        → IfOk result (λ o. AreOpen (names_of files.entry) o (W.shows p world.new)) }
    ensures before { (p : Start) → W.honest p world.new → W.honest p world.old }
{
    let middle = open_capture(world, files.middle, unit)?;
    let released = open_capture(world, files.released, unit)?;
    let first_schedule = create(world, files.first_schedule)?;
    let second_schedule = create(world, files.second_schedule)?;
    Ok(ChainNumbers {
        middle,
        released,
        first_schedule,
        second_schedule,
    })
}
