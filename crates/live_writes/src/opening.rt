ghost use Rattle.std.specs.Prelude.{◌≡◌, ◌<◌, ◌-◌, ◌^◌, IfOk, IsTrue, IsErrOf};
ghost use Rattle.world_io.specs.World.{Start, is_writable, WritingFailed};
ghost use Rattle.output_files.specs.Written.{Writes, WritesFiles};
ghost use Rattle.live_writes.specs.Outputs.{AreApart, names_of};
ghost use Rattle.live_writes.specs.Told.{AreOpen};
ghost use Rattle.live_writes.specs.Whole.{live_opening};

use output_files::{OutputError, create};
use plain_text::{Packets, Text, Unit};
use plan_script::Plan;
use run_writes::{RunFiles, open_outputs};
use world_io::World;

/// What is run by a plan: the packets of a capture, on 1 to 16 threads. Random words of thread t come from the
/// generator of the seed on stream 55 + t.
#[derive(Drop)]
pub struct PlanRun {
    /// The number of threads, 1 to 16.
    pub threads: u32,
    /// Whether one tag is looked through.
    pub tags: bool,
    /// The seed of the generators of random words.
    pub seed: u64,
    /// What the fractions of the packets count.
    pub unit: Unit,
    /// The packets of the capture, in its order, at most 65,536.
    pub packets: Packets,
    /// The lines of the plan, in its order.
    pub plan: Plan,
}

/// The names of the three outputs of a run by a plan, which differ.
#[derive(Clone, Copy)]
pub struct LiveFiles<'a> {
    /// The name of the capture of released packets.
    pub released: &'a Text,
    /// The name of the text of moves.
    pub schedule: &'a Text,
    /// The name of the text of the events that happened.
    pub script: &'a Text,
}

/// The outputs that were created, by their numbers.
#[derive(Clone, Copy)]
pub struct LiveNumbers {
    /// The number of the capture of released packets.
    pub released: u32,
    /// The number of the text of moves.
    pub schedule: u32,
    /// The number of the text of events.
    pub script: u32,
}

/// Creates the released capture, which gets its header, then the schedule, and then the script.
pub fn open_live<W: World>(
    world: &mut W,
    files: LiveFiles<'_>,
    unit: Unit,
) -> Result<LiveNumbers, OutputError>
    requires room { (W.ledger world.old).given < 2 ^ 32 - 3 }
    requires apart { AreApart (names_of files) }
    ensures writable { IfOk result (λ o. IsTrue (is_writable (W.ledger world.new) o.released)
        × IsTrue (is_writable (W.ledger world.new) o.schedule)
        × IsTrue (is_writable (W.ledger world.new) o.script)) }
    ensures writes_files { WritesFiles W.ledger W.healthy 3 world.old world.new }
    ensures cause { IsErrOf result OutputError.WriteFault
        → WritingFailed W.ledger W.healthy world.old world.new }
    ensures shows { (p : Start) → W.honest p world.new
        → Writes result (live_opening (names_of files.entry) unit)
        (W.shows p world.old) (W.shows p world.new) }
    ensures open { (p : Start) → W.honest p world.new
        → IfOk result (λ o. AreOpen (names_of files.entry)
        o.released o.schedule o.script (W.shows p world.new)) }
    ensures before { (p : Start) → W.honest p world.new → W.honest p world.old }
{
    let outputs = open_outputs(
        world,
        RunFiles {
            released: files.released,
            schedule: files.schedule,
        },
        unit,
    )?;
    let script = create(world, files.script)?;
    Ok(LiveNumbers {
        released: outputs.released,
        schedule: outputs.schedule,
        script,
    })
}
