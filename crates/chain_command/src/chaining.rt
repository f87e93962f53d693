ghost use Rattle.std.specs.Prelude.{◌≡◌, ◌<◌, ◌-◌, ◌^◌, [], All, IfOk, IsTrue, OnOk, IsErrOf, Err};
ghost use Rattle.std.specs.Prelude.{◌≤◌};
ghost use Rattle.std.specs.Prelude.{false};
ghost use Rattle.plain_text.specs.declared.limit.Limit.{Limit as LimitKind};
ghost use Rattle.plain_text.specs.Packets.{IsShort};
ghost use Rattle.world_io.specs.World.{Start, is_writable, WritingFailed};
ghost use Rattle.recovery_world.specs.World.{Setting};
ghost use Rattle.output_files.specs.Written.{WritesFiles};
ghost use Rattle.chain_world.specs.Chain.{NamesSystem, chain_opening};
ghost use Rattle.chain_command.specs.Headline.{KeepsChainPromise};
ghost use Rattle.chain_command.specs.Outputs.{AreApart, CanChain, names_of};
ghost use Rattle.chain_command.specs.Outputs.{first_setting, second_setting, setting_with};
ghost use Rattle.chain_command.specs.Running.{AreOpen, GoesOn, IsChainAt, IsSomewhere};
ghost use Rattle.chain_command.specs.Writes.{HasBegunChain, HasChained, HasStopped};

use crate::ending::close_chain;
use crate::opening::{ChainFiles, ChainNumbers, ChainRun, SystemShape, open_chain};
use crate::running::perform_events;
use box_program::Program;
use chain_box::{Chain, System};
use chain_world::ChainEvent;
use plain_text::{Bytes, NoMemory, Packets, Unit};
use run_writes::{RunError, written};
use std::alloc::Global;
use world_io::World;

/// Two systems in a chain, before the first event: the first on these packets, the second without any.
fn open_systems<P: Program, Q: Program>(
    alloc: Global,
    shapes: (SystemShape, SystemShape),
    unit: Unit,
    packets: Packets,
    first: P,
    second: Q,
) -> Result<Chain<P, Q>, NoMemory>
    requires some_first { 1 ≤ shapes.0.threads }
    requires few_first { shapes.0.threads ≤ 16 }
    requires some_second { 1 ≤ shapes.1.threads }
    requires few_second { shapes.1.threads ≤ 16 }
    requires short { All IsShort packets }
    ensures runs { IfOk result (λ chain. chain.stopped ≡ false) }
    ensures at { IfOk result (λ chain. IsChainAt P.meaning Q.meaning
        (setting_with (P.meaning first) shapes.0 unit packets)
        (setting_with (Q.meaning second) shapes.1 unit [])
        (chain_opening P.Value Q.Value) chain) }
{
    let (shape, other) = shapes;
    let first = System::new(
        alloc,
        first,
        shape.threads,
        shape.tags,
        shape.seed,
        unit,
        packets,
    )?;
    let none = Packets::new(alloc);
    match System::new(
        alloc,
        second,
        other.threads,
        other.tags,
        other.seed,
        unit,
        none,
    ) {
        Ok(second) => Ok(Chain::new(first, second)),
        Err(no_memory) => {
            first.discard();
            Err(no_memory)
        }
    }
}

/// Creates the outputs, and performs the events of a script and writes what each leaves. Gives the numbers of the
/// outputs.
fn write_events<P: Program, Q: Program, W: World>(
    alloc: Global,
    world: &mut W,
    files: ChainFiles<'_>,
    unit: Unit,
    events: &[ChainEvent],
    chain: &mut Chain<P, Q>,
    lines: &mut Bytes,
) -> Result<ChainNumbers, RunError>
    requires room { (W.ledger world.old).given < 2 ^ 32 - 4 }
    requires apart { AreApart (names_of files) }
    requires runs { chain.old.stopped ≡ false }
    requires which { All NamesSystem events.now }
    requires somewhere { IsSomewhere P.meaning Q.meaning chain.old }
    requires none { lines.old ≡ [] }
    ensures first { IfOk result
        (λ o. IsTrue (is_writable (W.ledger world.new) o.first_schedule)) }
    ensures second { IfOk result
        (λ o. IsTrue (is_writable (W.ledger world.new) o.second_schedule)) }
    ensures runs { OnOk result (chain.new.stopped ≡ false) }
    ensures writes_files { WritesFiles W.ledger W.healthy 4 world.old world.new }
    ensures cause { IsErrOf result RunError.WriteFault
        → WritingFailed W.ledger W.healthy world.old world.new }
    ensures shows { (p : Start) → W.honest p world.new
        → (s : Setting P.Value) (r : Setting Q.Value) → s.fractions ≡ unit
        → IsChainAt P.meaning Q.meaning s r (chain_opening P.Value Q.Value) chain.old
        → GoesOn result P.meaning Q.meaning s r (names_of files.entry) events.now
        chain.new lines.new (W.shows p world.old) (W.shows p world.new) }
    ensures open { (p : Start) → W.honest p world.new
        → IfOk result (λ o. AreOpen (names_of files.entry) o (W.shows p world.new)) }
    ensures before { (p : Start) → W.honest p world.new → W.honest p world.old }
{
    let outputs = open_chain(world, files, unit)?;
    perform_events(alloc, world, outputs, chain, events, lines)?;
    Ok(outputs)
}

/// Runs two programs in a chain, the first on the packets and the second on what the first releases, by the events of a
/// script, and writes the outputs.
///
/// The outputs are created first, in their order, and the two captures get their headers. After each event the records
/// of what it released are written, and then its line of the report; lines may be gathered until an event releases
/// something. When all events were performed, the schedules and the last two lines are written.
pub fn run_chain<P: Program, Q: Program, W: World>(
    alloc: Global,
    world: &mut W,
    files: ChainFiles<'_>,
    run: ChainRun,
    first: P,
    second: Q,
) -> Result<(), RunError>
    requires inputs { CanChain run }
    requires room { (W.ledger world.old).given < 2 ^ 32 - 4 }
    requires apart { AreApart (names_of files) }
    ensures writes_files { WritesFiles W.ledger W.healthy 4 world.old world.new }
    ensures cause { IsErrOf result RunError.WriteFault
        → WritingFailed W.ledger W.healthy world.old world.new }

    // What a chain leaves that is done: the outputs, whole.
    ensures whole { (p : Start) → W.honest p world.new
        → OnOk result (HasChained (first_setting (P.meaning first) run)
        (second_setting (Q.meaning second) run) (names_of files.entry) run.events
        (W.shows p world.old) (W.shows p world.new)) }

    // The promise of a system alone, of each: of the first on the capture with SCHEDULE1 and
    // MIDDLE, and of the second on the packets of MIDDLE with SCHEDULE2 and RELEASED.
    ensures headline { (p : Start) → W.honest p world.new
        → OnOk result (KeepsChainPromise (first_setting (P.meaning first) run)
        (second_setting (Q.meaning second) run) (names_of files.entry) run.events
        (W.shows p world.new)) }

    // What one leaves that a limit stopped, and some first part of what it writes, wherever it
    // ends.
    ensures limit { (p : Start) → W.honest p world.new
        → (limit : LimitKind) → result ≡ Err (RunError.Limit limit)
        → HasStopped (first_setting (P.meaning first) run)
        (second_setting (Q.meaning second) run) (names_of files.entry) run.events limit
        (W.shows p world.old) (W.shows p world.new) }
    ensures in_order { (p : Start) → W.honest p world.new
        → HasBegunChain (first_setting (P.meaning first) run)
        (second_setting (Q.meaning second) run) (names_of files.entry) run.events
        (W.shows p world.old) (W.shows p world.new) }
    ensures before { (p : Start) → W.honest p world.new → W.honest p world.old }
{
    let shapes = (run.first, run.second);
    let mut chain = open_systems(alloc, shapes, run.unit, run.packets, first, second)?;
    let mut lines = Bytes::new(alloc);
    let events = run.events.as_slice();
    match write_events(
        alloc, world, files, run.unit, events, &mut chain, &mut lines,
    ) {
        Ok(outputs) => written(close_chain(alloc, world, outputs, chain, &mut lines)),
        Err(error) => {
            chain.discard();
            Err(error)
        }
    }
}
