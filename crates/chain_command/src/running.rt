ghost use Rattle.std.specs.Prelude.{◌≡◌, ◌∷◌, ◌++◌, [], All, List, IsTrue, OnOk, IsErrOf, false};
ghost use Rattle.world_io.specs.World.{Start, Shown, is_writable, WritingFailed};
ghost use Rattle.recovery_world.specs.World.{Setting};
ghost use Rattle.output_files.specs.Writes.{KeepsOutputs};
ghost use Rattle.output_files.specs.Written.{OnlyWrites};
ghost use Rattle.chain_world.specs.declared.chain_event.ChainEvent.{ChainEvent as EventOfChain};
ghost use Rattle.chain_world.specs.Chain.{NamesSystem};
ghost use Rattle.chain_command.specs.Outputs.{ChainNames};
ghost use Rattle.chain_command.specs.Running.{AreOpen, GoesOn, HasCome, IsSomewhere};

use crate::opening::ChainNumbers;
use crate::performing::perform;
use crate::replying::write_performed;
use box_program::Program;
use chain_box::Chain;
use chain_world::ChainEvent;
use plain_text::Bytes;
use run_writes::RunError;
use std::alloc::Global;
use world_io::World;

/// Performs an event of a chain, and writes what it leaves: the records of what was released, and then its line, which
/// may be gathered. Where it stops at a limit, what was released before and all lines before it are written.
fn perform_event<P: Program, Q: Program, W: World>(
    alloc: Global,
    world: &mut W,
    files: ChainNumbers,
    chain: &mut Chain<P, Q>,
    event: &ChainEvent,
    lines: &mut Bytes,
) -> Result<(), RunError>
    requires runs { chain.old.stopped ≡ false }
    requires which { NamesSystem event.now }
    requires somewhere { IsSomewhere P.meaning Q.meaning chain.old }
    requires middle { IsTrue (is_writable (W.ledger world.old) files.middle) }
    requires released { IsTrue (is_writable (W.ledger world.old) files.released) }
    ensures runs { OnOk result (chain.new.stopped ≡ false) }
    ensures somewhere { OnOk result (IsSomewhere P.meaning Q.meaning chain.new) }
    ensures only_writes { OnlyWrites W.ledger W.healthy world.old world.new }
    ensures cause { IsErrOf result RunError.WriteFault
        → WritingFailed W.ledger W.healthy world.old world.new }
    ensures shows { (p : Start) → W.honest p world.new
        → (s : Setting P.Value) (r : Setting Q.Value) (names : ChainNames)
        (events : List EventOfChain) (before : Shown)
        → AreOpen names files (W.shows p world.old)
        → HasCome P.meaning Q.meaning s r names events chain.old lines.old before
        (W.shows p world.old)
        → GoesOn result P.meaning Q.meaning s r names (events ++ event.now ∷ [])
        chain.new lines.new before (W.shows p world.new) }
    ensures keeps { (p : Start) → W.honest p world.new
        → KeepsOutputs (W.shows p world.old) (W.shows p world.new) }
    ensures before { (p : Start) → W.honest p world.new → W.honest p world.old }
{
    let performed = perform(chain, event)?;
    write_performed(alloc, world, files, lines, event, &performed)
}

/// Performs the events of a script, in order, and writes what each leaves before the next one's.
pub fn perform_events<P: Program, Q: Program, W: World>(
    alloc: Global,
    world: &mut W,
    files: ChainNumbers,
    chain: &mut Chain<P, Q>,
    events: &[ChainEvent],
    lines: &mut Bytes,
) -> Result<(), RunError>
    requires runs { chain.old.stopped ≡ false }
    requires which { All NamesSystem events.now }
    requires somewhere { IsSomewhere P.meaning Q.meaning chain.old }
    requires middle { IsTrue (is_writable (W.ledger world.old) files.middle) }
    requires released { IsTrue (is_writable (W.ledger world.old) files.released) }
    ensures runs { OnOk result (chain.new.stopped ≡ false) }
    ensures only_writes { OnlyWrites W.ledger W.healthy world.old world.new }
    ensures cause { IsErrOf result RunError.WriteFault
        → WritingFailed W.ledger W.healthy world.old world.new }
    ensures shows { (p : Start) → W.honest p world.new
        → (s : Setting P.Value) (r : Setting Q.Value) (names : ChainNames) (before : Shown)
        → AreOpen names files (W.shows p world.old)
        → HasCome P.meaning Q.meaning s r names [] chain.old lines.old before
        (W.shows p world.old)
        → GoesOn result P.meaning Q.meaning s r names events.now
        chain.new lines.new before (W.shows p world.new) }
    ensures keeps { (p : Start) → W.honest p world.new
        → KeepsOutputs (W.shows p world.old) (W.shows p world.new) }
    ensures before { (p : Start) → W.honest p world.new → W.honest p world.old }
{
    for event in events {
        perform_event(alloc, world, files, chain, event, lines)?;
    }
    Ok(())
}
