//! Messages arrive, one after another.
ghost use Rattle.std.specs.Prelude.{◌≡◌, ◌≤◌, List, ℕ, OnOk, IsTrue, IsErrOf, false};
ghost use Rattle.plain_text.specs.declared.limit.TheConstants.{MOST_EVENTS as most_events};
ghost use Rattle.plain_text.specs.declared.limit.TheConstants.{MOST_FILE_BYTES as most_bytes};
ghost use Rattle.world_io.specs.World.{Start, Shown, is_writable, WritingFailed};
ghost use Rattle.recovery_world.specs.declared.event.Event.{Event as EventKind};
ghost use Rattle.recovery_world.specs.Many.{arrival};
ghost use Rattle.recovery_world.specs.World.{Setting, World as SystemWorld};
ghost use Rattle.output_files.specs.Writes.{KeepsOutputs};
ghost use Rattle.output_files.specs.Written.{OnlyWrites};
ghost use Rattle.plan_script.specs.Rounds.{arrival_events};
ghost use Rattle.run_command.specs.Running.{IsSomewhere};
ghost use Rattle.live_writes.specs.Outputs.{AreApart, LiveOutputs};
ghost use Rattle.live_writes.specs.Told.{AreOpen};
ghost use Rattle.live_command.specs.Going.{GoesOver, HasLivedTo};

use crate::performing::tell;
use box_program::Program;
use frame_intake::FrameName;
use live_writes::{LiveNumbers, Script};
use plain_text::{Bytes, Kind};
use recovery_world::Event;
use run_command::System;
use run_writes::RunError;
use std::alloc::Global;
use world_io::World;

/// The event in which a frame arrives.
fn arrival_of(frame: FrameName) -> Event
    ensures { result ≡ arrival frame }
{
    match frame.kind {
        Kind::Log => Event::Log {
            thread: frame.thread,
            number: frame.number,
        },
        Kind::Out => Event::Out {
            thread: frame.thread,
            number: frame.number,
        },
    }
}

/// These frames arrive, in their order.
pub(crate) fn arrive<P: Program, W: World>(
    alloc: Global,
    world: &mut W,
    files: LiveNumbers,
    lines: &mut Bytes,
    script: &mut Script,
    system: &mut System<P>,
    frames: &[FrameName],
) -> Result<(), RunError>
    requires runs { system.old.stopped ≡ false }
    requires somewhere { IsSomewhere (P.meaning system.old.parts.program) system.old }
    requires released { IsTrue (is_writable (W.ledger world.old) files.released) }
    requires script { IsTrue (is_writable (W.ledger world.old) files.script) }
    requires few { script.old.count ≤ most_events }
    requires short { script.old.size ≤ most_bytes }
    ensures told { (p : Start) → W.honest p world.new → (s : Setting P.Value) (names : LiveOutputs)
        (events : List EventKind) (w : SystemWorld P.Value) (before : Shown) → AreApart names
        → AreOpen names files.released files.schedule files.script (W.shows p world.old)
        → HasLivedTo (P.meaning system.old.parts.program) s names events w system.old lines.old
        script.old before (W.shows p world.old)
        → GoesOver result (P.meaning system.old.parts.program) s names w events
        (arrival_events frames.now) system.new lines.new script.new before
        (W.shows p world.new) }
    ensures few { script.new.count ≤ most_events }
    ensures short { script.new.size ≤ most_bytes }
    ensures runs { OnOk result (system.new.stopped ≡ false) }
    ensures somewhere { OnOk result
        (IsSomewhere (P.meaning system.old.parts.program) system.new) }
    ensures program { OnOk result (system.new.parts.program ≡ system.old.parts.program) }
    ensures threads { OnOk result
        (system.new.parts.inputs.threads ≡ system.old.parts.inputs.threads) }
    ensures only_writes { OnlyWrites W.ledger W.healthy world.old world.new }
    ensures cause { IsErrOf result RunError.WriteFault
        → WritingFailed W.ledger W.healthy world.old world.new }
    ensures keeps { (p : Start) → W.honest p world.new
        → KeepsOutputs (W.shows p world.old) (W.shows p world.new) }
    ensures before { (p : Start) → W.honest p world.new → W.honest p world.old }
{
    for frame in frames {
        let event = arrival_of(*frame);
        tell(alloc, world, files, lines, script, system, &event)?;
    }
    Ok(())
}
