//! Lines of the report and of the script are gathered, and written where something else is to be written behind them.
ghost use Rattle.std.specs.Prelude.{◌≡◌, ◌∷◌, ◌++◌, ◌≤◌, [], List, ℕ, length, OnOk, IsTrue};
ghost use Rattle.std.specs.Prelude.{IsErrOf};
ghost use Rattle.plain_text.specs.declared.limit.Limit.{Limit as LimitKind};
ghost use Rattle.plain_text.specs.declared.limit.TheConstants.{MOST_EVENTS as most_events};
ghost use Rattle.plain_text.specs.declared.limit.TheConstants.{MOST_FILE_BYTES as most_bytes};
ghost use Rattle.world_io.specs.World.{Start, Shown, is_writable, WritingFailed};
ghost use Rattle.recovery_world.specs.declared.event.Event.{Event as EventKind};
ghost use Rattle.recovery_world.specs.World.{Setting, World as SystemWorld};
ghost use Rattle.output_files.specs.Writes.{IsOutput, KeepsOutputs};
ghost use Rattle.output_files.specs.Written.{OnlyWrites};
ghost use Rattle.live_writes.specs.Outputs.{AreApart, LiveOutputs};
ghost use Rattle.live_writes.specs.Told.{FailsLive, HasTold};
ghost use Rattle.live_command.specs.Writing.{Adds, IsQuiet, Keeps};

use live_writes::Script;
use output_files::{OutputError, write_lines};
use plain_text::Bytes;
use recovery_world::Event;
use run_writes::RunError;
use world_io::World;

/// The bytes of lines that are gathered before they are written, at most, but for the last lines.
const GATHERED: usize = 65_536;

/// Writes the gathered lines of the script.
pub(crate) fn write_script<X, W: World>(
    world: &mut W,
    file: u32,
    script: &mut Script,
) -> Result<(), OutputError>
    requires { IsTrue (is_writable (W.ledger world.old) file) }
    ensures told { (p : Start) → W.honest p world.new → (s : Setting X) (names : LiveOutputs)
        (events scripted : List EventKind) (w : SystemWorld X) (lines : List ℕ) (before : Shown)
        → AreApart names → IsOutput file names.script (W.shows p world.old)
        → HasTold s names events scripted w lines script.old before (W.shows p world.old)
        → Keeps result s names events scripted w lines script.new before (W.shows p world.new) }
    ensures none { OnOk result (script.new.text ≡ []) }
    ensures count { script.new.count ≡ script.old.count }
    ensures size { script.new.size ≡ script.old.size }
    ensures only_writes { OnlyWrites W.ledger W.healthy world.old world.new }
    ensures cause { IsErrOf result OutputError.WriteFault
        → WritingFailed W.ledger W.healthy world.old world.new }
    ensures keeps { (p : Start) → W.honest p world.new
        → KeepsOutputs (W.shows p world.old) (W.shows p world.new) }
    ensures before { (p : Start) → W.honest p world.new → W.honest p world.old }
{
    script.write(world, file)
}

/// Writes the gathered lines, those of the script first.
pub(crate) fn flush<X, W: World>(
    world: &mut W,
    file: u32,
    lines: &mut Bytes,
    script: &mut Script,
) -> Result<(), OutputError>
    requires { IsTrue (is_writable (W.ledger world.old) file) }
    ensures told { (p : Start) → W.honest p world.new → (s : Setting X) (names : LiveOutputs)
        (events scripted : List EventKind) (w : SystemWorld X) (before : Shown)
        → AreApart names → IsOutput file names.script (W.shows p world.old)
        → HasTold s names events scripted w lines.old script.old before (W.shows p world.old)
        → Keeps result s names events scripted w lines.new script.new before
        (W.shows p world.new) }
    ensures no_lines { OnOk result (lines.new ≡ []) }
    ensures no_text { OnOk result (script.new.text ≡ []) }
    ensures count { script.new.count ≡ script.old.count }
    ensures size { script.new.size ≡ script.old.size }
    ensures only_writes { OnlyWrites W.ledger W.healthy world.old world.new }
    ensures cause { IsErrOf result OutputError.WriteFault
        → WritingFailed W.ledger W.healthy world.old world.new }
    ensures keeps { (p : Start) → W.honest p world.new
        → KeepsOutputs (W.shows p world.old) (W.shows p world.new) }
    ensures before { (p : Start) → W.honest p world.new → W.honest p world.old }
{
    write_script::<X, W>(world, file, script)?;
    write_lines(world, lines)
}

/// Gathers the script's line of an event that was performed. Where the script would pass a limit with it, all that is
/// gathered is written.
pub(crate) fn add_line<X, W: World>(
    world: &mut W,
    file: u32,
    lines: &mut Bytes,
    script: &mut Script,
    event: &Event,
) -> Result<(), RunError>
    requires writable { IsTrue (is_writable (W.ledger world.old) file) }
    requires few { script.old.count ≤ most_events }
    requires short { script.old.size ≤ most_bytes }
    ensures told { (p : Start) → W.honest p world.new
        → (s : Setting X) (names : LiveOutputs) (events : List EventKind)
        (w : SystemWorld X) (before : Shown)
        → AreApart names → IsOutput file names.script (W.shows p world.old)
        → HasTold s names events events w lines.old script.old before (W.shows p world.old)
        → Adds result s names events event.now w lines.new script.new before
        (W.shows p world.new) }
    ensures few { script.new.count ≤ most_events }
    ensures short { script.new.size ≤ most_bytes }
    ensures only_writes { OnlyWrites W.ledger W.healthy world.old world.new }
    ensures cause { IsErrOf result RunError.WriteFault
        → WritingFailed W.ledger W.healthy world.old world.new }
    ensures keeps { (p : Start) → W.honest p world.new
        → KeepsOutputs (W.shows p world.old) (W.shows p world.new) }
    ensures before { (p : Start) → W.honest p world.new → W.honest p world.old }
{
    match script.add(event) {
        Ok(()) => Ok(()),
        Err(RunError::Limit(limit)) => {
            flush::<X, W>(world, file, lines, script)?;
            Err(RunError::Limit(limit))
        }
        Err(RunError::WriteFault) => Err(RunError::WriteFault),
        Err(RunError::NoMemory) => Err(RunError::NoMemory),
    }
}

/// Gathers the report's line of an event that released nothing, behind its line of the script. Where much is gathered
/// it is written.
pub(crate) fn gather<X, W: World>(
    world: &mut W,
    file: u32,
    lines: &mut Bytes,
    script: &mut Script,
    line: &[u8],
) -> Result<(), OutputError>
    requires { IsTrue (is_writable (W.ledger world.old) file) }
    ensures told { (p : Start) → W.honest p world.new
        → (s : Setting X) (names : LiveOutputs) (events : List EventKind)
        (ev : EventKind) (w next : SystemWorld X) (before : Shown)
        → AreApart names → IsOutput file names.script (W.shows p world.old)
        → HasTold s names events (events ++ ev ∷ []) w lines.old script.old before
        (W.shows p world.old) → IsQuiet s w ev line.now next
        → Keeps result s names (events ++ ev ∷ []) (events ++ ev ∷ []) next lines.new
        script.new before (W.shows p world.new) }
    ensures gathered { OnOk result
        ((length lines.new ≤ 65536) × (length script.new.text ≤ 65536)) }
    ensures count { script.new.count ≡ script.old.count }
    ensures size { script.new.size ≡ script.old.size }
    ensures only_writes { OnlyWrites W.ledger W.healthy world.old world.new }
    ensures cause { IsErrOf result OutputError.WriteFault
        → WritingFailed W.ledger W.healthy world.old world.new }
    ensures keeps { (p : Start) → W.honest p world.new
        → KeepsOutputs (W.shows p world.old) (W.shows p world.new) }
    ensures before { (p : Start) → W.honest p world.new → W.honest p world.old }
{
    lines.extend(line)?;
    if lines.len() > GATHERED || script.gathered() > GATHERED {
        return flush::<X, W>(world, file, lines, script);
    }
    Ok(())
}
