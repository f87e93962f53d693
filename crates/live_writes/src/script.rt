ghost use Rattle.std.specs.Prelude.{◌≡◌, ◌≤◌, ◌+◌, ◌∷◌, [], List, ℕ, length, IsTrue, IsErrOf, OnOk};
ghost use Rattle.std.specs.Prelude.{Err};
ghost use Rattle.plain_text.specs.declared.limit.Limit.{Limit as LimitKind};
ghost use Rattle.plain_text.specs.declared.limit.TheConstants.{MOST_EVENTS as most_events};
ghost use Rattle.plain_text.specs.declared.limit.TheConstants.{MOST_FILE_BYTES as most_bytes};
ghost use Rattle.world_io.specs.World.{Start, is_writable, WritingFailed};
ghost use Rattle.output_files.specs.Writes.{Appends, IsOutput, KeepsOutputs};
ghost use Rattle.output_files.specs.Written.{OnlyWrites, Writes};
ghost use Rattle.std.specs.String.{string_bytes};
ghost use Rattle.script_text.specs.Scripts.{FitsWords};
ghost use Rattle.live_writes.specs.Script.{PassesScript, line_of, no_script, with_line};

use output_files::{OutputError, append};
use plain_text::{Bytes, Limit, MOST_EVENTS, MOST_FILE_BYTES, NoMemory};
use recovery_world::Event;
use run_writes::RunError;
use script_text::write_event;
use std::alloc::Global;
use std::marker::Model;
use world_io::World;

/// The script that is written while a plan is performed: the lines that are gathered, and how long it is with those
/// that were written before.
#[derive(Drop)]
pub struct Script {
    text: Bytes,
    count: u64,
    size: u64,
    /// Room for one line.
    line: String,
}

impl Model for Script {
    ghost use Rattle.live_writes.specs.Script.{Scripted};

    ghost Value = { Scripted };

    ghost view = { λ s. record { text = s.text; count = s.count; size = s.size } };
}

/// The line of an event, in place of what stood there.
fn write_line(line: &mut String, event: Event) -> Result<(), NoMemory>
    ensures line { OnOk result (string_bytes line.new ≡ line_of event) }
    ensures fits { FitsWords event }
{
    line.clear();
    write_event(line, event)?;
    line.push_str("\n")?;
    Ok(())
}

impl Script {
    /// No lines. It takes no memory.
    pub fn new(alloc: Global) -> Self
        ensures { result ≡ no_script }
    {
        Script {
            text: Bytes::new(alloc),
            count: 0,
            size: 0,
            line: String::new(alloc),
        }
    }

    /// How many bytes are gathered.
    pub fn gathered(&self) -> usize
        ensures { result ≡ length self.now.text }
    {
        self.text.len()
    }

    /// Gathers the line of one more event. Where the script would have more than `MOST_EVENTS` lines with it, or more
    /// than `MOST_FILE_BYTES` bytes, it stays as it is.
    pub fn add(&mut self, event: &Event) -> Result<(), RunError>
        requires few { self.old.count ≤ most_events }
        requires short { self.old.size ≤ most_bytes }
        ensures added { OnOk result (self.new ≡ with_line event.now self.old) }
        ensures fits { OnOk result (FitsWords event.now) }
        ensures few { self.new.count ≤ most_events }
        ensures short { self.new.size ≤ most_bytes }
        ensures limit { (limit : LimitKind) → result ≡ Err (RunError.Limit limit)
            → PassesScript limit self.old.count (self.old.size + length (line_of event.now)) }
        ensures same { (limit : LimitKind) → result ≡ Err (RunError.Limit limit)
            → self.new ≡ self.old }
        ensures no_fault { IsErrOf result RunError.WriteFault → ⊥ }
    {
        if self.count >= u64::from(MOST_EVENTS) {
            return Err(RunError::Limit(Limit::Events));
        }
        write_line(&mut self.line, *event)?;
        let line = self.line.as_bytes();
        let size = self.size + line.len() as u64;
        if size > MOST_FILE_BYTES {
            return Err(RunError::Limit(Limit::File));
        }
        self.text.extend(line)?;
        self.count += 1;
        self.size = size;
        Ok(())
    }

    /// Appends the gathered lines to the script's file.
    pub fn write<W: World>(&mut self, world: &mut W, file: u32) -> Result<(), OutputError>
        requires { IsTrue (is_writable (W.ledger world.old) file) }
        ensures none { OnOk result (self.new.text ≡ []) }
        ensures count { self.new.count ≡ self.old.count }
        ensures size { self.new.size ≡ self.old.size }
        ensures only_writes { OnlyWrites W.ledger W.healthy world.old world.new }
        ensures cause { IsErrOf result OutputError.WriteFault
            → WritingFailed W.ledger W.healthy world.old world.new }
        ensures shows { (p : Start) → W.honest p world.new
            → (name : List ℕ) → IsOutput file name (W.shows p world.old)
            → Writes result (Appends name self.old.text ∷ []) (W.shows p world.old)
            (W.shows p world.new) }
        ensures keeps { (p : Start) → W.honest p world.new
            → KeepsOutputs (W.shows p world.old) (W.shows p world.new) }
        ensures before { (p : Start) → W.honest p world.new → W.honest p world.old }
    {
        append(world, file, self.text.as_slice())?;
        self.text.truncate(0);
        Ok(())
    }
}
