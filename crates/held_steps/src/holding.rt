ghost use Rattle.std.specs.Prelude.{OnOk};
ghost use Rattle.wire_frames.specs.Writing.{CanPutEntry};
ghost use Rattle.system_parts.specs.Performing.{Appends};
ghost use Rattle.thread_steps.specs.Stepping.{CanNote};
ghost use Rattle.held_steps.specs.Holding.{HoldsMade, IsNextHeld, NotesHeld};

use access_log::{Outputs, StampedEntry};
use box_program::Program;
use event_replies::Stop;
use master_core::Stepped;
use plain_text::NoMemory;
use recovery_world::Outcome;
use system_parts::Core;
use thread_steps::{entry_outcome, note, note_move};

/// An entry that the master made arrives at once: it counts as sent, and no frame of it is written.
fn hold_made<P: Program>(
    core: &mut Core<P>,
    entry: StampedEntry,
    out: &mut Outputs,
) -> Result<(), NoMemory>
    requires can { CanPutEntry core.old.sent.epoch core.old.sent.threads entry }
    requires next { IsNextHeld core.old.logger.held entry }
    ensures ok { OnOk result (HoldsMade entry out.old out.new core.old core.new) }
    ensures appends { Appends out.old out.new }
{
    let thread = entry.thread;
    core.sent.count_entry(&entry)?;
    let epoch = core.logger.epoch();
    core.logger.entry(epoch, entry, out)?;
    let known = core.logger.held().frontier(thread);
    core.sent.forget_entries(thread, known);
    Ok(())
}

/// Takes note of what the master answered of a move, with what the thread was told. An entry that it logged arrives at
/// once, where all of its thread before it have; else its frame is sent.
pub fn note_held<P: Program>(
    core: &mut Core<P>,
    thread: u32,
    answer: Option<u64>,
    stepped: Stepped,
    out: &mut Outputs,
) -> Result<Outcome, Stop>
    requires can { CanNote core.old stepped }
    ensures notes { NotesHeld thread answer stepped out.old out.new core.old result core.new }
    ensures appends { Appends out.old out.new }
{
    match stepped {
        Stepped::Did(entry) => {
            if core.logger.held().frontier(entry.thread) != entry.number - 1 {
                return note(core, thread, answer, Stepped::Did(entry));
            }
            note_move(core, thread, answer, 0)?;
            let outcome = entry_outcome(entry.number, entry.what);
            hold_made(core, entry, out)?;
            Ok(outcome)
        }
        other => note(core, thread, answer, other),
    }
}
