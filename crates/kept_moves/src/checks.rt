//! Whether an entry or an output has a frame.
ghost use Rattle.std.specs.Prelude.{◌≡◌, ◌≤◌, ℕ, IsTrue, length, slice_index};
ghost use Rattle.plain_text.specs.declared.limit.TheConstants.{MOST_CAPTURED};
ghost use Rattle.wire_frames.specs.Writing.{CanPutEntry, CanPutOutput, CanSend, CanTell};

use access_log::{Output, StampedEntry};
use entry_order::What;
use plain_text::MOST_CAPTURED;
use thread_clock::Stamp;

/// Whether no thread from this one on has a component.
fn has_none_from(components: &[u32], threads: usize) -> bool
    ensures { IsTrue result → (u : ℕ) → threads ≤ u → slice_index components.now u ≡ 0 }
{
    for thread in threads..components.len() {
        if components[thread] != 0 {
            return false;
        }
    }
    true
}

/// Whether a sender of this epoch and number of threads may send what has this thread, number and stamp.
fn can_send(epoch: u32, threads: u32, thread: u32, number: u64, stamp: &Stamp) -> bool
    ensures { IsTrue result → CanSend epoch threads thread number stamp.now }
{
    if epoch == 0 || threads > 16 || thread >= threads || number == 0 {
        return false;
    }
    has_none_from(stamp.components(), threads as usize)
}

/// Whether a frame can tell this.
fn can_tell(what: What) -> bool
    ensures { IsTrue result → CanTell what }
{
    match what {
        What::Access { var, place } => var < 256 && place > 0,
        What::Read { var, after: _ } => var < 256,
        What::Clock(_) | What::Draw(_) => true,
    }
}

/// Whether the entry has a frame.
pub(crate) fn can_put_entry(epoch: u32, threads: u32, entry: &StampedEntry) -> bool
    ensures { IsTrue result → CanPutEntry epoch threads entry.now }
{
    if !can_tell(entry.what) {
        return false;
    }
    can_send(epoch, threads, entry.thread, entry.number, &entry.stamp)
}

/// Whether the output has a frame.
pub(crate) fn can_put_output(epoch: u32, threads: u32, output: &Output) -> bool
    ensures { IsTrue result → CanPutOutput epoch threads output.now }
{
    if output.input == 0 || output.packet.bytes.len() > MOST_CAPTURED as usize {
        return false;
    }
    can_send(epoch, threads, output.thread, output.number, &output.stamp)
}
