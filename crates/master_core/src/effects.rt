//! What each kind of move does to a thread and a variable of a master.
ghost use Rattle.std.specs.Prelude.{◌≡◌, ℕ, ◌+◌, ◌^◌, ◌<◌, IfOk, length, slice_index, slice_set};
ghost use Rattle.master_core.specs.Effects.{LogsEntry};

use crate::ThreadPart;
use access_log::{StampedEntry, What};
use plain_machine::Local;
use plain_text::NoMemory;
use thread_clock::Stamp;

/// The number of the thread's next entry. What would pass 2^32 - 1 answers that memory ran out: a component of a stamp
/// counts no further.
pub fn next_number(part: &ThreadPart) -> Result<u32, NoMemory>
    ensures { IfOk result (λ number. number ≡ part.now.counts.entries + 1) }
{
    if part.counts.entries >= u64::from(u32::MAX) {
        return Err(NoMemory);
    }
    Ok((part.counts.entries + 1) as u32)
}

/// This join of stamps, with an entry's own number in the place of its thread.
fn stamped(join: Stamp, thread: u32, number: u32) -> Stamp
    requires { thread < 16 }
    ensures stamp { result ≡ slice_set join thread number }
    ensures all { length join ≡ 16 }
{
    let mut components = *join.components();
    components[thread as usize] = number;
    Stamp::new(components)
}

/// Logs the next entry of this thread, of this number, after what has this join of stamps, and goes on at this place.
pub fn log_entry(
    part: &mut ThreadPart,
    thread: u32,
    number: u32,
    place: Local,
    what: What,
    join: Stamp,
) -> StampedEntry
    requires thread_in { thread < 16 }
    requires next { number ≡ part.old.counts.entries + 1 }
    ensures { LogsEntry thread what (λ u. slice_index join u) place part.old result part.new }
{
    part.counts.entries = u64::from(number);
    part.hand = Some(place);
    part.stamp = stamped(join, thread, number);
    StampedEntry {
        thread,
        number: part.counts.entries,
        what,
        stamp: part.stamp,
    }
}
