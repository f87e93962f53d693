//! The entries of two threads into a held set, of which one never comes, and then the closed part.
ghost use Rattle.std.specs.Prelude.{◌≡◌, ◌<◌, ◌≤◌, ◌^◌, length};

use crate::words::next_count;
use access_log::{Held, Kept, StampedEntry, What};
use plain_text::NoMemory;
use std::alloc::Global;
use std::env::Args;
use thread_clock::Stamp;

/// The entry of this number of thread 0 or 1, where the two take turns and each entry comes after all earlier ones of
/// both.
fn entry_of(thread: u32, number: u32) -> StampedEntry
    requires { 1 ≤ number }
    ensures thread { result.thread ≡ thread }
    ensures number { result.number ≡ number }
{
    let mut components = [0; 16];
    components[0] = number;
    components[1] = if thread == 0 { number - 1 } else { number };
    StampedEntry {
        thread,
        number: u64::from(number),
        what: What::Clock(0),
        stamp: Stamp::new(components),
    }
}

/// Holds this number of entries of each thread, but for the middle one of thread 1.
fn hold_entries(held: &mut Held, count: u32) -> Result<(), NoMemory>
    requires { length held.old ≡ 2 }
{
    for number in 1..=count {
        held.add(entry_of(0, number))?;
        if number != count / 2 {
            held.add(entry_of(1, number))?;
        }
    }
    Ok(())
}

/// Holds them, and keeps the closed part.
fn keep_entries(alloc: Global, count: u32) -> Result<Kept, NoMemory> {
    let mut held = Held::new(alloc, 2)?;
    hold_entries(&mut held, count)?;
    Ok(held.closed_part())
}

/// Tells how many entries are kept and dropped, where the word says how many each thread makes.
pub fn run<R: AllocGlobal + Print>(rt: &R, words: &mut Args) -> anyhow::Result<()> {
    let count = next_count(words, "how many entries?")?;
    let part = keep_entries(rt.alloc(), count)?;
    println!(rt; "{} kept, {} dropped", part.kept, part.dropped)?;
    Ok(())
}
