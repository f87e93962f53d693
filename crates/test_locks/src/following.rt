//! A guide that follows a run.
ghost use Rattle.std.specs.Prelude.{◌≡◌, ℕ, length, replicate, IfOk, IsTrue};
ghost use Rattle.replay_guide.specs.Following.{CanBeFollowed};
ghost use Rattle.test_locks.specs.Followed.{IsLater, IsNextHeld, AreFollowed, noted};

use access_log::{Held, StampedEntry, What};
use master_core::{Trace, WovenStep};
use plain_text::NoMemory;
use replay_guide::Guide;
use std::alloc::Global;

/// Nothing held, for 16 threads.
#[tactic(auto, using(crate::proofs::Follow::none_followed))]
fn nothing_held(alloc: Global) -> Result<Held, NoMemory>
    ensures { IfOk result (λ held. AreFollowed held (replicate 16 0)) }
{
    Held::new(alloc, 16)
}

/// Whether the entry is no touch, or one that comes after these places of the variables.
fn is_later(last: &[u64], what: What) -> bool
    ensures { IsTrue result → IsLater last.now what }
{
    match what {
        What::Access { var, place } => { (var as usize) < last.len() && last[var as usize] < place }
        What::Read { .. } | What::Clock(_) | What::Draw(_) => true,
    }
}

/// Notes the place of a touch.
fn note(last: &mut [u64], what: What)
    requires { IsLater last.old what }
    ensures { last.new ≡ noted last.old what }
{
    if let What::Access { var, place } = what {
        last[var as usize] = place;
    }
}

/// Whether the entry is the next of its thread.
fn is_next(held: &Held, entry: &StampedEntry) -> bool
    requires threads { length held.now ≡ 16 }
    ensures { IsTrue result → IsNextHeld held.now entry.now }
{
    entry.thread < 16 && entry.number.checked_sub(1) == Some(held.frontier(entry.thread))
}

/// Holds the next entry of its thread.
fn add(held: &mut Held, last: &mut [u64], entry: &StampedEntry) -> Result<(), NoMemory>
    requires followed { AreFollowed held.old last.old }
    requires next { IsNextHeld held.old entry.now }
    requires later { IsLater last.old entry.now.what }
    ensures { AreFollowed held.new last.new }
{
    held.add(*entry)?;
    note(last, entry.what);
    Ok(())
}

/// Holds the next entry of its thread, where it is no touch or comes after the last touch of its variable. Any other
/// one is left out.
fn hold(held: &mut Held, last: &mut [u64], entry: &StampedEntry) -> Result<(), NoMemory>
    requires { AreFollowed held.old last.old }
    ensures { AreFollowed held.new last.new }
{
    if is_next(held, entry) && is_later(last, entry.what) {
        add(held, last, entry)?;
    }
    Ok(())
}

/// The guide of what is held.
fn follow(alloc: Global, held: &Held) -> Result<Guide, NoMemory>
    requires { CanBeFollowed held.now }
{
    Guide::of(alloc, held)
}

/// A guide that follows these entries.
pub fn guide_of(alloc: Global, entries: &[StampedEntry]) -> Result<Guide, NoMemory> {
    let mut held = nothing_held(alloc)?;
    let mut last = [0; 16];
    for entry in entries {
        hold(&mut held, &mut last, entry)?;
    }
    follow(alloc, &held)
}

/// The entries of a run.
fn entries_of(alloc: Global, steps: &[WovenStep]) -> Result<Vec<StampedEntry>, NoMemory> {
    let mut entries = Vec::new(alloc);
    for step in steps {
        if let Trace::Did(entry) = step.trace {
            entries.push(entry)?;
        }
    }
    Ok(entries)
}

/// A guide that follows the entries of a run.
pub fn guide_to_run(alloc: Global, steps: &[WovenStep]) -> Result<Guide, NoMemory> {
    let entries = entries_of(alloc, steps)?;
    guide_of(alloc, &entries)
}
