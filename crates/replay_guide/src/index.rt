//! The followed touches and reads, by the variable and its number of touches before them.
ghost use Rattle.std.specs.Prelude.{◌≡◌, ℕ, ◌+◌, ◌<◌, ◌≤◌, List, [], None, Some, IfSome, IfNone};
ghost use Rattle.std.specs.Prelude.{MatchOption, OnOk, slice_index, true};
ghost use Rattle.access_log.specs.declared.entry.StampedEntry as stamped;
ghost use Rattle.replay_guide.specs.Turns.{GoesFirst};
ghost use Rattle.replay_guide.specs.Indexes.{touch_after, HasRead, AddsEntry, IsPast, AreLasts};

use access_log::{StampedEntry, What};
use plain_text::NoMemory;
use std::alloc::Global;
use std::collections::{BTreeMap, BTreeSet};
use std::ops::Bound;
use thread_clock::Stamp;

/// The thread and number of each touch by its variable and place, and each read by its variable, place, thread and
/// number. The place of a touch is here the number of touches before it.
#[derive(Debug, Drop)]
pub struct Index {
    /// By variable and the number of touches before it: the thread and number of a touch.
    pub touches: BTreeMap<(u32, u64), (u32, u64)>,
    /// Variable, place, thread and number of each read; the place is the number of touches before it.
    pub reads: BTreeSet<(u32, u64, u32, u64)>,
    /// The greatest of these places of each variable, or a greater one.
    lasts: BTreeMap<u32, u64>,
    ghost lasts_are: { AreLasts lasts.entries touches.entries reads.keys },
}

/// Notes a place of the variable, unless a greater one is noted.
fn note_place(lasts: &mut BTreeMap<u32, u64>, var: u32, place: u64) -> Result<(), NoMemory>
    ensures noted { OnOk result (IsPast lasts.new.entries var place → ⊥) }
    ensures more { (v places : ℕ) → IsPast lasts.new.entries v places
        → IsPast lasts.old.entries v places }
{
    let last = match lasts.get(&var) {
        Some(last) => place.max(*last),
        None => place,
    };
    lasts.insert(var, last)?;
    Ok(())
}

impl Index {
    /// No touches and no reads. It takes no memory.
    pub fn new(alloc: Global) -> Self
        ensures touches { result.touches.entries ≡ [] }
        ensures reads { result.reads.keys ≡ [] }
    {
        Index {
            touches: BTreeMap::new(alloc),
            reads: BTreeSet::new(alloc),
            lasts: BTreeMap::new(alloc),
        }
    }

    /// Whether one look tells that no touch and no read is here after this number of touches of the variable.
    pub fn is_past(&self, var: u32, places: u64) -> bool
        ensures touches { result ≡ true → (x : ℕ × ℕ)
            → touch_after self.now.touches.entries var places ≡ Some x → ⊥ }
        ensures reads { result ≡ true → (t n : ℕ)
            → HasRead self.now.reads.keys var places t n → ⊥ }
    {
        match self.lasts.get(&var) {
            Some(last) => *last < places,
            None => true,
        }
    }

    /// Adds a log entry; those that neither touch nor read a variable change nothing.
    pub fn add(&mut self, entry: &StampedEntry) -> Result<(), NoMemory>
        ensures { OnOk result (AddsEntry self.old.touches.entries self.new.touches.entries
            self.old.reads.keys self.new.reads.keys entry.now) }
    {
        match entry.what {
            What::Access { var, place } => {
                if place > 0 {
                    note_place(&mut self.lasts, var, place - 1)?;
                    self.touches
                        .insert((var, place - 1), (entry.thread, entry.number))?;
                }
            }
            What::Read { var, after } => {
                note_place(&mut self.lasts, var, after)?;
                self.reads.insert((var, after, entry.thread, entry.number))?;
            }
            What::Clock(_) | What::Draw(_) => {}
        }
        Ok(())
    }

    /// The touch that follows this number of touches of the variable.
    pub fn touch_after(&self, var: u32, places: u64) -> Option<(u32, u64)>
        ensures { result ≡ touch_after self.now.touches.entries var places }
    {
        self.touches.get(&(var, places)).copied()
    }

    /// The number of the thread's first read of the variable, after this number of touches, that is above this number.
    fn read_past(&self, var: u32, places: u64, thread: u32, number: u64) -> Option<u64>
        requires { thread < 16 }
        ensures none { IfNone result ((m : ℕ) → number < m
            → HasRead self.now.reads.keys var places thread m → ⊥) }
        ensures above { IfSome result (λ m. number < m) }
        ensures there { IfSome result (λ m. HasRead self.now.reads.keys var places thread m) }
        ensures least { IfSome result (λ m. (k : ℕ) → number < k
            → HasRead self.now.reads.keys var places thread k → m ≤ k) }
    {
        let from = Bound::Excluded((var, places, thread, number));
        let to = Bound::Excluded((var, places, thread + 1, 0));
        let (_, _, _, found) = self.reads.range((from, to)).next()?;
        Some(*found)
    }

    /// The first read of the variable, after this number of touches, that is above the component of its thread.
    pub fn first_read_past(&self, var: u32, places: u64, done: &Stamp) -> Option<(u32, u64)>
        ensures none { IfNone result ((u m : ℕ) → u < 16 → slice_index done.now u < m
            → HasRead self.now.reads.keys var places u m → ⊥) }
        ensures above { IfSome result (λ x. slice_index done.now x.0 < x.1) }
        ensures there { IfSome result (λ x. HasRead self.now.reads.keys var places x.0 x.1) }
        ensures first { IfSome result (λ x. (w k : ℕ) → w < 16 → slice_index done.now w < k
            → HasRead self.now.reads.keys var places w k → GoesFirst x.0 x.1 w k) }
    {
        if self.reads.is_empty() {
            return None;
        }
        for thread in 0..16 {
            if let Some(number) = self.read_past(var, places, thread, done.get(thread)) {
                return Some((thread, number));
            }
        }
        None
    }
}
