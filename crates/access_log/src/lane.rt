ghost use Rattle.std.specs.Prelude.{◌≡◌, ℕ, ◌+◌, ◌-◌, ◌^◌, ◌<◌, ◌≤◌, ◌↔◌, ◌≢◌, List, Option, Some};
ghost use Rattle.std.specs.Prelude.{None, Ok, IsSome, IsTrue, length, nat_le, if◌then◌else◌};
ghost use Rattle.std.specs.Prelude.{slice_index};
ghost use Rattle.thread_clock.specs.Clock.{AtMost};
ghost use Rattle.access_log.specs.Held.{entry_at, fresh_lane, IsKnown, IsFrontier, IsRising};
ghost use Rattle.access_log.specs.Lanes.{PutsEntry, CoversUpTo, RetainsAtMost};

use crate::slots::Slots;
use crate::{Added, StampedEntry};
use plain_text::NoMemory;
use std::alloc::Global;
use std::marker::Model;
use thread_clock::EntryCounts;

/// What is held of one thread.
#[derive(Debug, Drop)]
pub struct Lane {
    frontier: u64,
    entries: Slots,
}

impl Model for Lane {
    ghost use Rattle.access_log.specs.Held.{Lane};

    ghost Value = { Lane };

    ghost use Rattle.access_log.specs.Held.{IsFrontier};

    ghost view = { λ l. l.entries };

    ghost invariant = { λ l. IsFrontier l.entries l.frontier };
}

/// The greatest number up to which each entry after this number is held.
fn frontier_after(entries: &Slots, from: u64) -> u64
    ensures from { from ≤ result }
    ensures held { (n : ℕ) → from < n → n ≤ result → IsSome (entry_at entries.now n) }
    ensures ends { entry_at entries.now (result + 1) ≡ None }
    ensures rising { IsRising entries.now.covered entries.now.entries }
{
    let _numbers = entries.covered();
    let mut frontier = from;
    while frontier < u64::MAX && entries.holds(frontier + 1) {
        frontier += 1;
    }
    frontier
}

impl Lane {
    /// Nothing covered and nothing held, of so many threads. It takes no memory.
    pub fn new(alloc: Global, threads: u32) -> Self
        ensures { result ≡ fresh_lane }
    {
        Lane {
            frontier: 0,
            entries: Slots::new(alloc, threads),
        }
    }

    /// The greatest number such that the entries up to it are held or covered.
    pub fn frontier(&self) -> u64
        ensures { IsFrontier self.now result }
    {
        self.frontier
    }

    /// The held entry of this number.
    pub fn get(&self, number: u64) -> Option<StampedEntry>
        ensures value { result ≡ entry_at self.now number }
        ensures above { IsSome result → self.now.covered < number }
    {
        let _numbers = self.entries.covered();
        self.entries.get(number)
    }

    /// Whether the entry of this number is held.
    pub fn holds(&self, number: u64) -> bool
        ensures { IsTrue result ↔ IsSome (entry_at self.now number) }
    {
        self.entries.holds(number)
    }

    /// Whether the entry of this number is held or covered.
    pub fn is_known(&self, number: u64) -> bool
        ensures { IsTrue result ↔ IsKnown self.now number }
    {
        if number <= self.frontier {
            return true;
        }
        // The entry after the frontier is missing, and mostly it is the one that comes next.
        if number - 1 == self.frontier {
            return false;
        }
        self.entries.holds(number)
    }

    /// How many entries are held.
    pub fn len(&self) -> usize
        ensures len { result ≡ length self.now.entries }
        ensures small { result ≤ 2 ^ 56 }
    {
        self.entries.len()
    }

    /// Holds this entry as the one of this number, unless that is held or covered.
    pub fn add(&mut self, number: u64, entry: &StampedEntry) -> Result<Added, NoMemory>
        ensures known { (result ≡ Ok Added.Known) ↔ IsKnown self.old number }
        ensures same { result ≢ Ok Added.New → self.new ≡ self.old }
        ensures new { result ≡ Ok Added.New → PutsEntry self.old self.new number entry.now }
        ensures rising { IsRising self.new.covered self.new.entries }
    {
        let _numbers = self.entries.covered();
        if self.is_known(number) {
            return Ok(Added::Known);
        }
        self.entries.put(number, entry)?;
        let _numbers = self.entries.covered();
        if number - 1 == self.frontier {
            self.frontier = frontier_after(&self.entries, number);
        }
        Ok(Added::New)
    }

    /// Marks the entries up to this count as covered, and drops those held of them. It takes no memory.
    pub fn cover(&mut self, count: u64)
        requires { self.old.covered ≤ count }
        ensures covers { CoversUpTo self.old self.new count }
        ensures rising { IsRising self.new.covered self.new.entries }
    {
        self.entries.cover(count);
        self.frontier = frontier_after(&self.entries, self.frontier.max(count));
    }

    /// Drops each held entry with a component of its stamp above its thread's frontier. It takes no memory.
    pub fn retain_at_most(&mut self, frontiers: &EntryCounts)
        ensures retained { RetainsAtMost self.old self.new frontiers.now }
        ensures fewer { length self.new.entries ≤ length self.old.entries }
        ensures rising { IsRising self.new.covered self.new.entries }
    {
        self.entries.retain_at_most(frontiers);
        self.frontier = frontier_after(&self.entries, self.entries.covered());
    }
}
