ghost use Rattle.std.specs.Prelude.{◌≡◌, ℕ, ◌+◌, ◌-◌, ◌^◌, ◌<◌, ◌≤◌, ◌↔◌, ◌≢◌, List, Option, Some};
ghost use Rattle.std.specs.Prelude.{None, Ok, IsSome, IsTrue, IfOk, IfSome, MatchOption, length};
ghost use Rattle.std.specs.Prelude.{replicate, slice_index};
ghost use Rattle.access_log.specs.Held.{lane, entry_at, fresh_lane, IsKnown, IsFrontier, IsWithin};
ghost use Rattle.access_log.specs.Held.{IsFirstMissing, IsRising, held_count};
ghost use Rattle.access_log.specs.Lanes.{PutsEntry, CoversUpTo, RetainsAtMost, IsHeldSet};
ghost use Rattle.access_log.specs.Members.{IsMember, IsDropped, IsMemberAbove, IsNumberOf};

use crate::lane::Lane;
use crate::{Added, StampedEntry};
use plain_text::NoMemory;
use std::alloc::Global;
use std::marker::Model;
use thread_clock::{EntryCounts, Stamp};

/// How many entries a call let stay and dropped.
#[derive(Clone, Copy, Debug, PartialEq, Eq)]
pub struct Kept {
    /// How many entries are held after the call.
    pub kept: u64,
    /// How many were held before it and are not any more.
    pub dropped: u64,
}

/// The log entries that a node holds, of at most 16 threads. Those that a snapshot stands for are covered, and dropped.
#[derive(Debug, Drop)]
pub struct Held {
    lanes: Vec<Lane>,
}

impl Model for Held {
    ghost use Rattle.std.specs.Prelude.{List};
    ghost use Rattle.access_log.specs.Held.{Lane};

    ghost Value = { List Lane };

    ghost use Rattle.access_log.specs.Lanes.{IsHeldSet};

    ghost view = { λ h. h.lanes.items };

    ghost invariant = { λ h. IsHeldSet h.lanes.items };
}

/// Covers in each lane what the counts say.
fn cover_each(lanes: &mut [Lane], counts: &EntryCounts)
    requires few { length lanes.old ≤ 16 }
    requires rising { (t : ℕ) → t < length lanes.old
        → (lane lanes.old t).covered ≤ slice_index counts.now t }
    ensures covers { (t : ℕ) → t < length lanes.old
        → CoversUpTo (lane lanes.old t) (lane lanes.new t) (slice_index counts.now t) }
    ensures rising { (t : ℕ) → t < length lanes.old
        → IsRising (lane lanes.new t).covered (lane lanes.new t).entries }
{
    for i in 0..lanes.len() {
        let lane = &mut lanes[i];
        lane.cover(counts.get(i as u32));
    }
}

/// Drops in each lane the entries with a component of their stamps above the frontiers, and counts them.
fn retain_in_each(lanes: &mut [Lane], frontiers: &EntryCounts) -> u64
    requires { length lanes.old ≤ 16 }
    ensures retained { (t : ℕ) → RetainsAtMost (lane lanes.old t) (lane lanes.new t) frontiers.now }
    ensures dropped { held_count lanes.new + result ≡ held_count lanes.old }
    ensures rising { (t : ℕ) → t < length lanes.old
        → IsRising (lane lanes.new t).covered (lane lanes.new t).entries }
{
    let mut dropped = 0;
    for i in 0..lanes.len() {
        let lane = &mut lanes[i];
        let held = lane.len();
        lane.retain_at_most(frontiers);
        dropped += (held - lane.len()) as u64;
    }
    dropped
}

/// How many entries the lanes hold.
fn count_held(lanes: &[Lane]) -> u64
    requires { length lanes.now ≤ 16 }
    ensures { result ≡ held_count lanes.now }
{
    let mut count = 0;
    for lane in lanes {
        count += lane.len() as u64;
    }
    count
}

impl Held {
    /// Nothing covered and nothing held, for 1 to 16 threads.
    pub fn new(alloc: Global, threads: u32) -> Result<Self, NoMemory>
        requires some { 1 ≤ threads }
        requires few { threads ≤ 16 }
        ensures { IfOk result (λ held. held ≡ replicate threads fresh_lane) }
    {
        let mut lanes = Vec::with_capacity(alloc, threads as usize)?;
        for _ in 0..threads {
            lanes.push(Lane::new(alloc, threads))?;
        }
        Ok(Held { lanes })
    }

    /// What is true of every held set. It does nothing: a caller has it by the call.
    pub fn is_held_set(&self)
        ensures { IsHeldSet self.now }
    {
        let _lanes = &self.lanes;
    }

    /// Holds this entry, unless one of its thread and number is held or covered: then nothing changes.
    pub fn add(&mut self, entry: StampedEntry) -> Result<Added, NoMemory>
        requires thread_in { entry.thread < length self.old }
        requires numbered { 1 ≤ entry.number }
        ensures known { (result ≡ Ok Added.Known)
            ↔ IsKnown (lane self.old entry.thread) entry.number }
        ensures same { result ≢ Ok Added.New → self.new ≡ self.old }
        ensures new { result ≡ Ok Added.New
            → PutsEntry (lane self.old entry.thread)
            (lane self.new entry.thread) entry.number entry }
        ensures others { (t : ℕ) → t ≢ entry.thread → lane self.new t ≡ lane self.old t }
        ensures counted { result ≡ Ok Added.New → held_count self.new ≡ held_count self.old + 1 }
        ensures threads { length self.new ≡ length self.old }
    {
        let lane = &mut self.lanes[entry.thread as usize];
        lane.add(entry.number, &entry)
    }

    /// The held entry of this thread and number, if there is one; a covered one is not held.
    pub fn get(&self, thread: u32, number: u64) -> Option<StampedEntry>
        ensures value { result ≡ entry_at (lane self.now thread) number }
        ensures named { IfSome result (λ e. (e.thread ≡ thread) × (e.number ≡ number)) }
        ensures above { IsSome result → (lane self.now thread).covered < number }
    {
        self.lanes.get(thread as usize)?.get(number)
    }

    /// Whether the entry of this thread and number is held; a covered one is not.
    pub fn holds(&self, thread: u32, number: u64) -> bool
        ensures { IsTrue result ↔ IsSome (entry_at (lane self.now thread) number) }
    {
        match self.lanes.get(thread as usize) {
            Some(lane) => lane.holds(number),
            None => false,
        }
    }

    /// Whether the entry of this thread and number is held or covered.
    pub fn is_known(&self, thread: u32, number: u64) -> bool
        ensures { IsTrue result ↔ IsKnown (lane self.now thread) number }
    {
        match self.lanes.get(thread as usize) {
            Some(lane) => lane.is_known(number),
            None => number == 0,
        }
    }

    /// Marks each thread's entries up to its count as covered, and drops those held of them: the held entries with
    /// numbers above the counts are left. It takes no memory.
    pub fn cover(&mut self, counts: &EntryCounts)
        requires { (t : ℕ) → t < length self.old
            → (lane self.old t).covered ≤ slice_index counts.now t }
        ensures covers { (t : ℕ) → t < length self.old
            → CoversUpTo (lane self.old t) (lane self.new t) (slice_index counts.now t) }
        ensures counted { IsNumberOf (IsMemberAbove self.old counts.now) (held_count self.new) }
        ensures threads { length self.new ≡ length self.old }
    {
        cover_each(&mut self.lanes, counts);
    }

    /// The greatest number such that each of the thread's entries from 1 to it is held or covered.
    pub fn frontier(&self, thread: u32) -> u64
        ensures { IsFrontier (lane self.now thread) result }
    {
        match self.lanes.get(thread as usize) {
            Some(lane) => lane.frontier(),
            None => 0,
        }
    }

    /// The frontier of each thread.
    fn frontiers(&self) -> EntryCounts
        ensures { (t : ℕ) → IsFrontier (lane self.now t) (slice_index result t) }
    {
        let _few = &self.lanes;
        let mut components = [0; 16];
        for i in 0..16 {
            components[i as usize] = self.frontier(i);
        }
        EntryCounts::new(components)
    }

    /// The first entry that is missing for this stamp: of the least thread whose component is above its frontier, the
    /// next number after that. None exactly where no component is above. It takes no memory.
    pub fn missing(&self, stamp: &Stamp) -> Option<(u32, u64)>
        ensures { MatchOption result (IsWithin self.now stamp.now)
            (λ first. IsFirstMissing self.now stamp.now first.0 first.1) }
    {
        let components = stamp.components();
        for thread in 0..16 {
            let frontier = self.frontier(thread);
            if u64::from(components[thread as usize]) > frontier {
                return Some((thread, frontier + 1));
            }
        }
        None
    }

    /// Drops exactly the held entries that have a component of their stamp above the frontier of its thread, and counts
    /// those that stay held and those that it dropped. It takes no memory.
    pub fn closed_part(&mut self) -> Kept
        ensures closed { (t n : ℕ) (e : StampedEntry) → (entry_at (lane self.new t) n ≡ Some e)
            ↔ ((entry_at (lane self.old t) n ≡ Some e) × IsWithin self.old e.stamp) }
        ensures covered { (t : ℕ) → (lane self.new t).covered ≡ (lane self.old t).covered }
        ensures threads { length self.new ≡ length self.old }
        ensures kept { IsNumberOf (IsMember self.new) result.kept }
        ensures dropped { IsNumberOf (IsDropped self.old self.new) result.dropped }
        ensures counted { result.kept ≡ held_count self.new }
        ensures summed { result.kept + result.dropped ≡ held_count self.old }
    {
        let frontiers = self.frontiers();
        let dropped = retain_in_each(&mut self.lanes, &frontiers);
        let kept = count_held(&self.lanes);
        Kept { kept, dropped }
    }
}
