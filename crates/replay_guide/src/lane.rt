ghost use Rattle.std.specs.Prelude.{◌≡◌, ℕ, ◌+◌, ◌≤◌, ◌^◌, ◌↔◌, ◌⊎◌, Some, IfOk, OnOk, length};
ghost use Rattle.std.specs.Prelude.{option_copied};
ghost use Rattle.access_log.specs.declared.entry.StampedEntry as stamped;
ghost use Rattle.access_log.specs.Held.{lane, entry_at};
ghost use Rattle.replay_guide.specs.Following.{CanBeFollowed};
ghost use Rattle.replay_guide.specs.Orders.{weight_of};
ghost use Rattle.replay_guide.specs.Indexes.{IsIndexOf};
ghost use Rattle.replay_guide.specs.Walks.{FollowsBelow, IsWeighed};

use crate::index::Index;
use access_log::{Held, StampedEntry};
use plain_text::NoMemory;
use std::alloc::Global;
use std::collections::{BTreeSet, VecDeque};
use std::marker::Model;

/// The most entries that are followed of one thread, far beyond what memory has.
const LIMIT: usize = 0x100_0000_0000_0000;

/// The followed entries of one thread, by number: those after the covered ones.
#[derive(Debug, Drop)]
pub struct FollowedLane {
    covered: u64,
    entries: VecDeque<StampedEntry>,
}

impl Model for FollowedLane {
    ghost use Rattle.std.specs.Prelude.{◌≤◌, ◌^◌, length};
    ghost use Rattle.access_log.specs.Held.{Lane};

    ghost Value = { Lane };

    ghost use Rattle.replay_guide.specs.Walks.{numbered};

    ghost view = { λ l. record {
      covered = l.covered;
      entries = numbered l.covered l.entries.items;
    } };

    ghost invariant = { λ l. length l.entries.items ≤ 2 ^ 56 };
}

impl FollowedLane {
    /// Follows the entries of one thread that are held, and puts them into the index, which has those of the threads
    /// before it.
    pub fn of(
        alloc: Global,
        followed: &Held,
        thread: u32,
        index: &mut Index,
    ) -> Result<Self, NoMemory>
        requires can { CanBeFollowed followed.now }
        requires indexed { IsIndexOf (FollowsBelow followed.now thread)
            index.old.touches.entries index.old.reads.keys }
        ensures lane { IfOk result (λ l. l ≡ lane followed.now thread) }
        ensures indexed { OnOk result (IsIndexOf (FollowsBelow followed.now (thread + 1))
            index.new.touches.entries index.new.reads.keys) }
    {
        followed.is_held_set();
        let mut entries = VecDeque::new(alloc);
        let mut number = followed.frontier(thread);
        while let Some(entry) = followed.get(thread, number) {
            if entries.len() >= LIMIT {
                return Err(NoMemory);
            }
            index.add(&entry)?;
            entries.push_front(entry)?;
            number -= 1;
        }
        Ok(FollowedLane {
            covered: number,
            entries,
        })
    }

    /// The followed entry of this number.
    pub fn get(&self, number: u64) -> Option<&StampedEntry>
        ensures { option_copied result ≡ entry_at self.now number }
    {
        if number <= self.covered {
            return None;
        }
        self.entries.get((number - self.covered - 1) as usize)
    }

    /// Puts the followed entries into the set, with their weights.
    pub fn weigh(&self, weighed: &mut BTreeSet<(u64, u32, u64)>) -> Result<(), NoMemory>
        ensures { OnOk result ((weight t n : ℕ) → IsWeighed weighed.new.keys weight t n
            ↔ (IsWeighed weighed.old.keys weight t n
            ⊎ ((k : ℕ) × (e : stamped.StampedEntry) × (entry_at self.now k ≡ Some e)
            × (weight_of e ≡ weight) × (e.thread ≡ t) × (e.number ≡ n)))) }
    {
        for i in 0..self.entries.len() {
            let entry = &self.entries[i];
            weighed.insert((entry.stamp.weight(), entry.thread, entry.number))?;
        }
        Ok(())
    }
}
