ghost use Rattle.std.specs.Prelude.{◌≡◌, ℕ, ◌+◌, ◌-◌, ◌^◌, ◌<◌, ◌≤◌, ◌↔◌, ◌≢◌, ◌++◌, List, Option};
ghost use Rattle.std.specs.Prelude.{Some};
ghost use Rattle.std.specs.Prelude.{None, IsSome, IfSome, IsTrue, OnOk, OnErr, length};
ghost use Rattle.std.specs.Prelude.{option_to_list, drop, slice_index_or, nat_le, if◌then◌else◌};
ghost use Rattle.std.specs.BTreeMap.{get, btree_map_len};
ghost use Rattle.std.specs.Ordering.{nat_cmp};
ghost use Rattle.thread_clock.specs.Clock.{AtMost};
ghost use Rattle.access_log.specs.Held.{entry_at, fresh_lane, IsRising};
ghost use Rattle.access_log.specs.Lanes.{PutsEntry, CoversUpTo, RetainsAtMost};
ghost use Rattle.access_log.specs.Rows.{row_slots};
ghost use Rattle.access_log.specs.Slots.{in_slots, IsSlotted, RetainsSlots};

use crate::StampedEntry;
use crate::row::Row;
use plain_text::NoMemory;
use std::alloc::Global;
use std::collections::BTreeMap;
use std::marker::Model;
use std::mem::size_of;
use thread_clock::EntryCounts;

/// The most slots and later entries together, far beyond what memory has.
const LIMIT: usize = 0x100_0000_0000_0000;

// An entry takes at most 112 bytes.
const _: () = prove!(size_of::<Option<StampedEntry>>() <= 112);

/// The entries of one thread by number, after those covered: at once in slots that follow one another, and in a map
/// where they come before those in between.
#[derive(Debug, Drop)]
pub struct Slots {
    covered: u64,
    contiguous: Row,
    out_of_order: BTreeMap<u64, StampedEntry>,
}

impl Model for Slots {
    ghost use Rattle.std.specs.Prelude.{◌++◌};
    ghost use Rattle.access_log.specs.Held.{Lane};

    ghost Value = { Lane };

    ghost use Rattle.access_log.specs.Rows.{row_slots};
    ghost use Rattle.access_log.specs.Slots.{in_slots, IsSlotted};

    ghost view = { λ s. record {
      covered = s.covered;
      entries = in_slots s.covered (row_slots s.contiguous) ++ s.out_of_order.entries;
    } };

    ghost invariant = { λ s. IsSlotted s.covered (row_slots s.contiguous) s.out_of_order.entries };
}

/// The slot of the entry of this number, if there is one, after so many that are covered.
fn slot_of(covered: u64, contiguous: &Row, number: u64) -> Option<usize>
    ensures none { result ≡ None
        → covered < number → number ≤ covered + length (row_slots contiguous.now) → ⊥ }
    ensures slot { IfSome result (λ i.
        (i < length (row_slots contiguous.now)) × (number ≡ covered + i + 1)) }
{
    let place = number.checked_sub(covered)?.checked_sub(1)?;
    if place >= contiguous.len() as u64 {
        return None;
    }
    Some(place as usize)
}

/// Drops the entries up to this number.
fn drop_out_of_order_up_to(out_of_order: &mut BTreeMap<u64, StampedEntry>, count: u64)
    ensures held { (n : ℕ) → get nat_cmp out_of_order.new n
        ≡ (if nat_le n count then None else get nat_cmp out_of_order.old n) }
    ensures fewer { btree_map_len out_of_order.new ≤ btree_map_len out_of_order.old }
{
    while let Some((number, _)) = out_of_order.first_key_value() {
        if *number > count {
            break;
        }
        out_of_order.pop_first();
    }
}

/// Moves the later entries that follow the slots into new slots, as far as memory is there.
fn gather(covered: u64, contiguous: &mut Row, out_of_order: &mut BTreeMap<u64, StampedEntry>)
    requires { IsSlotted covered (row_slots contiguous.old) out_of_order.old.entries }
    ensures slotted { IsSlotted covered (row_slots contiguous.new) out_of_order.new.entries }
    ensures same { in_slots covered (row_slots contiguous.new) ++ out_of_order.new.entries
        ≡ in_slots covered (row_slots contiguous.old) ++ out_of_order.old.entries }
{
    while let Some((number, entry)) = out_of_order.first_key_value() {
        if *number - 1 != covered + contiguous.len() as u64 || contiguous.push(entry).is_err() {
            break;
        }
        out_of_order.pop_first();
    }
}

/// Empties the slot if its entry has a component of its stamp above its thread's frontier.
fn empty_if_above(contiguous: &mut Row, i: usize, frontiers: &EntryCounts)
    requires { i < length (row_slots contiguous.old) }
    ensures slots { length (row_slots contiguous.new) ≡ length (row_slots contiguous.old) }
    ensures held { (e : StampedEntry) → (slice_index_or (row_slots contiguous.new) i None ≡ Some e)
        ↔ ((slice_index_or (row_slots contiguous.old) i None ≡ Some e)
        × AtMost e.stamp frontiers.now) }
    ensures others { (k : ℕ) → k ≢ i → slice_index_or (row_slots contiguous.new) k None
        ≡ slice_index_or (row_slots contiguous.old) k None }
{
    if let Some(entry) = contiguous.get(i)
        && !entry.stamp.at_most(frontiers)
    {
        contiguous.clear(i);
    }
}

/// Empties each slot whose entry has a component of its stamp above its thread's frontier.
fn empty_above(contiguous: &mut Row, frontiers: &EntryCounts)
    ensures { RetainsSlots (row_slots contiguous.old) (row_slots contiguous.new) frontiers.now }
{
    for i in 0..contiguous.len() {
        empty_if_above(contiguous, i, frontiers);
    }
}

/// How many entries the slot has: one or none.
fn count_in(slot: &Option<StampedEntry>) -> usize
    ensures count { result ≡ length (option_to_list slot.now) }
    ensures small { result ≤ 1 }
{
    match slot {
        Some(_) => 1,
        None => 0,
    }
}

/// How many slots are not empty.
fn count_full(contiguous: &Row) -> usize
    ensures { (from : ℕ) → result ≡ length (in_slots from (row_slots contiguous.now)) }
{
    let mut count = 0;
    for i in 0..contiguous.len() {
        count += count_in(&contiguous.get(i));
    }
    count
}

impl Slots {
    /// Nothing covered and nothing held, of so many threads. It takes no memory.
    pub fn new(alloc: Global, threads: u32) -> Self
        ensures { result ≡ fresh_lane }
    {
        Slots {
            covered: 0,
            contiguous: Row::new(alloc, threads),
            out_of_order: BTreeMap::new(alloc),
        }
    }

    /// How many of the thread's entries are covered.
    pub fn covered(&self) -> u64
        ensures value { result ≡ self.now.covered }
        ensures numbers { (n : ℕ) → IsSome (entry_at self.now n)
            → (self.now.covered < n) × (n < 2 ^ 64) }
        ensures rising { IsRising self.now.covered self.now.entries }
    {
        let _ordered = self.out_of_order.len();
        self.covered
    }

    /// The held entry of this number.
    pub fn get(&self, number: u64) -> Option<StampedEntry>
        ensures { result ≡ entry_at self.now number }
    {
        match slot_of(self.covered, &self.contiguous, number) {
            Some(slot) => self.contiguous.get(slot),
            None => self.out_of_order.get(&number).copied(),
        }
    }

    /// Whether the entry of this number is held.
    pub fn holds(&self, number: u64) -> bool
        ensures { IsTrue result ↔ IsSome (entry_at self.now number) }
    {
        match slot_of(self.covered, &self.contiguous, number) {
            Some(slot) => self.contiguous.is_full(slot),
            None => self.out_of_order.contains_key(&number),
        }
    }

    /// How many entries are held.
    pub fn len(&self) -> usize
        ensures len { result ≡ length self.now.entries }
        ensures small { result ≤ 2 ^ 56 }
    {
        count_full(&self.contiguous) + self.out_of_order.len()
    }

    /// Holds this entry as the one of this number.
    pub fn put(&mut self, number: u64, entry: &StampedEntry) -> Result<(), NoMemory>
        requires past { self.old.covered < number }
        requires free { entry_at self.old number ≡ None }
        ensures ok { OnOk result (PutsEntry self.old self.new number entry.now) }
        ensures err { OnErr result (self.new ≡ self.old) }
    {
        let place = number - self.covered - 1;
        let slots = self.contiguous.len() as u64;
        if place < slots {
            self.contiguous.set(place as usize, entry)?;
            return Ok(());
        }
        if self.contiguous.len() >= LIMIT - self.out_of_order.len() {
            return Err(NoMemory);
        }
        if place == slots {
            self.contiguous.push(entry)?;
            gather(self.covered, &mut self.contiguous, &mut self.out_of_order);
            return Ok(());
        }
        self.out_of_order.insert(number, *entry)?;
        Ok(())
    }

    /// Marks the entries up to this count as covered, and drops those held of them. It takes no memory.
    pub fn cover(&mut self, count: u64)
        requires { self.old.covered ≤ count }
        ensures { CoversUpTo self.old self.new count }
    {
        let slots = self.contiguous.len() as u64;
        self.contiguous
            .drop_first(slots.min(count - self.covered) as usize);
        drop_out_of_order_up_to(&mut self.out_of_order, count);
        self.covered = count;
    }

    /// Drops each held entry with a component of its stamp above its thread's frontier. It takes no memory.
    pub fn retain_at_most(&mut self, frontiers: &EntryCounts)
        ensures retained { RetainsAtMost self.old self.new frontiers.now }
        ensures fewer { length self.new.entries ≤ length self.old.entries }
    {
        empty_above(&mut self.contiguous, frontiers);
        self.out_of_order
            .retain(|_, entry| entry.stamp.at_most(frontiers));
    }
}
