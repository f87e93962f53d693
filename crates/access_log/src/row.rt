//! Rows of slots. While all stamps have but a few components that are not 0, a slot has room for no more.
ghost use Rattle.std.specs.Prelude.{◌≡◌, ◌≢◌, ℕ, ◌<◌, ◌≤◌, ◌↔◌, ◌++◌, ◌∷◌, [], Some, None, Ok, IfOk};
ghost use Rattle.std.specs.Prelude.{true, is_ok, IsSome, IsTrue, length, drop, slice_index_or, slice_set};
ghost use Rattle.std.specs.Prelude.{if◌then◌else◌};
ghost use Rattle.std.specs.VecDeque.{deque_len};
ghost use Rattle.access_log.specs.Rows.{row_slots};

use crate::StampedEntry;
use crate::narrow::NarrowSlot;
use plain_text::NoMemory;
use std::alloc::Global;
use std::collections::VecDeque;

/// Slots that follow one another, each with an entry or empty.
#[derive(Debug, Drop)]
pub enum Row {
    /// The stamps are 0 but for the component of thread 0.
    One(VecDeque<NarrowSlot<1>>),
    /// The stamps are 0 but for the components of threads 0 and 1.
    Two(VecDeque<NarrowSlot<2>>),
    /// The stamps are 0 but for the components of threads 0 to 3.
    Four(VecDeque<NarrowSlot<4>>),
    /// The stamps are 0 but for the components of threads 0 to 7.
    Eight(VecDeque<NarrowSlot<8>>),
    /// There is room for all components.
    Full(VecDeque<Option<StampedEntry>>),
}

/// Drops the first slots.
fn drop_front<T: Drop>(slots: &mut VecDeque<T>, count: usize)
    requires { count ≤ deque_len slots.old }
    ensures { slots.new.items ≡ drop count slots.old.items }
{
    for _ in 0..count {
        slots.pop_front();
    }
}

/// Appends a slot with the entry if it has room for it, and tells whether it has.
fn push_narrow<const N: usize>(
    slots: &mut VecDeque<NarrowSlot<N>>,
    entry: &StampedEntry,
) -> Result<bool, NoMemory>
    requires { N ≤ 16 }
    ensures pushed { result ≡ Ok true → slots.new.items ≡ slots.old.items ++ Some entry.now ∷ [] }
    ensures same { result ≢ Ok true → slots.new.items ≡ slots.old.items }
{
    let Some(slot) = NarrowSlot::of(entry) else {
        return Ok(false);
    };
    slots.push_back(slot)?;
    Ok(true)
}

/// Puts the entry into a slot if that has room for it, and tells whether it has.
fn set_narrow<const N: usize>(
    slots: &mut VecDeque<NarrowSlot<N>>,
    i: usize,
    entry: &StampedEntry,
) -> bool
    requires room { N ≤ 16 }
    requires within { i < length slots.old.items }
    ensures put { result ≡ true → slots.new.items ≡ slice_set slots.old.items i (Some entry.now) }
    ensures same { result ≢ true → slots.new.items ≡ slots.old.items }
{
    let Some(slot) = NarrowSlot::of(entry) else {
        return false;
    };
    slots[i] = slot;
    true
}

impl Row {
    /// No slots, for so many threads. It takes no memory.
    pub fn new(alloc: Global, threads: u32) -> Self
        ensures { row_slots result ≡ [] }
    {
        match threads {
            0 | 1 => Row::One(VecDeque::new(alloc)),
            2 => Row::Two(VecDeque::new(alloc)),
            3 | 4 => Row::Four(VecDeque::new(alloc)),
            5..=8 => Row::Eight(VecDeque::new(alloc)),
            _ => Row::Full(VecDeque::new(alloc)),
        }
    }

    /// How many slots there are.
    pub fn len(&self) -> usize
        ensures { result ≡ length (row_slots self.now) }
    {
        match self {
            Row::One(slots) => slots.len(),
            Row::Two(slots) => slots.len(),
            Row::Four(slots) => slots.len(),
            Row::Eight(slots) => slots.len(),
            Row::Full(slots) => slots.len(),
        }
    }

    /// Whether a slot has an entry.
    pub fn is_full(&self, i: usize) -> bool
        requires { i < length (row_slots self.now) }
        ensures { IsTrue result ↔ IsSome (slice_index_or (row_slots self.now) i None) }
    {
        match self {
            Row::One(slots) => slots[i].is_full(),
            Row::Two(slots) => slots[i].is_full(),
            Row::Four(slots) => slots[i].is_full(),
            Row::Eight(slots) => slots[i].is_full(),
            Row::Full(slots) => slots[i].is_some(),
        }
    }

    /// The entry of a slot.
    pub fn get(&self, i: usize) -> Option<StampedEntry>
        requires { i < length (row_slots self.now) }
        ensures { result ≡ slice_index_or (row_slots self.now) i None }
    {
        match self {
            Row::One(slots) => slots[i].entry(),
            Row::Two(slots) => slots[i].entry(),
            Row::Four(slots) => slots[i].entry(),
            Row::Eight(slots) => slots[i].entry(),
            Row::Full(slots) => slots[i],
        }
    }

    /// Empties a slot.
    pub fn clear(&mut self, i: usize)
        requires { i < length (row_slots self.old) }
        ensures { row_slots self.new ≡ slice_set (row_slots self.old) i None }
    {
        match self {
            Row::One(slots) => slots[i] = NarrowSlot::empty(),
            Row::Two(slots) => slots[i] = NarrowSlot::empty(),
            Row::Four(slots) => slots[i] = NarrowSlot::empty(),
            Row::Eight(slots) => slots[i] = NarrowSlot::empty(),
            Row::Full(slots) => slots[i] = None,
        }
    }

    /// Drops the first slots. It takes no memory.
    pub fn drop_first(&mut self, count: usize)
        requires { count ≤ length (row_slots self.old) }
        ensures { row_slots self.new ≡ drop count (row_slots self.old) }
    {
        match self {
            Row::One(slots) => drop_front(slots, count),
            Row::Two(slots) => drop_front(slots, count),
            Row::Four(slots) => drop_front(slots, count),
            Row::Eight(slots) => drop_front(slots, count),
            Row::Full(slots) => drop_front(slots, count),
        }
    }

    /// The allocator that the row grows by.
    fn allocator(&self) -> Global {
        match self {
            Row::One(slots) => *slots.allocator(),
            Row::Two(slots) => *slots.allocator(),
            Row::Four(slots) => *slots.allocator(),
            Row::Eight(slots) => *slots.allocator(),
            Row::Full(slots) => *slots.allocator(),
        }
    }

    /// The same slots, with room for all components.
    fn in_full(&self) -> Result<VecDeque<Option<StampedEntry>>, NoMemory>
        ensures { IfOk result (λ full. full.items ≡ row_slots self.now) }
    {
        let mut full = VecDeque::new(self.allocator());
        for i in 0..self.len() {
            full.push_back(self.get(i))?;
        }
        Ok(full)
    }

    /// Appends a slot with the entry if slots have room for it as they are, and tells whether they have.
    fn push_as_laid_out(&mut self, entry: &StampedEntry) -> Result<bool, NoMemory>
        ensures pushed { result ≡ Ok true
            → row_slots self.new ≡ row_slots self.old ++ Some entry.now ∷ [] }
        ensures same { result ≢ Ok true → row_slots self.new ≡ row_slots self.old }
    {
        match self {
            Row::One(slots) => push_narrow(slots, entry),
            Row::Two(slots) => push_narrow(slots, entry),
            Row::Four(slots) => push_narrow(slots, entry),
            Row::Eight(slots) => push_narrow(slots, entry),
            Row::Full(slots) => {
                slots.push_back(Some(*entry))?;
                Ok(true)
            }
        }
    }

    /// Puts the entry into a slot if slots have room for it as they are, and tells whether they have.
    fn set_as_laid_out(&mut self, i: usize, entry: &StampedEntry) -> bool
        requires { i < length (row_slots self.old) }
        ensures put { result ≡ true
            → row_slots self.new ≡ slice_set (row_slots self.old) i (Some entry.now) }
        ensures same { result ≢ true → row_slots self.new ≡ row_slots self.old }
    {
        match self {
            Row::One(slots) => set_narrow(slots, i, entry),
            Row::Two(slots) => set_narrow(slots, i, entry),
            Row::Four(slots) => set_narrow(slots, i, entry),
            Row::Eight(slots) => set_narrow(slots, i, entry),
            Row::Full(slots) => {
                slots[i] = Some(*entry);
                true
            }
        }
    }

    /// Appends a slot with this entry, in time that does not grow with the row, taken over many calls.
    pub fn push(&mut self, entry: &StampedEntry) -> Result<(), NoMemory>
        ensures items { row_slots self.new ≡ (if is_ok result
            then row_slots self.old ++ Some entry.now ∷ [] else row_slots self.old) }
    {
        if self.push_as_laid_out(entry)? {
            return Ok(());
        }
        let mut full = self.in_full()?;
        full.push_back(Some(*entry))?;
        *self = Row::Full(full);
        Ok(())
    }

    /// Puts this entry into a slot, in time that does not grow with the row, taken over many calls.
    pub fn set(&mut self, i: usize, entry: &StampedEntry) -> Result<(), NoMemory>
        requires { i < length (row_slots self.old) }
        ensures items { row_slots self.new ≡ (if is_ok result
            then slice_set (row_slots self.old) i (Some entry.now) else row_slots self.old) }
    {
        if self.set_as_laid_out(i, entry) {
            return Ok(());
        }
        let mut full = self.in_full()?;
        full[i] = Some(*entry);
        *self = Row::Full(full);
        Ok(())
    }
}
