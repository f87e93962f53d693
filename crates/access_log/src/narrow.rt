//! Slots that have room for the first components of a stamp.
ghost use Rattle.std.specs.Prelude.{◌≡◌, ℕ, ◌<◌, ◌≤◌, ◌↔◌, Some, None, IsSome, IsTrue, MatchOption};
ghost use Rattle.std.specs.Prelude.{length, slice_index};
ghost use Rattle.access_log.specs.Narrow.{padded, FitsIn};

use crate::{StampedEntry, What};
use std::marker::Model;
use std::mem::size_of;
use thread_clock::Stamp;

// With room for one component a slot takes 32 bytes, and with room for eight 64.
const _: () = prove!(size_of::<NarrowSlot<1>>() == 32);

const _: () = prove!(size_of::<NarrowSlot<8>>() == 64);

/// A slot with room for the first `N` components of its entry's stamp, of which the others are 0. It is empty where the
/// number is 0. Contracts see its entry, if there is one.
#[derive(Debug, Drop)]
pub struct NarrowSlot<const N: usize> {
    number: u64,
    what: What,
    thread: u32,
    components: [u32; N],
}

impl<const N: usize> Model for NarrowSlot<N> {
    ghost use Rattle.std.specs.Prelude.{Option};
    ghost use Rattle.access_log.specs.declared.entry.StampedEntry.{StampedEntry};

    ghost Value = { Option StampedEntry };

    ghost use Rattle.access_log.specs.Narrow.{unpacked};

    ghost view = { λ s. unpacked s.number s.thread s.what s.components };
}

/// Whether the components of the threads from this one on are 0.
pub(crate) fn is_zero_from(stamp: &Stamp, first: usize) -> bool
    ensures { IsTrue result ↔ ((k : ℕ) → first ≤ k → slice_index stamp.now k ≡ 0) }
{
    let components = stamp.components();
    let mut zero = true;
    // With no early end the compiler compares several components at once.
    for i in first..16 {
        zero &= components[i] == 0;
    }
    zero
}

/// The first components.
pub(crate) fn first_components<const N: usize>(stamp: &Stamp) -> [u32; N]
    requires { N ≤ 16 }
    ensures count { length result ≡ N }
    ensures all { length stamp.now ≡ 16 }
    ensures each { (k : ℕ) → k < N → slice_index result k ≡ slice_index stamp.now k }
{
    let all = stamp.components();
    let mut components = [0; N];
    for i in 0..N {
        components[i] = all[i];
    }
    components
}

/// The stamp with these first components, of which the others are 0.
pub(crate) fn padded(components: &[u32]) -> Stamp
    requires { length components.now ≤ 16 }
    ensures { result ≡ padded 16 components.now }
{
    let mut all = [0; 16];
    for i in 0..components.len() {
        all[i] = components[i];
    }
    Stamp::new(all)
}

impl<const N: usize> NarrowSlot<N> {
    /// An empty slot.
    pub fn empty() -> Self
        ensures { result ≡ None }
    {
        NarrowSlot {
            number: 0,
            what: What::Clock(0),
            thread: 0,
            components: [0; N],
        }
    }

    /// A slot with this entry; `None` exactly where it has no room for it.
    pub fn of(entry: &StampedEntry) -> Option<Self>
        requires { N ≤ 16 }
        ensures { MatchOption result (FitsIn N entry.now → ⊥) (λ slot. slot ≡ Some entry.now) }
    {
        if entry.number == 0 || !is_zero_from(&entry.stamp, N) {
            return None;
        }
        Some(NarrowSlot {
            number: entry.number,
            what: entry.what,
            thread: entry.thread,
            components: first_components(&entry.stamp),
        })
    }

    /// Whether it has an entry.
    pub fn is_full(&self) -> bool
        ensures { IsTrue result ↔ IsSome self.now }
    {
        self.number != 0
    }

    /// Its entry.
    pub fn entry(&self) -> Option<StampedEntry>
        requires { N ≤ 16 }
        ensures { result ≡ self.now }
    {
        if self.number == 0 {
            return None;
        }
        Some(StampedEntry {
            thread: self.thread,
            number: self.number,
            what: self.what,
            stamp: padded(&self.components),
        })
    }
}
