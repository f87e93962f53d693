ghost use Rattle.std.specs.Prelude.{◌≡◌, ℕ, ◌+◌, ◌-◌, ◌^◌, ◌<◌, ◌≤◌, ◌↔◌, IsTrue, length};
ghost use Rattle.std.specs.Prelude.{replicate, sum, slice_index, slice_set};
ghost use Rattle.thread_clock.specs.Clock.{AtMost, IsJoin};

use crate::EntryCounts;
use std::marker::Model;

/// The most threads that a job may have, and so the components of a stamp.
pub const THREADS: usize = 16;

/// For each of 16 threads a count of its entries, below 2^32. Contracts see a stamp as the list of its 16 components.
#[derive(Clone, Copy, Debug, PartialEq, Eq)]
pub struct Stamp {
    components: [u32; 16],
}

impl Model for Stamp {
    ghost use Rattle.std.specs.Prelude.{List, ℕ};

    ghost Value = { List ℕ };

    ghost view = { λ s. s.components };

    ghost inverse = { λ list. record { components = list } };
}

impl Stamp {
    /// The stamp with these components.
    pub fn new(components: [u32; 16]) -> Self
        ensures { result ≡ components }
    {
        Stamp { components }
    }

    /// The stamp whose components all are 0.
    pub fn zero() -> Self
        ensures { result ≡ replicate 16 0 }
    {
        Stamp {
            components: [0; 16],
        }
    }

    /// The components, that of thread 0 first.
    pub fn components(&self) -> &[u32; 16]
        ensures value { result.now ≡ self.now }
        ensures all { length self.now ≡ 16 }
    {
        &self.components
    }

    /// The component of one thread.
    pub fn get(&self, thread: u32) -> u64
        requires { thread < 16 }
        ensures { result ≡ slice_index self.now thread }
    {
        u64::from(self.components[thread as usize])
    }

    /// Raises each component to that of the other stamp, where that is greater.
    pub fn join(&mut self, other: &Stamp)
        ensures joined { IsJoin self.old other.now self.new }
        ensures all { length self.new ≡ 16 }
    {
        for i in 0..THREADS {
            self.components[i] = self.components[i].max(other.components[i]);
        }
    }

    /// Whether no component is above that of these counts.
    pub fn at_most(&self, counts: &EntryCounts) -> bool
        ensures { IsTrue result ↔ AtMost self.now counts.now }
    {
        let bounds = counts.components();
        for i in 0..THREADS {
            if u64::from(self.components[i]) > bounds[i] {
                return false;
            }
        }
        true
    }

    /// The sum of the components.
    pub fn weight(&self) -> u64
        ensures summed { result ≡ sum self.now }
        ensures all { length self.now ≡ 16 }
        ensures small { result < 2 ^ 36 }
    {
        let mut weight = 0;
        for component in &self.components {
            weight += u64::from(*component);
        }
        weight
    }

    /// Adds 1 to the component of one thread.
    pub fn bump(&mut self, thread: u32)
        requires thread_in { thread < 16 }
        requires room { slice_index self.old thread < 2 ^ 32 - 1 }
        ensures { self.new ≡ slice_set self.old thread (slice_index self.old thread + 1) }
    {
        self.components[thread as usize] += 1;
    }
}
