ghost use Rattle.std.specs.Prelude.{◌≡◌, ℕ, ◌+◌, ◌-◌, ◌^◌, ◌<◌, ◌≤◌, length, sum};
ghost use Rattle.std.specs.Prelude.{slice_index, IfSome, IfNone};

use crate::{Stamp, THREADS};
use std::marker::Model;

/// For each of 16 threads a number of any size: how many of its entries are covered, or up to which all are held.
/// Contracts see the counts as the list of the 16.
#[derive(Clone, Copy, Debug, PartialEq, Eq)]
pub struct EntryCounts {
    components: [u64; 16],
}

impl Model for EntryCounts {
    ghost use Rattle.std.specs.Prelude.{List, ℕ};

    ghost Value = { List ℕ };

    ghost view = { λ c. c.components };

    ghost inverse = { λ list. record { components = list } };
}

impl EntryCounts {
    /// The counts with these components.
    pub fn new(components: [u64; 16]) -> Self
        ensures { result ≡ components }
    {
        EntryCounts { components }
    }

    /// The components, that of thread 0 first.
    pub fn components(&self) -> &[u64; 16]
        ensures value { result.now ≡ self.now }
        ensures all { length self.now ≡ 16 }
    {
        &self.components
    }

    /// The component of one thread.
    pub fn get(&self, thread: u32) -> u64
        requires { thread < 16 }
        ensures { result ≡ slice_index self.now thread }
    {
        self.components[thread as usize]
    }

    /// The stamp with these components; `None` exactly where one of them is 2^32 or more.
    pub fn narrowed(&self) -> Option<Stamp>
        ensures same { IfSome result (λ stamp. stamp ≡ self.now) }
        ensures wide { IfNone result ((u : ℕ) × (2 ^ 32 ≤ slice_index self.now u)) }
    {
        let mut components = [0; THREADS];
        for thread in 0..THREADS {
            if self.components[thread] > u64::from(u32::MAX) {
                return None;
            }
            components[thread] = self.components[thread] as u32;
        }
        Some(Stamp::new(components))
    }

    /// The sum of the components.
    pub fn weight(&self) -> u128
        ensures summed { result ≡ sum self.now }
        ensures all { length self.now ≡ 16 }
    {
        let mut weight = 0;
        for component in &self.components {
            weight += u128::from(*component);
        }
        weight
    }
}
