ghost use Rattle.std.specs.Prelude.{◌≡◌, ◌≤◌, IfSome};

use crate::narrow::{first_components, is_zero_from, padded};
use std::marker::Model;
use thread_clock::Stamp;

/// A stamp with room for its first `N` components, of which the others are 0. Contracts see the stamp.
#[derive(Debug, Drop)]
pub struct NarrowStamp<const N: usize> {
    components: [u32; N],
}

impl<const N: usize> Model for NarrowStamp<N> {
    ghost use Rattle.std.specs.Prelude.{List, ℕ};
    ghost use Rattle.access_log.specs.Narrow.{padded};

    ghost Value = { List ℕ };

    ghost view = { λ s. padded 16 s.components };
}

impl<const N: usize> NarrowStamp<N> {
    /// The stamp with less room; nothing where there is too little.
    pub fn of(stamp: &Stamp) -> Option<Self>
        requires { N ≤ 16 }
        ensures { IfSome result (λ narrow. narrow ≡ stamp.now) }
    {
        if !is_zero_from(stamp, N) {
            return None;
        }
        Some(NarrowStamp {
            components: first_components(stamp),
        })
    }

    /// The stamp.
    pub fn stamp(&self) -> Stamp
        requires { N ≤ 16 }
        ensures { result ≡ self.now }
    {
        padded(&self.components)
    }
}
