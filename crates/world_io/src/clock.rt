//! The time of the outside.
ghost use Rattle.std.specs.Prelude.{◌≡◌, ℕ};

/// The clock that racing threads are told the time by, in microseconds since 1970-01-01 00:00 UTC.
///
/// It may be set back between two readings. A clock has no fault: the time of one that cannot be read is some number
/// too.
pub trait Clock {
    /// What it may answer.
    ghost may: { Self → ℕ → Type 0 };

    /// The time now.
    fn now(&self) -> u64
        ensures { may self.now result };
}

/// A clock that always answers its number.
#[derive(Clone, Copy)]
pub struct FixedClock(pub u64);

impl Clock for FixedClock {
    ghost may = { λ c t. t ≡ c.0 };

    fn now(&self) -> u64 {
        self.0
    }
}
