use std::rt;
use std::time::{SystemTime, UNIX_EPOCH};
use world_io::Clock;

/// The clock of the system.
///
/// Where it cannot be read, or stands before 1970, it answers 0, and 2^64 - 1 where it stands past that. Contracts know
/// nothing of what it answers.
#[derive(Drop)]
pub struct RealClock<R: rt::Clock + Drop> {
    rt: R,
}

impl<R: rt::Clock + Drop> RealClock<R> {
    pub fn new(rt: R) -> Self {
        RealClock { rt }
    }
}

impl<R: rt::Clock + Drop> Clock for RealClock<R> {
    ghost may = { λ _ _. Unit {0} };

    fn now(&self) -> u64 {
        let Ok(time) = SystemTime::now(&self.rt) else {
            return 0;
        };
        match time.duration_since(UNIX_EPOCH) {
            Ok(since) => u64::try_from(since.as_micros()).unwrap_or(u64::MAX),
            Err(_) => 0,
        }
    }
}
