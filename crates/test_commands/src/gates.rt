//! A gate at which two threads of a round wait for each other.
use std::sync::atomic::{AtomicU64, Ordering};
use std::thread::yield_now;
use var_locks::Gate;

/// How often a thread looks at most whether what it waits for has come.
const TURNS: u32 = 100_000_000;

/// Thread 0 about to touch variable 1, and thread 1 about to touch variable 2, wait for each other. So both threads move
/// at the same time, and each holds a variable of its own while the other does.
#[derive(Drop)]
pub struct WaitingGate {
    /// 1 once thread 0 is at variable 1.
    first: AtomicU64,
    /// 1 once thread 1 is at variable 2.
    second: AtomicU64,
    /// How many waits have ended before their turns ran out.
    ended: AtomicU64,
}

impl WaitingGate {
    /// A gate that nobody has passed.
    pub fn new() -> WaitingGate {
        WaitingGate {
            first: AtomicU64::new(0),
            second: AtomicU64::new(0),
            ended: AtomicU64::new(0),
        }
    }

    /// How many waits have ended before their turns ran out.
    pub fn ended(&self) -> u64 {
        self.ended.load(Ordering::SeqCst)
    }

    /// Waits until this has come, or the turns have run out.
    fn wait_for(&self, coming: &AtomicU64) {
        for _ in 0..TURNS {
            if coming.load(Ordering::SeqCst) == 1 {
                self.ended.fetch_add(1, Ordering::SeqCst);
                return;
            }
            yield_now();
        }
    }
}

impl Gate for WaitingGate {
    fn pass(&self, thread: u32, var: u32) {
        match (thread, var) {
            (0, 1) => {
                self.first.store(1, Ordering::SeqCst);
                self.wait_for(&self.second);
            }
            (1, 2) => {
                self.second.store(1, Ordering::SeqCst);
                self.wait_for(&self.first);
            }
            _ => {}
        }
    }
}
