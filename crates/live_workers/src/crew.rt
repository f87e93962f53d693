//! The workers of a race together: whether all have begun.
use crate::working::Worker;
use box_program::Program;
use replay_guide::Guide;
use std::sync::atomic::{AtomicBool, AtomicU64, Ordering};
use std::thread;

/// So often a worker looks whether the others have begun, and lets them run after each look.
const MOST_LOOKS: u32 = 1_000_000;

/// The workers of a race. Where entries are followed, a worker may wait for what another one makes; so none makes a move
/// before all have begun, and where not all can run at once, none makes any.
#[derive(Drop)]
pub(crate) struct Crew {
    /// How many have to begin before one may go on.
    together: u64,
    begun: AtomicU64,
    /// Whether one waited too long for the others.
    late: AtomicBool,
}

/// Whether the next entry of a worker's thread is followed.
fn follows<P: Program>(guide: &Guide, workers: &[Worker<P>]) -> bool {
    for worker in workers {
        let next = worker.seat.counts().entries.saturating_add(1);
        if guide.get(worker.seat.thread(), next).is_some() {
            return true;
        }
    }
    false
}

impl Crew {
    pub(crate) fn of<P: Program>(guide: &Guide, workers: &[Worker<P>]) -> Self {
        let count = workers.len() as u64;
        let together = if follows(guide, workers) { count } else { 0 };
        Crew {
            together,
            begun: AtomicU64::new(0),
            late: AtomicBool::new(false),
        }
    }

    /// Begins a worker; whether it may go on. Where it may not, it is still to end the round for its thread, since one
    /// that went on may wait for it.
    pub(crate) fn begin(&self) -> bool {
        self.begun.fetch_add(1, Ordering::SeqCst);
        for _ in 0..MOST_LOOKS {
            if self.late.load(Ordering::SeqCst) {
                return false;
            }
            if self.begun.load(Ordering::SeqCst) >= self.together {
                return true;
            }
            thread::yield_now();
        }
        self.late.store(true, Ordering::SeqCst);
        false
    }
}
