use plain_text::{Kind, Sequence};

/// One line of a plan. Threads, moves, frames and numbers are below 2^64; threads are counted from 0, the entries and
/// outputs of a thread from 1.
#[derive(Clone, Copy)]
pub enum PlanLine {
    /// This many packets come in, or those that are left.
    Feed(u64),
    /// In the next round the thread makes at most this number of moves.
    Limit {
        thread: u64,
        moves: u64,
    },
    /// In the next round at most this number of the thread's frames are taken: the first ones that it sends.
    Take {
        thread: u64,
        frames: u64,
    },
    /// In the next round this frame is lost after it was taken.
    Lose {
        kind: Kind,
        thread: u64,
        number: u64,
    },
    /// All threads race until each is idle, waits for an entry that is missing, or made as many moves as it may.
    Round,
    /// A snapshot of the master is made.
    Snap,
    /// The snapshot under way is stored.
    Store,
    /// The master crashes.
    Crash,
    /// A new master starts.
    Recover,
    /// The value of this variable is shown.
    Show(u64),
    /// All that is left comes in, a round without orders is run, and all that was made arrives.
    Settle,
}

/// The lines of a plan, in order.
pub type Plan = Sequence<PlanLine>;
