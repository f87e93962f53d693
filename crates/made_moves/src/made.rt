use entry_order::What;
use plain_text::Sequence;

/// What a move did.
#[derive(Clone, Copy)]
pub enum Did {
    /// It took the input of this number.
    Took(u64),
    /// It made the log entry of this number.
    Logged { number: u64, what: What },
    /// It sent the output of this number out.
    Sent(u64),
    /// It ended the packet that is the input of this number.
    Ended(u64),
}

/// A move that was made.
#[derive(Clone, Copy)]
pub struct Made {
    /// The thread that made it.
    pub thread: u32,
    pub did: Did,
}

/// Moves that were made, the oldest first.
pub type MadeMoves = Sequence<Made>;
