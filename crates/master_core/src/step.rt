use access_log::{Output, StampedEntry};
use plain_machine::PlainMove;
use plain_text::Sequence;

/// What one call did for a thread.
#[derive(Debug, Drop)]
pub enum Stepped {
    /// It took its input of this number.
    Took(u64),
    /// It made a logged move, which is this entry.
    Did(StampedEntry),
    /// It sent a packet out.
    Emitted(Output),
    /// It ended its input of this number.
    Ended(u64),
    /// It made none: it wants an input, and was given none.
    Idle,
    /// It made none: it wants a variable, and its turn comes after the entry of this thread and number.
    NotTurn { thread: u32, number: u64 },
    /// It made none.
    NoMemory,
}

/// What a move left, without the packet that it sent out.
#[derive(Clone, Copy, Debug, PartialEq)]
pub enum Trace {
    /// Took the input of this number.
    Took(u64),
    /// Made this entry.
    Did(StampedEntry),
    /// Sent out the output of this number.
    Emitted(u64),
    /// Ended the input of this number.
    Ended(u64),
}

/// One move of several threads that is put into one order, with what it left.
#[derive(Clone, Copy, Debug, PartialEq)]
pub struct WovenStep {
    pub moved: PlainMove,
    pub trace: Trace,
}

/// The moves of several threads in one order.
pub type Woven = Sequence<WovenStep>;
